//! The grammar of templates, as definitions and lemmas alone: a relation on lists of tokens, a machine that reads
//! token by token, and the proof that they agree.
//!
//! In reading order, of `specs/`: `Grammar` (items), `Types`, `Templates` (statements and headers), `Faults` (where a
//! text is wrong, in the relation's words), `States` and `Depths` (what is open, and how deep), `Machine` (the
//! reading), `Waiting` and `Begins` (what its states mean), `Parsed` (the reading's answer as a template or a fault).
#![tactic(auto)]
