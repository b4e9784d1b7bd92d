//! The defaults of types, put into an object's tree where its bindings ask for them (Pan Book,
//! "Types").
//!
//! In reading order: `target` (what is filled, and its steps), `putting` (a default is put), `bare`
//! (types of which a value is only visited), `filling` (a value is filled by a type), `whole` (all
//! bindings).
#![tactic(auto)]

mod bare;
mod filling;
mod putting;
mod target;
mod whole;

pub use whole::fill;
