//! A run as questions and answers, as definitions alone: for any keys, contents and ends. The evaluator's runs and the
//! engine's laws speak of the same ones.
#![tactic(auto)]

pub mod limits;
