//! The evaluator of DML: an item's value, its first fault, or the object that it has to ask for,
//! with the work used.
//!
//! What it stands on are the crates `dml_world` (what is asked, and what stands around an item) and
//! `dml_leaves` (all that opens no item). In reading order, one file per part of the evaluation:
//! `here` (where an item is opened), `items`, `loops`, `nodes` (operands), `pairs` (chains of one
//! step), `chains` (the others), `calls`, `references` (arguments that are references), `built_in`
//! (the built-in functions that look at more than values) and `creating` (the statements of
//! structure templates). The call from outside is `dml_call`.
#![tactic(auto)]

mod built_in;
mod calls;
mod chains;
mod creating;
mod here;
mod items;
mod loops;
mod nodes;
mod pairs;
mod references;

pub use here::Here;
pub use items::open_item;
