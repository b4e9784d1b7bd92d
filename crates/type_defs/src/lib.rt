//! Types as they are resolved (Pan Book, "Types"): what each name stands for is in place, so that a
//! type needs no table; and types bound to paths.
//!
//! In reading order: `resolved` (types, ranges, defaults), `type_error` (why a written type is
//! none), `measured` (how deep a type is, and its limit), `terms` (copies of terms), `bindings`
//! (types bound to paths, in path order; valid statements), `types` (the types that have names),
//! `making` (ranges, names and suffixes), `fields` (the fields of records), `resolving` (a type
//! from its syntax).
#![tactic(auto)]

mod bindings;
mod fields;
mod making;
mod measured;
mod resolved;
mod resolving;
mod terms;
mod type_error;
mod types;

pub use bindings::{Bindings, Bound, Valid, added_in_order};
pub use measured::{MAX_TYPE_DEPTH, SharedType};
pub use resolved::{Base, DefaultValue, Range, RecordField, Resolved, Shape};
pub use terms::push_terms;
pub use type_error::TypeError;
pub use types::{DefineError, Types};
