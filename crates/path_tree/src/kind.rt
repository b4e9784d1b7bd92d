/// What a tree is at its root.
#[derive(Clone, Copy, PartialEq, Eq)]
pub enum Kind {
    /// Fields, each with a key.
    Dict,
    /// Items in order.
    List,
    /// A property that is a text.
    Text,
    /// A property that is a number of 64 bits.
    Long,
    /// A property that is a boolean.
    Bool,
    /// A value that is not set.
    Undef,
    /// What removes where it is assigned.
    Null,
}
