ghost use Rattle.call_values.specs.Counted.{IsCounted};

use path_tree::Tree;

/// The arguments of a call, by their count.
#[derive(Clone, Copy)]
pub enum Arguments<'a> {
    /// None.
    Zero,
    /// One.
    One(&'a Tree),
    /// Two, in their order.
    Two(&'a Tree, &'a Tree),
    /// Three, in their order.
    Three(&'a Tree, &'a Tree, &'a Tree),
    /// Four, in their order.
    Four(&'a Tree, &'a Tree, &'a Tree, &'a Tree),
    /// Five or more.
    More,
}

/// The arguments by their count.
pub fn by_count(arguments: &[Tree]) -> Arguments<'_>
    ensures { IsCounted arguments.now result }
{
    match arguments {
        [] => Arguments::Zero,
        [a] => Arguments::One(a),
        [a, b] => Arguments::Two(a, b),
        [a, b, c] => Arguments::Three(a, b, c),
        [a, b, c, d] => Arguments::Four(a, b, c, d),
        _ => Arguments::More,
    }
}
