ghost use Rattle.std.specs.Prelude.{◌≡◌};
ghost use Rattle.base.specs.Answers.{Gives};
ghost use Rattle.builtins_tree.specs.Kinds.{is_dict, is_list, is_property, passes, test_of};
ghost use Rattle.path_tree.specs.Refusals.{refusal};

use call_values::{Arguments, by_count};
use path_tree::{Kind, Refused, Tree};

/// What is asked of a value.
#[derive(Clone, Copy)]
pub(crate) enum Test {
    /// Neither undef nor null.
    Defined,
    /// A boolean.
    Boolean,
    /// A long.
    Long,
    /// A text.
    Text,
    /// A text, a long or a boolean.
    Property,
    /// A dict or a list.
    Resource,
    /// A list.
    List,
    /// A dict.
    Dict,
    /// Null.
    Null,
}

/// Whether the one argument passes.
pub(crate) fn tested(test: Test, args: &[Tree]) -> Result<Tree, Refused>
    ensures { Gives (λ t. t) refusal result (test_of test args.now) }
{
    let Arguments::One(value) = by_count(args) else {
        return Err(Refused::BadArgument);
    };
    Ok(Tree::boolean(passes(test, value.kind())))
}

fn passes(test: Test, kind: Kind) -> bool
    ensures { result ≡ passes test kind }
{
    match test {
        Test::Defined => !matches!(kind, Kind::Undef | Kind::Null),
        Test::Boolean => matches!(kind, Kind::Bool),
        Test::Long => matches!(kind, Kind::Long),
        Test::Text => matches!(kind, Kind::Text),
        Test::Property => is_property(kind),
        Test::Resource => matches!(kind, Kind::Dict | Kind::List),
        Test::List => is_list(kind),
        Test::Dict => is_dict(kind),
        Test::Null => matches!(kind, Kind::Null),
    }
}

/// A text, a long or a boolean.
pub(crate) fn is_property(kind: Kind) -> bool
    ensures { result ≡ is_property kind }
{
    matches!(kind, Kind::Text | Kind::Long | Kind::Bool)
}

/// A list.
pub(crate) fn is_list(kind: Kind) -> bool
    ensures { result ≡ is_list kind }
{
    matches!(kind, Kind::List)
}

/// A dict.
pub(crate) fn is_dict(kind: Kind) -> bool
    ensures { result ≡ is_dict kind }
{
    matches!(kind, Kind::Dict)
}
