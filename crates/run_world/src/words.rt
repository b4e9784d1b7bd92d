ghost use Rattle.std.specs.Prelude.{[]};
ghost use Rattle.asking.specs.Asked.{Needs};

use std::marker::Brand;

/// What each key tells in one run: its number and content, or that its object is not known.
pub trait Words {
    ghost use Rattle.asking.specs.Asked.{Word};
    ghost use Rattle.questions.specs.declared.key.Key.{Key};
    ghost use Rattle.questions.specs.Contents.{Content};

    ghost tells: { Key → Word Content };
}

impl Words for Brand {
    ghost tells = { λ _. Needs [] };
}
