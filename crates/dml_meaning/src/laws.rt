ghost use Rattle.std.specs.Prelude.{List, ℕ};
ghost use Rattle.pan_ast.specs.Syntax.{Item};
ghost use Rattle.questions.specs.Laws.{MayAsk};
ghost use Rattle.questions.specs.Told.{RunLaws, IsRanBy, IsWorkOf, work_of};
ghost use Rattle.dml_meaning.specs.Run.{Env};
ghost use Rattle.dml_meaning.specs.Around.{Around};
ghost use Rattle.dml_meaning.specs.Laws.{IsReading, item_ending, is_circular_end, item_meaning, item_told, evaluated};

/// The laws of an item's evaluation as questions and answers: what it asks, its work, and where F31 stands.
pub fn evaluation()
    ensures { (a : Around) → IsReading a.reading → (i : Item) (e : Env)
        → RunLaws (MayAsk a.object) is_circular_end (evaluated a i e)
        (λ pairs. work_of (item_told a i e pairs)) }
{}

/// An evaluation that is told words, one question after another, is the one that is told them at once.
pub fn at_once()
    ensures { (a : Around) → IsReading a.reading → (i : Item) (e : Env)
        → IsRanBy item_ending (item_meaning a i) e }
{}

/// Its work is that of the evaluation that is told the pairs that it was told.
pub fn work_at_once()
    ensures { (a : Around) → IsReading a.reading → (i : Item) (e : Env)
        → IsWorkOf item_ending (item_meaning a i) e }
{}
