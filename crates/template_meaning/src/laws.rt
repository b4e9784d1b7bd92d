ghost use Rattle.questions.specs.Laws.{MayAsk};
ghost use Rattle.questions.specs.Told.{RunLaws, IsRanBy, IsWorkOf, work_of};
ghost use Rattle.dml_meaning.specs.Laws.{IsReading};
ghost use Rattle.template_meaning.specs.Program.{Site, no_program};
ghost use Rattle.template_meaning.specs.Objects.{object_run};
ghost use Rattle.template_meaning.specs.Laws.{object_ending, is_circular_made, object_told, object_made};

/// The laws of the run of an object's statements as questions and answers: what it asks, its work, and
/// where F31 stands.
pub fn statements()
    ensures { (site : Site) → IsReading site.reading → RunLaws (MayAsk site.object)
        is_circular_made (object_made site) (λ pairs. work_of (object_told site pairs)) }
{}

/// A run that is told words, one question after another, is the one that is told them at once.
pub fn at_once()
    ensures { (site : Site) → IsReading site.reading → IsRanBy (object_ending site)
        (object_run site) no_program }
{}

/// Its work is that of the run that is told the pairs that it was told.
pub fn work_at_once()
    ensures { (site : Site) → IsReading site.reading → IsWorkOf (object_ending site)
        (object_run site) no_program }
{}
