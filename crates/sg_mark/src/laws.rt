ghost use Rattle.sg_mark.specs.Laws.{MarkingLaw};

/// What marks tell, and how markings follow one another and marks go again. It does nothing.
pub fn marking_law()
    ensures { MarkingLaw }
{}
