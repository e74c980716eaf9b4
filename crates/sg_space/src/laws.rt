ghost use Rattle.sg_space.specs.Laws.{PlacingLaw};

/// Where the objects of a sound space stand. It does nothing.
pub fn placing_law()
    ensures { PlacingLaw }
{}
