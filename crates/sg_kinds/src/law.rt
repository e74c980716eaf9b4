ghost use Rattle.sg_kinds.specs.Laws.{HasOneMisuse};

/// The law of one misuse: no program has two first misuses. It does nothing; its contract is the law.
pub fn one_misuse()
    ensures { HasOneMisuse }
{}
