//! The laws of summaries.
ghost use Rattle.sg_load.specs.Summary.{AnswersAreCounted};
ghost use Rattle.sg_load.specs.Alone.{TalliesAreAlone};

/// A mutator has at most one answer for each statement of its script, in a whole run exactly one; tallies add up phase by phase. It does
/// nothing; its contract is the law.
pub fn answers_are_counted()
    ensures { AnswersAreCounted }
{}

/// Where no answer of a whole run of a generated program is `full`, each mutator's tally is that of its moves by themselves: it doesn't
/// depend on the order of the turns, nor on the other mutators. It does nothing; its contract is the law.
pub fn tallies_are_alone()
    ensures { TalliesAreAlone }
{}
