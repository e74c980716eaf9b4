ghost use Rattle.sg_graph.specs.Names.{NamesArePairs};

/// The law of names: an object's name stands for its maker's number and the count of its maker's allocations. It does
/// nothing; its contract is the law.
pub fn names_are_pairs()
    ensures { NamesArePairs }
{}
