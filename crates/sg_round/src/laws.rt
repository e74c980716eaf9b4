ghost use Rattle.sg_round.specs.Laws.{OpensSoFar, GoesSoFar, TellsSoFar, RacingLaw, OneWorkerLaw, OneOrderLaw, GoesAlways, BoundedLaw, Released, MoreItems};

/// A round's opening is its midst before any step.
pub fn opens_so_far()
    ensures { OpensSoFar }
{}

/// From the midst of a round the next steps of any worker lead on.
pub fn goes_so_far()
    ensures { GoesSoFar }
{}

/// And then these steps are the last ones of the round.
pub fn tells_so_far()
    ensures { TellsSoFar }
{}

/// The law of racing copiers: every legal list of atomic steps of any number of workers that follow their programs, and have all
/// ended, has led to the image of the opening under one map of its objects.
pub fn racing_law()
    ensures { RacingLaw }
{}

/// One worker alone loses no exchange of a first word, and has no spare in the end. It finds the objects in order, breadth first; each
/// takes the lowest clear slot of the lowest block that can take it as it is found, or fails where there is none.
pub fn one_worker()
    ensures { OneWorkerLaw }
{}

/// Over the same slots of the same words that order is one: the objects found, their places, and the block words and occupancies at
/// the end are determined.
pub fn one_order_of_copies()
    ensures { OneOrderLaw }
{}

/// In the midst of a round no worker is ever stuck: whatever its next call sees, a rule goes on; each worker is sane by itself; and
/// one that hasn't ended can take a step.
pub fn goes_always()
    ensures { GoesAlways }
{}

/// In the midst of a round no more slots have ended than there are words, and no more objects have moved or failed than the nursery
/// has words.
pub fn bounded()
    ensures { BoundedLaw }
{}

/// From one round to the next over the same opening: a spare place whose words are zero again is given back.
pub fn released()
    ensures { Released }
{}

/// From one round to the next over the same opening: more slots come.
pub fn more_items()
    ensures { MoreItems }
{}
