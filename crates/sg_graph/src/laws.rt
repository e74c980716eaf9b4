ghost use Rattle.sg_graph.specs.Laws.{BlocksAreSwept, BlocksGo, EndsBehindLast, FullIsLast, HasOneReport, HasOneSearch, HasOneTurn, KeepsInMajor, KeepsPointedInto, PlacesByRoom, PlacesByWords, QuietPause, RunsByTurns, SearchesAll, SweepsOnce, TurnsKeepOld};

/// The law of the end: a run ends behind the epoch that is told to be the last one. It does nothing; its contract is the
/// law.
pub fn ends_behind_last()
    ensures { EndsBehindLast }
{}

/// The law of one report: one order of whole statements, from one graph and one book on, leads to one graph; and with the same places
/// for the new objects of the major heap it has one report, and with the same blocks swept it leads to one book. It does nothing;
/// its contract is the law.
pub fn one_report()
    ensures { HasOneReport }
{}

/// The law of `full`: it is told only behind a major pause. It does nothing; its contract is the law.
pub fn full_is_last()
    ensures { FullIsLast }
{}

/// The law of placing by words: where no slot is asked for, whether the fragments have room for all requests is told by the words for
/// which they ask. It does nothing; its contract is the law.
pub fn places_by_words()
    ensures { PlacesByWords }
{}

/// The law of placing by room: where no block is owed, whether all requests find a place is told by the words and by the slots for
/// which they ask. It does nothing; its contract is the law.
pub fn places_by_room()
    ensures { PlacesByRoom }
{}

/// The law of what is pointed into: it stands after a minor pause, where it stood. It does nothing; its contract is the
/// law.
pub fn keeps_pointed_into()
    ensures { KeepsPointedInto }
{}

/// The law of a quiet pause: in a graph without pairs, weak links and registrations, a pause that keeps exactly what its
/// roots reach changes nothing. It does nothing; its contract is the law.
pub fn quiet_pause()
    ensures { QuietPause }
{}

/// The law of one turn: a mutator's next statement has one answer, and so leads to one graph, and with the same place for a new object
/// of the major heap to one book. It does nothing; its contract is the law.
pub fn one_turn()
    ensures { HasOneTurn }
{}

/// The law of what there was: a whole statement lets the objects that there were stand as they stood. It does nothing; its contract is
/// the law.
pub fn turns_keep_old()
    ensures { TurnsKeepOld }
{}

/// The law of one search: a search for a slot stops in one way. It does nothing; its contract is the law.
pub fn one_search()
    ensures { HasOneSearch }
{}

/// The law of all searches: as an epoch ends in which a mutator asks for a slot, or an object was made in the major heap, no block that
/// the search came to was left out. It does nothing; its contract is the law.
pub fn searches_all()
    ensures { SearchesAll }
{}

/// The law of sweeps in an epoch: a block that was swept had been owed, isn't owed any more, and was swept once. It does nothing; its
/// contract is the law.
pub fn sweeps_once()
    ensures { SweepsOnce }
{}

/// The law of turns: a run that follows a list of turns is a run. It does nothing; its contract is the law.
pub fn runs_by_turns()
    ensures { RunsByTurns }
{}

/// The law of the blocks: a slot whose bit is clear gets an object and its bit, and a free block gets slots of a size, and each
/// block is still as its own words say. It does nothing; its contract is the law.
pub fn blocks_go()
    ensures { BlocksGo }
{}

/// The law of what is pointed into, for a major pause: it stands after it. It does nothing; its contract is the law.
pub fn keeps_in_major()
    ensures { KeepsInMajor }
{}

/// The law of sweeping: where all blocks that were to be swept were swept, each block is as its own words say, none is owed, and
/// an object still stands in each swept one. It does nothing; its contract is the law.
pub fn blocks_are_swept()
    ensures { BlocksAreSwept }
{}
