ghost use Rattle.sg_order.specs.OneOrder.{OneOrder, OpensSoFar, GoesSoFar, OrdersSoFar, GoesAlways};
ghost use Rattle.sg_order.specs.Opening.{FirstOpening};
ghost use Rattle.sg_order.specs.Held.{HeldIsSound, HeldWhoever, RunnableMakes};
ghost use Rattle.sg_order.specs.Serving.{StaysReady, ServesReady};

use sg_graph::blocks_go;

/// The law of one order: every legal list of atomic steps of mutators, and of a background sweeper, that follow their programs is
/// explained by one order of whole statements, that of the deciding steps; each owed block is swept at most once, and by one of them.
pub fn one_order()
    ensures { OneOrder }
{
    blocks_go();
}

/// An epoch's opening is its midst before any step.
pub fn opens_so_far()
    ensures { OpensSoFar }
{}

/// From the midst of an epoch the next steps of any mutator lead on.
pub fn goes_so_far()
    ensures { GoesSoFar }
{}

/// The midst of an epoch has one order of whole statements.
pub fn orders_so_far()
    ensures { OrdersSoFar }
{
    blocks_go();
}

/// In the midst of an epoch no mutator is ever stuck: whatever its next call sees, a rule goes on; and each mutator is sane by
/// itself.
pub fn goes_always()
    ensures { GoesAlways }
{
    blocks_go();
}

/// The first epoch of a program opens from words that are all zero, with no object.
pub fn first_opening()
    ensures { FirstOpening }
{}

/// A mutator stays ready where what it holds stands on where it stood: as an epoch ends, in a pause, and as others are answered.
pub fn stays_ready()
    ensures { StaysReady }
{}

/// A stop's answer is a turn: it leaves the mutator that asked ready behind its statement, and every other one as it was.
pub fn serves_ready()
    ensures { ServesReady }
{}

/// The book of a graph that words hold is sound.
pub fn held_is_sound()
    ensures { HeldIsSound }
{}

/// Words hold a graph whoever its mutators are.
pub fn held_whoever()
    ensures { HeldWhoever }
{}

/// A statement that is run now and makes an object makes a small one, of a class of the program.
pub fn runnable_makes()
    ensures { RunnableMakes }
{}
