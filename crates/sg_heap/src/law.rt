ghost use Rattle.sg_heap.specs.Laws.{FrontLaw, SweepLaw};

use sg_graph::blocks_are_swept;

/// A space that holds a graph by a book is sound by the first words of the standing objects, and their fields are those of the
/// graph, whether blocks are still to be swept or not. It does nothing; its contract is the law.
pub fn front_law()
    ensures { FrontLaw }
{}

/// The sweep of all blocks that are to be swept, which may be made at a stop, changes nothing of the graph that a space holds: the
/// book owes no block then, and else stays. Nor does setting the stop word. It does nothing; its contract is the law, and it rests on
/// the one of swept blocks.
pub fn sweep_law()
    ensures { SweepLaw }
{
    blocks_are_swept();
}
