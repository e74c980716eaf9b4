ghost use Rattle.sg_major.specs.Law.{MajorLaw};

use sg_graph::quiet_pause;
use sg_heap::front_law;

/// The law of a major pause: the words after it hold the graph by a new book, of which the report tells. It does nothing; its contract is
/// the law, and it rests on those of a quiet pause and of first words.
pub fn major_law()
    ensures { MajorLaw }
{
    quiet_pause();
    front_law();
}
