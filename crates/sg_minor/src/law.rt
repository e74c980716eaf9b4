ghost use Rattle.sg_minor.specs.Law.{PauseLaw};
ghost use Rattle.sg_minor.specs.Laws.{HeapLaw};

use crate::join::join_law;
use sg_graph::quiet_pause;
use sg_heap::front_law;

/// The law of a minor pause: the words after it hold the graph by a new book, of which the report tells. It does nothing;
/// its contract is the law, and it rests on the one of a quiet pause.
pub fn pause_law()
    ensures { PauseLaw }
{
    front_law();
    quiet_pause();
}

/// What a caller may do with a space that holds a graph by a book: it is sound, and the first parts of a pause may be made one by
/// one. It does nothing; its contract is the law.
pub fn heap_law()
    ensures { HeapLaw }
{
    front_law();
    join_law();
}
