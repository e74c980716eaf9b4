ghost use Rattle.sg_mutate.specs.Boards.{OpensBoarded, TurnsAreTaken, EndsAreTaken, TurnsOweLess};

use sg_graph::{blocks_go, one_turn, turns_keep_old};
use sg_order::orders_so_far;

/// As an epoch opens, its board has everybody between two statements.
pub fn opens_boarded()
    ensures { OpensBoarded }
{
    orders_so_far();
}

/// The steps of one turn are a turn over graph and book: at most one whole statement is done in it, and the mutator then stands
/// between two statements, right before its exchange, or has left.
pub fn turns_are_taken()
    ensures { TurnsAreTaken }
{
    orders_so_far();
    one_turn();
    turns_keep_old();
    blocks_go();
}

/// Who has no statement left ends in its turn.
pub fn ends_are_taken()
    ensures { EndsAreTaken }
{}

/// Each turn leaves a mutator less to do: whatever others do in between, it ends or leaves after so many turns.
pub fn turns_owe_less()
    ensures { TurnsOweLess }
{}
