ghost use Rattle.sg_replay.specs.OneText.{HasOneText};

use sg_graph::{one_report, one_search, one_turn};

/// The law of one text: two whole runs of a program that follow one list of turns have one text. It does nothing; its
/// contract is the law.
pub fn one_text()
    ensures { HasOneText }
{
    one_turn();
    one_search();
    one_report();
}
