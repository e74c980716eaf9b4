ghost use Rattle.sg_run.specs.Jobs.{HasOneText};

/// The law of replays: an input and a list of turns have one text, so what `replay` writes is a function of both. It does nothing;
/// its contract is the law.
pub fn one_text()
    ensures { HasOneText }
{
    // The laws that it rests on: these calls do nothing.
    sg_replay::one_text();
    sg_grammar::one_reading();
}
