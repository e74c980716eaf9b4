//! The law that each generated text is accepted.
#![tactic(auto)]

ghost use Rattle.sg_accepted.specs.Accepted.{GeneratedAreAccepted};

/// The text that is made from each seed and size is accepted, as the program of its moves. It does nothing; its contract is the law.
pub fn generated_are_accepted()
    ensures { GeneratedAreAccepted }
{
    // The laws that it rests on: these calls do nothing.
    sg_grammar::one_program();
    sg_limits::line_limits();
}
