//! Laws of the grammar.
ghost use Rattle.sg_grammar.specs.Laws.{HaveOneProgram};
ghost use Rattle.sg_grammar.specs.Text.{HasOneReading};

/// The law of one program: sentences are those of one program at most, and items end at one place. It does nothing; its contract is
/// the law.
pub fn one_program()
    ensures { HaveOneProgram }
{}

/// The law of one reading: no text reads as two programs. It does nothing; its contract is the law.
pub fn one_reading()
    ensures { HasOneReading }
{
    sg_text::one_saying();
    one_program();
}
