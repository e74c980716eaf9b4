//! Laws of items.
ghost use Rattle.sg_program.specs.Laws.{ItemsUnfold, ItemsDoWhatIsWritten};

/// The law of unfolding: what one item does and has in the text. It does nothing; its contract is the law.
pub fn items_unfold()
    ensures { ItemsUnfold }
{}

/// The law of what is written: items do what stands in the text, and find the kinds that they need where they are without
/// misuse. It does nothing; its contract is the law.
pub fn items_do_what_is_written()
    ensures { ItemsDoWhatIsWritten }
{}
