ghost use Rattle.std.specs.Prelude.{◌≡◌, IfSome, IfNone};
ghost use Rattle.sg_round.specs.Items.{Item, cell_word};
ghost use Rattle.sg_copy.specs.Grays.{item_of, IsCellItem};

use sg_words::Addr;

/// An item of a round: what is still to be gone through.
#[derive(Clone, Copy, Debug, PartialEq, Eq)]
pub enum Gray {
    /// The slot at this byte address.
    Slot { at: Addr },
    /// The strong fields of the object at this byte address.
    Whole { at: Addr },
}

impl Gray {
    /// The word that stands for this item in an offer cell; it isn't 0.
    pub fn to_word(&self) -> u64
        ensures { result ≡ cell_word (item_of self.now) }
    {
        match self {
            Gray::Slot { at } => at.get() + 1,
            Gray::Whole { at } => at.get() + 2,
        }
    }

    /// The item for which this word stands; `None` exactly where it stands for none.
    pub fn of_word(w: u64) -> Option<Gray>
        ensures item { IfSome result (λ gray. w ≡ cell_word (item_of gray)) }
        ensures none { IfNone result ((item : Item) → IsCellItem item → w ≡ cell_word item → ⊥) }
    {
        match w % 8 {
            1 => Some(Gray::Slot {
                at: Addr::of(w - 1)?,
            }),
            2 => Some(Gray::Whole {
                at: Addr::of(w - 2)?,
            }),
            _ => None,
        }
    }
}
