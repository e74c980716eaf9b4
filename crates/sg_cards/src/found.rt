ghost use Rattle.std.specs.Prelude.{◌≡◌};

use sg_words::Addr;
use std::marker::Model;

/// A strong field of an old or a large object that holds a young reference: its byte address, and what it holds.
#[derive(Clone, Copy, Debug, PartialEq, Eq)]
pub struct Seed {
    pub slot: Addr,
    pub target: Addr,
}

/// The seeds of a heap, as `seeds` found them. Nothing else makes one: its field is private, and it can't be copied, so who asks for one by value
/// gets what the dirty cards gave.
#[derive(Debug, Drop)]
pub struct Seeds {
    items: Vec<Seed>,
}

impl Model for Seeds {
    ghost use Rattle.std.specs.Prelude.{List};
    ghost use Rattle.sg_cards.specs.declared.found.Seed.{Seed};

    ghost Value = { List Seed };

    ghost view = { λ s. s.items.items };
}

impl Seeds {
    /// These seeds.
    pub(crate) fn of(items: Vec<Seed>) -> Seeds
        ensures { result ≡ items.items }
    {
        Seeds { items }
    }

    /// The seeds, by the addresses of their fields.
    pub fn all(&self) -> &[Seed]
        ensures { result.now ≡ self.now }
    {
        self.items.as_slice()
    }
}
