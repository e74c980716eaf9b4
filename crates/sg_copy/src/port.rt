ghost use Rattle.std.specs.Prelude.{◌≡◌, ◌%◌, [], ◌∷◌, MatchResult};
ghost use Rattle.sg_words.specs.Address.{word_at};
ghost use Rattle.sg_words.specs.declared.steps.Place.TheVariants.{Word, Card, Cell};
ghost use Rattle.sg_words.specs.declared.steps.Step.TheVariants.{Load, Store, Won, Lost};
ghost use Rattle.sg_words.specs.declared.steps.Call.TheVariants.{Loads, Stores, Swaps};

use sg_cells::BlockPort;
use sg_words::Addr;

/// What a copying worker uses beside the blocks: the words of the heap, the cards, and the offer cells. Each call is one step.
pub trait CopyPort: BlockPort {
    /// The word at this byte address.
    fn load(&mut self, a: u64) -> u64
        requires aligned { a % 8 ≡ 0 }
        requires may { Self.may self.old (Loads (Word (word_at a))) }
        ensures led { Self.leads self.old (Load (Word (word_at a)) result ∷ []) self.new }
        ensures seen { Self.sees self.old (Load (Word (word_at a)) result) };

    /// The word at this byte address becomes `w`.
    fn store(&mut self, a: u64, w: u64)
        requires aligned { a % 8 ≡ 0 }
        requires may { Self.may self.old (Stores (Word (word_at a)) w) }
        ensures led { Self.leads self.old (Store (Word (word_at a)) w ∷ []) self.new }
        ensures seen { Self.sees self.old (Store (Word (word_at a)) w) };

    /// This card becomes dirty.
    fn mark_card(&mut self, card: u32)
        requires may { Self.may self.old (Stores (Card card) 1) }
        ensures led { Self.leads self.old (Store (Card card) 1 ∷ []) self.new }
        ensures seen { Self.sees self.old (Store (Card card) 1) };

    /// The first word of the object at this byte address becomes `new` where it is `seen`; else it stays, and the error is the word found.
    fn swap_first(&mut self, a: Addr, seen: u64, new: u64) -> Result<(), u64>
        requires may { Self.may self.old (Swaps (Word (word_at a)) seen new) }
        ensures led { MatchResult result (λ _. Self.leads self.old (Won (Word (word_at a)) seen new ∷ []) self.new)
            (λ found. Self.leads self.old (Lost (Word (word_at a)) seen new found ∷ []) self.new) }
        ensures seen { MatchResult result (λ _. Self.sees self.old (Won (Word (word_at a)) seen new))
            (λ found. Self.sees self.old (Lost (Word (word_at a)) seen new found)) };

    /// What this offer cell holds: 0, or the word of an item.
    fn cell(&mut self, c: u32) -> u64
        requires may { Self.may self.old (Loads (Cell c)) }
        ensures led { Self.leads self.old (Load (Cell c) result ∷ []) self.new }
        ensures seen { Self.sees self.old (Load (Cell c) result) };

    /// That becomes `new` where it is `seen`; else it stays, and the error is what the cell holds.
    fn swap_cell(&mut self, c: u32, seen: u64, new: u64) -> Result<(), u64>
        requires may { Self.may self.old (Swaps (Cell c) seen new) }
        ensures led { MatchResult result (λ _. Self.leads self.old (Won (Cell c) seen new ∷ []) self.new)
            (λ found. Self.leads self.old (Lost (Cell c) seen new found ∷ []) self.new) }
        ensures seen { MatchResult result (λ _. Self.sees self.old (Won (Cell c) seen new)) (λ found. Self.sees self.old (Lost (Cell c) seen new found)) };
}
