ghost use Rattle.std.specs.Prelude.{◌≡◌, ◌≢◌, ℕ, ◌+◌, ◌%◌, ◌<◌, ◌≤◌, ◌↔◌, true, List, [], ◌∷◌, ◌++◌, MatchResult};
ghost use Rattle.sg_words.specs.Address.{byte_at, word_at};
ghost use Rattle.sg_words.specs.declared.steps.Place.TheVariants.{Stop, Next, Word, Card, Head};
ghost use Rattle.sg_words.specs.declared.steps.Step.{Step};
ghost use Rattle.sg_words.specs.declared.steps.Step.TheVariants.{Load, Store, Won, Lost, OnBlock};
ghost use Rattle.sg_words.specs.declared.steps.BlockStep.TheVariants.{LoadBlock, WonBlock, LostBlock, StoreBlock, LoadUsed, OrUsed, StoreUsed};
ghost use Rattle.sg_words.specs.declared.steps.Call.{Call};
ghost use Rattle.sg_words.specs.declared.steps.Call.TheVariants.{Loads, Stores, Swaps, OnBlocks};
ghost use Rattle.sg_words.specs.declared.steps.BlockCall.TheVariants.{LoadsBlock, SwapsBlock, StoresBlock, LoadsUsed, OrsUsed, StoresUsed};
ghost use Rattle.sg_words.specs.Blocks.{IsSizeClass, slots, slot_from};
ghost use Rattle.sg_words.specs.Sweeps.{zero_steps};
ghost use Rattle.sg_cells.specs.Allowed.{MayMake};
ghost use Rattle.sg_cells.specs.Made.{Makes};
ghost use Rattle.sg_cells.specs.Passing.{PassBlocks};

use sg_words::BlockWord;

/// What ports have in common; it has no calls.
pub trait Port {
    /// These steps, in this order, lead from one state of the port to another.
    ghost leads: { Self → List Step → Self → Type 0 };

    /// The port lets its actor make this call.
    ghost may: { Self → Call → Type 0 };

    /// The port's actor may make this step, with what it saw.
    ghost sees: { Self → Step → Type 0 };

    ghost stays: { (p : Self) → leads p [] p };

    ghost chains: { (p q r : Self) (es fs : List Step) → leads p es q → leads q fs r → leads p (es ++ fs) r };
}

/// The words of the heap, the head of the ready row, the cards, and the word that asks for a stop. Each call is one step.
pub trait WordPort: Port {
    /// The word at this byte address.
    fn load(&mut self, a: u64) -> u64
        requires aligned { a % 8 ≡ 0 }
        requires may { Self.may self.old (Loads (Word (word_at a))) }
        ensures led { Self.leads self.old (Load (Word (word_at a)) result ∷ []) self.new }
        ensures seen { Self.sees self.old (Load (Word (word_at a)) result) };

    /// The word at this byte address becomes `w`.
    fn store(&mut self, a: u64, w: u64)
        requires aligned { a % 8 ≡ 0 }
        requires may { Self.may self.old (Stores (Word (word_at a)) w) }
        ensures led { Self.leads self.old (Store (Word (word_at a)) w ∷ []) self.new }
        ensures seen { Self.sees self.old (Store (Word (word_at a)) w) };

    /// How many entries of the ready row were taken.
    fn head(&mut self) -> u64
        requires may { Self.may self.old (Loads Head) }
        ensures led { Self.leads self.old (Load Head result ∷ []) self.new }
        ensures seen { Self.sees self.old (Load Head result) };

    /// That number becomes `new` where it is `seen`; else it stays, and the error is the number found.
    fn swap_head(&mut self, seen: u64, new: u64) -> Result<(), u64>
        requires may { Self.may self.old (Swaps Head seen new) }
        ensures led { MatchResult result (λ _. Self.leads self.old (Won Head seen new ∷ []) self.new)
            (λ found. Self.leads self.old (Lost Head seen new found ∷ []) self.new) }
        ensures seen { MatchResult result (λ _. Self.sees self.old (Won Head seen new)) (λ found. Self.sees self.old (Lost Head seen new found)) };

    /// Whether the mutators are asked to stop.
    fn stop(&mut self) -> bool
        requires may { Self.may self.old (Loads Stop) }
        ensures { (saw : ℕ) × ((result ≡ true) ↔ (saw ≢ 0)) × Self.leads self.old (Load Stop saw ∷ []) self.new × Self.sees self.old (Load Stop saw) };

    /// Asks the mutators to stop.
    fn set_stop(&mut self)
        requires may { Self.may self.old (Stores Stop 1) }
        ensures led { Self.leads self.old (Store Stop 1 ∷ []) self.new }
        ensures seen { Self.sees self.old (Store Stop 1) };

    /// This card becomes dirty.
    fn mark_card(&mut self, card: u32)
        requires may { Self.may self.old (Stores (Card card) 1) }
        ensures led { Self.leads self.old (Store (Card card) 1 ∷ []) self.new }
        ensures seen { Self.sees self.old (Store (Card card) 1) };
}

/// The fragments of the nursery, by number. A next word and an end are byte addresses.
pub trait FragPort: Port {
    /// How many fragments there are, and before which word each ends: no step changes them.
    ghost fragments: { Self → ℕ };

    ghost limit: { Self → ℕ → ℕ };

    /// How many fragments there are. No step.
    fn fragments(&self) -> u32
        ensures { result ≡ Self.fragments self.now };

    /// The byte address behind the last word of this fragment. No step.
    fn end(&self, f: u32) -> u64
        requires { f < Self.fragments self.now }
        ensures { result ≡ byte_at (Self.limit self.now f) };

    /// The next word of this fragment: one load.
    fn next(&mut self, f: u32) -> u64
        requires may { Self.may self.old (Loads (Next f)) }
        ensures led { Self.leads self.old (Load (Next f) result ∷ []) self.new }
        ensures seen { Self.sees self.old (Load (Next f) result) };

    /// The next word of this fragment becomes `new` where it is `seen`; else it stays, and the error is the word found. One
    /// exchange.
    fn swap_next(&mut self, f: u32, seen: u64, new: u64) -> Result<(), u64>
        requires may { Self.may self.old (Swaps (Next f) seen new) }
        ensures led { MatchResult result (λ _. Self.leads self.old (Won (Next f) seen new ∷ []) self.new)
            (λ found. Self.leads self.old (Lost (Next f) seen new found ∷ []) self.new) }
        ensures seen { MatchResult result (λ _. Self.sees self.old (Won (Next f) seen new)) (λ found. Self.sees self.old (Lost (Next f) seen new found)) };

    /// No step changes how many fragments there are, nor where they end.
    ghost fixed: { (p q : Self) (es : List Step) → Self.Port.leads p es q → (fragments q ≡ fragments p) × (limit q ≡ limit p) };
}

/// The blocks of the major heap, by number: their words and their occupancies.
pub trait BlockPort: Port {
    /// How many blocks there are: no step changes it.
    ghost blocks: { Self → ℕ };

    /// How many blocks there are. No step.
    fn blocks(&self) -> u32
        ensures { result ≡ Self.blocks self.now };

    /// The word of this block: one load.
    fn block(&mut self, b: u32) -> BlockWord
        requires may { Self.may self.old (OnBlocks (LoadsBlock b)) }
        ensures led { Self.leads self.old (OnBlock (LoadBlock b result) ∷ []) self.new }
        ensures seen { Self.sees self.old (OnBlock (LoadBlock b result)) };

    /// The word of this block becomes `new` where it is `seen`; else it stays, and the error is the word found. One exchange.
    fn swap_block(&mut self, b: u32, seen: BlockWord, new: BlockWord) -> Result<(), BlockWord>
        requires may { Self.may self.old (OnBlocks (SwapsBlock b seen new)) }
        ensures led { MatchResult result (λ _. Self.leads self.old (OnBlock (WonBlock b seen new) ∷ []) self.new)
            (λ found. Self.leads self.old (OnBlock (LostBlock b seen new found) ∷ []) self.new) }
        ensures seen { MatchResult result (λ _. Self.sees self.old (OnBlock (WonBlock b seen new)))
            (λ found. Self.sees self.old (OnBlock (LostBlock b seen new found))) };

    /// The occupancy of this block, a bit for each slot: one load.
    fn used(&mut self, b: u32) -> u64
        requires may { Self.may self.old (OnBlocks (LoadsUsed b)) }
        ensures led { Self.leads self.old (OnBlock (LoadUsed b result) ∷ []) self.new }
        ensures seen { Self.sees self.old (OnBlock (LoadUsed b result)) };

    /// The bit of this slot of this block is set in the occupancy; the answer is the occupancy before. One fetch-or.
    fn take_slot(&mut self, b: u32, slot: u32) -> u64
        requires may { Self.may self.old (OnBlocks (OrsUsed b slot)) }
        ensures led { Self.leads self.old (OnBlock (OrUsed b slot result) ∷ []) self.new }
        ensures seen { Self.sees self.old (OnBlock (OrUsed b slot result)) };

    /// No step changes how many blocks there are.
    ghost fixed_blocks: { (p q : Self) (es : List Step) → Self.Port.leads p es q → blocks q ≡ blocks p };
}

/// The blocks of the major heap for who makes objects in them while some are owed: their marks, the stores of a sweep, and which
/// blocks a search passes over. Sizes are in words.
pub trait SweepPort: BlockPort {
    /// The marks of each block, and the first word of block 0: no step changes them.
    ghost marks: { Self → ℕ → ℕ };

    ghost heap: { Self → ℕ };

    /// The marks of this block, a bit for each slot. No step.
    fn marks(&self, b: u32) -> u64
        requires { b < Self.blocks self.now }
        ensures { result ≡ Self.marks self.now b };

    /// Passes over blocks from `from` on, in a search for a slot of `size` words, and answers where it came to: each block before that is
    /// seen to be swept, and to have slots of another size or to be full. A load for each, and a second one where it has slots of this
    /// size; a port that knows what these loads would see need not make them one by one. The answer may be `from` itself.
    fn pass_over(&mut self, size: u32, from: u32) -> u32
        requires class { IsSizeClass size }
        requires there { from ≤ Self.blocks self.old }
        ensures within { result ≤ Self.blocks self.old }
        ensures passed { (n : ℕ) × (es : List Step) × (result ≡ from + n) × PassBlocks size from n es × Makes Self.leads Self.sees self.old es self.new };

    /// The occupancy of this block becomes `mask`: one store.
    fn set_used(&mut self, b: u32, mask: u64)
        requires may { Self.may self.old (OnBlocks (StoresUsed b mask)) }
        ensures led { Self.leads self.old (OnBlock (StoreUsed b mask) ∷ []) self.new }
        ensures seen { Self.sees self.old (OnBlock (StoreUsed b mask)) };

    /// The words of this slot become zero, in order: one step for each.
    fn zero_slot(&mut self, b: u32, slot: u32, size: u32)
        requires there { b < Self.blocks self.old }
        requires class { IsSizeClass size }
        requires fits { slot < slots size }
        requires may { MayMake Self.leads Self.sees Self.may self.old (zero_steps (slot_from (Self.heap self.old) b size slot) size) }
        ensures { Makes Self.leads Self.sees self.old (zero_steps (slot_from (Self.heap self.old) b size slot) size) self.new };

    /// The word of this block becomes `word`: one store.
    fn set_block(&mut self, b: u32, word: BlockWord)
        requires may { Self.may self.old (OnBlocks (StoresBlock b word)) }
        ensures led { Self.leads self.old (OnBlock (StoreBlock b word) ∷ []) self.new }
        ensures seen { Self.sees self.old (OnBlock (StoreBlock b word)) };

    /// No step changes the marks of a block, nor where block 0 begins.
    ghost fixed_sweep: { (p q : Self) (es : List Step) → Self.Port.leads p es q → (marks q ≡ marks p) × (heap q ≡ heap p) };
}
