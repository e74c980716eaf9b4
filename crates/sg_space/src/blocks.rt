// The blocks of the major heap, and the marks of objects.

ghost use Rattle.std.specs.Prelude.{◌≡◌, ◌*◌, ◌+◌, ◌<◌, ◌≤◌, ◌↔◌, ◌^◌, Bool, true, ℕ, length, slice_index, slice_index_or, slice_set};
ghost use Rattle.sg_words.specs.Address.{word_at};
ghost use Rattle.sg_words.specs.declared.steps.BlockWord.TheVariants.{Free};
ghost use Rattle.sg_space.specs.Space.{IsContents};
ghost use Rattle.std.specs.Prelude.{MatchOption};
ghost use Rattle.std.specs.Int.{bit_at};
ghost use Rattle.std.specs.Int.Bits.{bit_or};
ghost use Rattle.sg_words.specs.Blocks.{IsOf, IsSizeClass, slots as slots_of};
ghost use Rattle.sg_space.specs.Passed.{IsPassed, IsPassedIn};
ghost use Rattle.sg_space.specs.Marks.{with_bit as with_bit_of, KeepsItself, IsSlotFront, HasMark, IsMarked, Marks};

use crate::space::Space;
use sg_words::{Addr, BLOCK_WORDS, BlockWord, first_clear};

/// The bit of an object's first word that is its mark where it is kept there.
const MARK_BIT: u32 = 63;

impl Space {
    /// The word of this block.
    #[inline]
    pub fn block(&self, b: u32) -> BlockWord
        requires { b < length self.now.blocks }
        ensures { result ≡ slice_index_or self.now.blocks b Free }
    {
        self.blocks[b as usize]
    }

    /// The word of this block becomes `word`.
    #[inline]
    pub fn set_block(&mut self, b: u32, word: BlockWord)
        requires { b < length self.old.blocks }
        ensures { self.new ≡ record self.old { blocks = slice_set self.old.blocks b word } }
    {
        self.passed = self.passed.min(b);
        self.blocks[b as usize] = word;
    }

    /// The occupancy of this block: a bit for each slot.
    #[inline]
    pub fn used(&self, b: u32) -> u64
        requires { b < length self.now.used }
        ensures { result ≡ slice_index self.now.used b }
    {
        self.used[b as usize]
    }

    /// The occupancy of this block becomes `mask`.
    #[inline]
    pub fn set_used(&mut self, b: u32, mask: u64)
        requires { b < length self.old.used }
        ensures { self.new ≡ record self.old { used = slice_set self.old.used b mask } }
    {
        self.passed = self.passed.min(b);
        self.used[b as usize] = mask;
    }

    /// The bit of this slot of this block is set in the occupancy; the answer is the occupancy before.
    #[inline]
    pub fn occupy(&mut self, b: u32, slot: u32) -> u64
        requires there { b < length self.old.used }
        requires bit { slot < 64 }
        ensures value { result ≡ slice_index self.old.used b }
        ensures set { self.new ≡ record self.old { used = slice_set self.old.used b (bit_or (slice_index self.old.used b) (2 ^ slot)) } }
    {
        let found = self.used[b as usize];
        self.used[b as usize] = found | (1 << slot);
        found
    }

    /// A block from `from` on, or their number, that a search for a slot of `size` words may look at next: each block before it is swept, with
    /// slots of another size or with all of its slots occupied. How far this was found so is kept for one size, up to the
    /// first block whose word or occupancy was set anew: so each block is looked at once in many searches for one size.
    pub fn pass_over(&mut self, size: u32, from: u32) -> u32
        requires class { IsSizeClass size }
        requires from { from ≤ length self.old.blocks }
        ensures from { from ≤ result }
        ensures within { result ≤ length self.old.blocks }
        ensures passed { (c : ℕ) → from ≤ c → c < result → IsPassedIn self.old size c }
        ensures same { self.new ≡ self.old }
    {
        let first = self.passed_before(size);
        let at = self.passed_from(size, 256 / size, first);
        self.passed_size = size;
        self.passed = at;
        if at < from {
            return from;
        }
        at
    }

    /// So many blocks from 0 on are known to be passed over in a search for a slot of `size` words.
    fn passed_before(&self, size: u32) -> u32
        ensures within { result ≤ length self.now.blocks }
        ensures passed { (c : ℕ) → c < result → IsPassedIn self.now size c }
    {
        if self.passed_size == size {
            self.passed
        } else {
            0
        }
    }

    /// The first block from `from` on that isn't passed, with slots of `size` words, of which a block has `slots`.
    fn passed_from(&self, size: u32, slots: u32, from: u32) -> u32
        requires few { slots ≤ 64 }
        requires slots { slots ≡ slots_of size }
        requires from { from ≤ length self.now.blocks }
        ensures from { from ≤ result }
        ensures within { result ≤ length self.now.blocks }
        ensures passed { (c : ℕ) → from ≤ c → c < result → IsPassedIn self.now size c }
    {
        let blocks = self.layout().blocks;
        for at in from..blocks {
            if !is_passed(self.block(at), self.used(at), size, slots) {
                return at;
            }
        }
        blocks
    }

    /// The marks of this block: a bit for each slot.
    #[inline]
    pub fn marks(&self, b: u32) -> u64
        requires { b < length self.now.marks }
        ensures { result ≡ slice_index self.now.marks b }
    {
        self.marks[b as usize]
    }

    /// Whether the object at this byte address is marked. The mark of an old object is its slot's bit among the marks of its block; that of
    /// a young or a large one is the top bit of its first word.
    pub fn marked(&self, a: Addr) -> bool
        requires { HasMark self.now (word_at a) }
        ensures { (result ≡ true) ↔ IsMarked self.now (word_at a) }
    {
        match self.slot_of(a.word()) {
            Some((block, slot)) => has_bit(self.marks(block), slot),
            None => has_bit(self.read(a), MARK_BIT),
        }
    }

    /// The object at this byte address is marked from now on, or isn't. Its mark is kept as `marked` says; while a young or a large object is
    /// marked, its first word is no tag.
    pub fn set_marked(&mut self, a: Addr, on: bool)
        requires { HasMark self.old (word_at a) }
        ensures { Marks self.old (word_at a) on self.new }
    {
        match self.slot_of(a.word()) {
            Some((block, slot)) => self.set_marks(block, with_bit(self.marks(block), slot, on)),
            None => self.write(a, with_bit(self.read(a), MARK_BIT, on)),
        }
    }

    /// No slot of this block is marked from now on.
    pub fn clear_marks(&mut self, b: u32)
        requires { b < length self.old.marks }
        ensures { self.new ≡ record self.old { marks = slice_set self.old.marks b 0 } }
    {
        self.set_marks(b, 0);
    }

    /// The marks of this block become `mask`.
    fn set_marks(&mut self, b: u32, mask: u64)
        requires { b < length self.old.marks }
        ensures { self.new ≡ record self.old { marks = slice_set self.old.marks b mask } }
    {
        self.marks[b as usize] = mask;
    }

    /// The block and the slot of the object whose first word is `x`; `None` exactly where it lies in no block.
    fn slot_of(&self, x: u64) -> Option<(u32, u32)>
        requires { HasMark self.now x }
        ensures place { MatchOption result (KeepsItself self.now.layout x) (λ place. (z : ℕ) × IsSlotFront self.now place.0 z place.1 x) }
        ensures contents { IsContents self.now }
    {
        let old = self.layout.old_word();
        if x < old || self.layout.large_word() <= x {
            return None;
        }
        let block = ((x - old) / BLOCK_WORDS) as u32;
        let at = (x - old) % BLOCK_WORDS;
        match size_in(self.blocks[block as usize]) {
            Some(size) => Some((block, (at / size as u64) as u32)),
            None => None,
        }
    }
}

/// The words of the slots of a block with this word; `None` where it is free.
fn size_in(word: BlockWord) -> Option<u32>
    ensures { MatchOption result (word ≡ Free) (IsOf word) }
{
    match word {
        BlockWord::Free => None,
        BlockWord::Swept { size } => Some(size),
        BlockWord::Need { size } => Some(size),
        BlockWord::Sweeping { size } => Some(size),
    }
}

/// Whether a block with this word and this occupancy is swept, with slots of another size or with these first `slots` ones all occupied.
#[inline]
fn is_passed(word: BlockWord, used: u64, size: u32, slots: u32) -> bool
    requires few { slots ≤ 64 }
    requires of { slots ≡ slots_of size }
    ensures { result ≡ true → IsPassed word used size }
{
    let BlockWord::Swept { size: found } = word else {
        return false;
    };
    if found != size {
        return true;
    }
    first_clear(used, slots).is_none()
}

/// Whether this bit of the mask is set.
fn has_bit(mask: u64, bit: u32) -> bool
    requires { bit < 64 }
    ensures { (result ≡ true) ↔ (bit_at mask bit ≡ 1) }
{
    (mask >> bit) & 1 == 1
}

/// The mask with this bit, or without it.
fn with_bit(mask: u64, bit: u32, on: bool) -> u64
    requires { bit < 64 }
    ensures { result ≡ with_bit_of on mask bit }
{
    if on {
        mask | (1 << bit)
    } else if has_bit(mask, bit) {
        mask - (1 << bit)
    } else {
        mask
    }
}
