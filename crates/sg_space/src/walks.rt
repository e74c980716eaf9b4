ghost use Rattle.std.specs.Prelude.{◌≡◌, ◌+◌, ◌<◌, ◌≤◌, ◌^◌, IfOk, IfSome, MatchOption, Option, ℕ, length};
ghost use Rattle.sg_words.specs.Address.{word_at};
ghost use Rattle.sg_words.specs.Sections.{nursery_base, old_base, large_base, globals_base, words_end, IsYoung, IsOld};
ghost use Rattle.sg_words.specs.Blocks.{IsOf, is_taken, block_base};
ghost use Rattle.std.specs.Int.{bit_at};
ghost use Rattle.sg_space.specs.Space.{IsContents};
ghost use Rattle.sg_space.specs.Standing.{word, size_at, block_in, used_in, marks_in, page_base, IsSoundBy, IsSound, IsToldOf, TellsYoung, IsClearAt, IsFree};
ghost use Rattle.sg_space.specs.Standing.{AreFree, IsFront, IsNoFront, TellsAt, HoldsWord, HasByte};

use crate::objects::Object;
use crate::space::Space;
use sg_words::{Addr, BLOCK_WORDS, BlockWord, FIRST_WORD, List, PAGE_WORDS};
use std::alloc::{AllocError, Global};

/// For how many objects a walk takes room at first.
const USUAL_OBJECTS: usize = 1024;

impl Space {
    /// The objects that stand in the nursery, by address. Linear in the objects, the fragments and the words that no object and no
    /// fragment's rest has.
    pub fn walk_nursery(&self, alloc: Global) -> Result<List<Object>, AllocError>
        requires { IsSound self.now }
        ensures { IfOk result (λ told. (owner : ℕ → Option ℕ) → IsSoundBy self.now owner → TellsYoung self.now owner told) }
    {
        let end = self.layout().old_word();
        let mut told = Vec::with_capacity(alloc, USUAL_OBJECTS)?;
        let mut fragment = 0;
        let mut x = FIRST_WORD;
        while x < end {
            match self.object_from(x) {
                None => {
                    fragment = self.passed(fragment, x);
                    x = self.free_end(fragment, x);
                }
                Some(object) => {
                    let words = object.words as u64;
                    told.push(object)?;
                    x += words;
                }
            }
        }
        Ok(List::from_vec(told))
    }

    /// The standing object that begins at this byte address; `None` exactly where none does. Takes no memory. Constant for an old or a large
    /// object; linear in the nursery below a young one.
    pub fn object_at(&self, a: Addr) -> Option<Object>
        requires { IsSound self.now }
        ensures { MatchOption result (IsNoFront self.now (word_at a)) (TellsAt self.now (word_at a)) }
    {
        match self.holder(a.get()) {
            Some(object) => { if object.at == a { Some(object) } else { None } }
            None => None,
        }
    }

    /// The byte address of the standing object that has the byte `v`, be it the object's first byte, its last one or one
    /// between; `None` exactly where no object has it. Takes no memory. Constant for a byte of the blocks or of the pages; linear in the
    /// nursery below the byte for one of the nursery.
    pub fn containing(&self, v: u64) -> Option<Addr>
        requires { IsSound self.now }
        ensures { MatchOption result (IsFree self.now (word_at v)) (HasByte self.now v) }
    {
        match self.holder(v) {
            Some(object) => Some(object.at),
            None => None,
        }
    }

    /// The standing object that has the byte `v`; `None` exactly where none has it.
    fn holder(&self, v: u64) -> Option<Object>
        requires { IsSound self.now }
        ensures { MatchOption result (IsFree self.now (word_at v)) (HoldsWord self.now (word_at v)) }
    {
        let layout = self.layout();
        let word = v / 8;
        if word < FIRST_WORD {
            None
        } else if word < layout.old_word() {
            self.find(word)
        } else if word < layout.large_word() {
            self.in_blocks(word)
        } else if word < layout.globals_word() {
            self.in_pages(word)
        } else {
            None
        }
    }

    /// The standing object of the nursery that has the word `word`; `None` exactly where none has it.
    fn find(&self, word: u64) -> Option<Object>
        requires sound { IsSound self.now }
        requires contents { IsContents self.now }
        requires young { IsYoung self.now.layout word }
        ensures { MatchOption result (IsFree self.now word) (HoldsWord self.now word) }
    {
        let mut x = FIRST_WORD;
        while x <= word {
            match self.object_from(x) {
                None => x += 1,
                Some(object) => {
                    let words = object.words as u64;
                    if word - x < words {
                        return Some(object);
                    }
                    x += words;
                }
            }
        }
        None
    }

    /// The standing object that begins at the word `x` of the nursery; `None` where no object has that word.
    fn object_from(&self, x: u64) -> Option<Object>
        requires sound { IsSound self.now }
        requires contents { IsContents self.now }
        requires clear { IsClearAt self.now x }
        requires young { IsYoung self.now.layout x }
        ensures told { MatchOption result (IsFree self.now x) (TellsAt self.now x) }
        ensures small { IfSome result (λ object. (2 ≤ object.words) × (x + object.words ≤ old_base self.now.layout)) }
    {
        if self.word(x) == 0 {
            None
        } else {
            Some(self.read_object(x))
        }
    }

    /// The standing object that has the word `x` of the blocks; `None` exactly where none has it.
    fn in_blocks(&self, x: u64) -> Option<Object>
        requires sound { IsSound self.now }
        requires contents { IsContents self.now }
        requires old { IsOld self.now.layout x }
        ensures { MatchOption result (IsFree self.now x) (HoldsWord self.now x) }
    {
        let block = ((x - self.layout().old_word()) / BLOCK_WORDS) as u32;
        match self.block(block) {
            BlockWord::Free => None,
            BlockWord::Swept { size } => self.in_slot(block, size, self.used(block), x),
            BlockWord::Need { size } => self.in_slot(block, size, self.marks(block), x),
            BlockWord::Sweeping { size } => self.in_slot(block, size, self.marks(block), x),
        }
    }

    /// The standing object that has the word `x` of this block, whose slots have `size` words, and the bits of whose slots are those of
    /// `mask`; `None` exactly where none has it.
    fn in_slot(&self, block: u32, size: u32, mask: u64, x: u64) -> Option<Object>
        requires sound { IsSound self.now }
        requires contents { IsContents self.now }
        requires there { block < self.now.layout.blocks }
        requires sized { IsOf (block_in self.now block) size }
        requires mask { (i : ℕ) → bit_at mask i ≡ is_taken (block_in self.now block) (used_in self.now block) (marks_in self.now block) i }
        requires from { block_base self.now.layout block ≤ x }
        requires to { x < block_base self.now.layout block + 256 }
        ensures { MatchOption result (IsFree self.now x) (HoldsWord self.now x) }
    {
        let base = self.layout().old_word() + BLOCK_WORDS * block as u64;
        let slot = (x - base) / size as u64;
        if (mask >> slot) & 1 == 0 {
            None
        } else {
            self.reaching(base + size as u64 * slot, x)
        }
    }

    /// The standing object that has the word `x` of the pages; `None` exactly where none has it.
    fn in_pages(&self, x: u64) -> Option<Object>
        requires sound { IsSound self.now }
        requires contents { IsContents self.now }
        requires from { large_base self.now.layout ≤ x }
        requires to { x < globals_base self.now.layout }
        ensures { MatchOption result (IsFree self.now x) (HoldsWord self.now x) }
    {
        let base = self.layout().large_word();
        let first = self.page(((x - base) / PAGE_WORDS) as u32);
        if first == 0 {
            None
        } else {
            self.reaching(base + PAGE_WORDS * (first - 1), x)
        }
    }

    /// The object whose first word is `h`, where it has the word `x`; `None` where it ends at that word or below.
    fn reaching(&self, h: u64, x: u64) -> Option<Object>
        requires sound { IsSound self.now }
        requires contents { IsContents self.now }
        requires front { IsFront self.now h }
        requires above { h ≤ x }
        ensures { MatchOption result (h + size_at self.now h ≤ x) (HoldsWord self.now x) }
    {
        let object = self.read_object(h);
        if x - h < object.words as u64 {
            Some(object)
        } else {
            None
        }
    }

    /// The object whose first word is `x`.
    fn read_object(&self, x: u64) -> Object
        requires sound { IsSound self.now }
        requires contents { IsContents self.now }
        requires front { IsFront self.now x }
        ensures { TellsAt self.now x result }
    {
        let fields = self.word(x + 1) as u32;
        Object {
            at: Addr::at_word(x),
            class: (self.word(x) / 8 - 1) as u16,
            fields,
            words: fields + 2,
        }
    }

    /// The word with this number.
    fn word(&self, number: u64) -> u64
        requires { number < words_end self.now.layout }
        ensures { result ≡ word self.now number }
    {
        self.words[number as usize]
    }

    /// How many of the fragments from `from` on, in order, end at the word `x` or below it, together with those before `from`.
    fn passed(&self, from: usize, x: u64) -> usize
        requires number { x < 2 ^ 40 }
        requires from { from ≤ length self.now.ends }
        ensures { result ≤ length self.now.ends }
    {
        for f in from..self.ends.len() {
            if 8 * x < self.ends[f] {
                return f;
            }
        }
        self.ends.len()
    }

    /// Where a walk goes on behind the word `x`, which no object has: behind the rest of this fragment where the word is in it,
    /// and else at the next word.
    fn free_end(&self, fragment: usize, x: u64) -> u64
        requires sound { IsSound self.now }
        requires free { IsFree self.now x }
        requires section { IsYoung self.now.layout x }
        ensures behind { x < result }
        ensures within { result ≤ old_base self.now.layout }
        ensures free { AreFree self.now x result }
    {
        if fragment < self.ends.len()
            && self.next[fragment] <= 8 * x
            && 8 * x < self.ends[fragment]
        {
            self.ends[fragment] / 8
        } else {
            x + 1
        }
    }
}
