use sg_desc::Shape;
use sg_words::{Addr, BlockWord, FIRST_WORD, Layout, Piece};
use std::alloc::{AllocError, Global};
use std::marker::Model;

/// The most fragments that a space has room for.
const FRAGMENTS: usize = 2048;

/// The most registrations that a space has room for.
const REGISTRATIONS: usize = 1024;

/// The words of a simulated address space, and what stands beside them: the layout, the shapes of the classes, the
/// fragments of the nursery, the word that asks the mutators to stop, the words, occupancies and marks of the blocks, the cards,
/// the words of the pages, the head and the length of the ready row, the registrations and the pairs.
#[derive(Drop)]
pub struct Space {
    pub(crate) layout: Layout,
    pub(crate) shapes: Vec<Shape>,
    pub(crate) words: Vec<u64>,
    pub(crate) next: Vec<u64>,
    pub(crate) ends: Vec<u64>,
    pub(crate) stop: u64,
    pub(crate) blocks: Vec<BlockWord>,
    pub(crate) used: Vec<u64>,
    pub(crate) marks: Vec<u64>,
    // So many blocks from 0 on are swept, with slots of another size than `passed_size` or with all of their slots of that size occupied.
    pub(crate) passed_size: u32,
    pub(crate) passed: u32,
    pub(crate) cards: Vec<u8>,
    // Each card below the first and from the second on is clean.
    pub(crate) dirty_from: u32,
    pub(crate) dirty_to: u32,
    pub(crate) pages: Vec<u64>,
    pub(crate) head: u64,
    pub(crate) made: u32,
    pub(crate) registered: Vec<Addr>,
    pub(crate) pairs: Vec<Addr>,
}

impl Model for Space {
    ghost use Rattle.sg_space.specs.Space.{Contents};

    ghost Value = { Contents };

    ghost use Rattle.sg_space.specs.Inside.{contents_of, IsSpace};

    ghost view = { contents_of };

    ghost invariant = { IsSpace };
}

impl Space {
    ghost use Rattle.std.specs.Prelude.{◌≡◌, ◌≢◌, ◌+◌, ◌^◌, ◌<◌, ◌≤◌, ◌↔◌, IfOk, if◌then◌else◌, true, length, slice_get, slice_index, slice_set, Some, ℕ};
    ghost use Rattle.sg_words.specs.Address.{word_at};
    ghost use Rattle.sg_words.specs.Sections.{words_end, IsLayout, IsInSection};
    ghost use Rattle.sg_space.specs.Space.{Contents, AreShapes, IsContents, clear_space};
    ghost use Rattle.sg_words.specs.Pieces.{fronts_of, ends_of};
    ghost use Rattle.sg_space.specs.Standing.{IsSound, word};

    /// A space with no object: each word is 0, and the nursery is one fragment. Takes all the memory that the space ever
    /// needs, and time linear in its words.
    pub fn new(alloc: Global, layout: Layout, shapes: &[Shape]) -> Result<Space, AllocError>
        requires layout { IsLayout layout }
        requires shapes { AreShapes shapes.now }
        ensures clear { IfOk result (λ space. space ≡ clear_space layout shapes.now) }
        ensures sound { IfOk result IsSound }
        ensures contents { IfOk result IsContents }
    {
        let mut next = Vec::with_capacity(alloc, FRAGMENTS)?;
        let mut ends = Vec::with_capacity(alloc, FRAGMENTS)?;
        next.push(8 * FIRST_WORD)?;
        ends.push(layout.old_base())?;
        let blocks = layout.blocks as usize;
        let pages = layout.pages as usize;
        Ok(Space {
            layout,
            shapes: shapes.to_vec(alloc)?,
            words: vec![in alloc; 0; layout.end_word() as usize]?,
            next,
            ends,
            stop: 0,
            blocks: vec![in alloc; BlockWord::Free; blocks]?,
            used: vec![in alloc; 0; blocks]?,
            marks: vec![in alloc; 0; blocks]?,
            passed_size: 0,
            passed: 0,
            cards: vec![in alloc; 0; 4 * blocks + 2 * pages]?,
            dirty_from: 0,
            dirty_to: 0,
            pages: vec![in alloc; 0; pages]?,
            head: 0,
            made: 0,
            registered: Vec::with_capacity(alloc, REGISTRATIONS)?,
            pairs: Vec::new(alloc),
        })
    }

    /// The sizes of the sections.
    pub fn layout(&self) -> Layout
        ensures layout { result ≡ self.now.layout }
        ensures contents { IsContents self.now }
    {
        self.layout
    }

    /// The shape of the objects of this class.
    pub fn shape(&self, class: u16) -> Shape
        requires { class < length self.now.shapes }
        ensures { slice_get self.now.shapes class ≡ Some result }
    {
        self.shapes[class as usize]
    }

    /// The shapes of the classes.
    pub fn shapes(&self) -> &[Shape]
        ensures { result.now ≡ self.now.shapes }
    {
        self.shapes.as_slice()
    }

    /// The word at this byte address.
    #[inline]
    pub fn read(&self, a: Addr) -> u64
        requires { IsInSection self.now.layout (word_at a) }
        ensures value { result ≡ word self.now (word_at a) }
        ensures contents { IsContents self.now }
    {
        self.words[a.word() as usize]
    }

    /// The word at this byte address becomes `w`.
    #[inline]
    pub fn write(&mut self, a: Addr, w: u64)
        requires { IsInSection self.old.layout (word_at a) }
        ensures { self.new ≡ record self.old { words = slice_set self.old.words (word_at a) w } }
    {
        self.words[a.word() as usize] = w;
    }

    /// This many words from this byte address on become zero. Linear in them.
    pub fn clear(&mut self, a: Addr, words: u64)
        requires { word_at a + words ≤ words_end self.old.layout }
        ensures zero { (y : ℕ) → word_at a ≤ y → y < word_at a + words → word self.new y ≡ 0 }
        ensures others { (y : ℕ) → (word_at a ≤ y → y < word_at a + words → ⊥) → word self.new y ≡ word self.old y }
        ensures still { self.new ≡ record self.old { words = self.new.words } }
        ensures length { length self.new.words ≡ length self.old.words }
    {
        let from = a.word() as usize;
        clear_words(&mut self.words, from, from + words as usize);
    }

    /// How many fragments there are, at most 2,048.
    pub fn fragments(&self) -> u32
        ensures value { result ≡ length self.now.ends }
        ensures contents { IsContents self.now }
    {
        self.ends.len() as u32
    }

    /// The next word of this fragment: the byte address of its first word that wasn't given away.
    pub fn next(&self, f: u32) -> u64
        requires { f < length self.now.ends }
        ensures { result ≡ slice_index self.now.next f }
    {
        self.next[f as usize]
    }

    /// The byte address behind this fragment's last word.
    pub fn end_of(&self, f: u32) -> u64
        requires { f < length self.now.ends }
        ensures { result ≡ slice_index self.now.ends f }
    {
        self.ends[f as usize]
    }

    /// The next word of this fragment becomes `next`, a byte address.
    pub fn set_next(&mut self, f: u32, next: u64)
        requires { f < length self.old.ends }
        ensures { self.new ≡ record self.old { next = slice_set self.old.next f next } }
    {
        self.next[f as usize] = next;
    }

    /// The fragments become those among these pieces, none of whose words was given away. Takes no memory, and time linear
    /// in the pieces.
    pub fn set_fragments(&mut self, pieces: &[Piece])
        requires { length (fronts_of pieces.now) ≤ 2048 }
        ensures set { self.new ≡ record self.old { next = fronts_of pieces.now; ends = ends_of pieces.now } }
        ensures contents { IsContents self.new }
    {
        put_fragments(&mut self.next, &mut self.ends, pieces);
    }

    /// Whether the mutators are asked to stop.
    pub fn stopping(&self) -> bool
        ensures { (result ≡ true) ↔ (self.now.stop ≢ 0) }
    {
        self.stop != 0
    }

    /// From now on the mutators are asked to stop, or are not.
    pub fn set_stopping(&mut self, on: bool)
        ensures { self.new ≡ record self.old { stop = if on then 1 else 0 } }
    {
        self.stop = if on { 1 } else { 0 };
    }
}

ghost use Rattle.std.specs.Prelude.{◌≡◌, ◌≤◌, length, vec_capacity};
ghost use Rattle.sg_words.specs.Pieces.{fronts_of, ends_of};

/// The fronts and the ends of the fragments among these pieces, in place of what the two vectors hold.
fn put_fragments(next: &mut Vec<u64>, ends: &mut Vec<u64>, pieces: &[Piece])
    requires fronts { length (fronts_of pieces.now) ≤ vec_capacity next.old }
    requires ends { length (fronts_of pieces.now) ≤ vec_capacity ends.old }
    ensures fronts { next.new.items ≡ fronts_of pieces.now }
    ensures ends { ends.new.items ≡ ends_of pieces.now }
    ensures same { length next.new.items ≡ length ends.new.items }
    ensures room { vec_capacity next.old ≤ vec_capacity next.new }
    ensures room_of_ends { vec_capacity ends.old ≤ vec_capacity ends.new }
{
    next.clear();
    ends.clear();
    for piece in pieces {
        if let Piece::Frag { at, words } = *piece {
            next.push(at.get()).unwrap();
            ends.push(at.get() + 8 * words as u64).unwrap();
        }
    }
}

ghost use Rattle.std.specs.Prelude.{ℕ, ◌<◌, slice_index};

/// The words from `from` to before `end` become zero.
fn clear_words(words: &mut [u64], from: usize, end: usize)
    requires order { from ≤ end }
    requires within { end ≤ length words.old }
    ensures zero { (y : ℕ) → from ≤ y → y < end → slice_index words.new y ≡ 0 }
    ensures others { (y : ℕ) → (from ≤ y → y < end → ⊥) → slice_index words.new y ≡ slice_index words.old y }
    ensures same { length words.new ≡ length words.old }
{
    words[from..end].fill(0);
}
