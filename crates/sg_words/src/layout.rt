ghost use Rattle.std.specs.Prelude.{◌≡◌, ◌+◌, ◌<◌};
ghost use Rattle.sg_words.specs.Address.{byte_at};

use crate::address::Addr;

/// The number of the nursery's first word. No word below it is ever given away: address 0 stands for no object.
pub const FIRST_WORD: u64 = 512;

/// The words of a block of the major heap.
pub const BLOCK_WORDS: u64 = 256;

/// The words of a page of the large space.
pub const PAGE_WORDS: u64 = 128;

/// How many globals there are.
pub const GLOBALS: u32 = 64;

/// How many entries the ready row has room for.
pub const READY_ENTRIES: u32 = 1024;

/// How many weak links there are.
pub const LINKS: u32 = 64;

/// The sizes of a space's sections: words of the nursery, blocks of 256 words, pages of 128 words. They stand one behind
/// another: the nursery, the major heap, the large space, the globals, the ready entries, the weak links.
#[derive(Clone, Copy, Debug, PartialEq, Eq)]
pub struct Layout {
    pub nursery: u32,
    pub blocks: u32,
    pub pages: u32,
}

impl Layout {
    ghost use Rattle.sg_words.specs.Sections.{old_base, large_base, globals_base, ready_base, links_base, words_end, IsLayout};

    /// The number of the major heap's first word, which is the one behind the nursery.
    pub fn old_word(&self) -> u64
        requires { IsLayout self.now }
        ensures { result ≡ old_base self.now }
    {
        FIRST_WORD + self.nursery as u64
    }

    /// The number of the large space's first word, which is the one behind the major heap.
    pub fn large_word(&self) -> u64
        requires { IsLayout self.now }
        ensures { result ≡ large_base self.now }
    {
        self.old_word() + BLOCK_WORDS * self.blocks as u64
    }

    /// The number of the first global's word, which is the one behind the large space.
    pub fn globals_word(&self) -> u64
        requires { IsLayout self.now }
        ensures { result ≡ globals_base self.now }
    {
        self.large_word() + PAGE_WORDS * self.pages as u64
    }

    /// The number of the word behind the last section.
    pub fn end_word(&self) -> u64
        requires { IsLayout self.now }
        ensures { result ≡ words_end self.now }
    {
        self.globals_word() + GLOBALS as u64 + READY_ENTRIES as u64 + LINKS as u64
    }

    /// The byte address of the major heap's first word.
    pub fn old_base(&self) -> u64
        requires { IsLayout self.now }
        ensures { result ≡ byte_at (old_base self.now) }
    {
        8 * self.old_word()
    }

    /// The byte address of the large space's first word.
    pub fn large_base(&self) -> u64
        requires { IsLayout self.now }
        ensures { result ≡ byte_at (large_base self.now) }
    {
        8 * self.large_word()
    }

    /// The byte address behind the last section.
    pub fn end(&self) -> u64
        requires { IsLayout self.now }
        ensures { result ≡ byte_at (words_end self.now) }
    {
        8 * self.end_word()
    }

    /// The byte address of a global. There are 64.
    pub fn global(&self, g: u32) -> Addr
        requires layout { IsLayout self.now }
        requires global { g < 64 }
        ensures { result ≡ byte_at (globals_base self.now + g) }
    {
        Addr::at_word(self.globals_word() + g as u64)
    }

    /// The byte address of a ready entry. There are 1,024.
    pub fn ready(&self, i: u32) -> Addr
        requires layout { IsLayout self.now }
        requires entry { i < 1024 }
        ensures { result ≡ byte_at (ready_base self.now + i) }
    {
        Addr::at_word(self.globals_word() + GLOBALS as u64 + i as u64)
    }

    /// The byte address of a weak link. There are 64.
    pub fn link(&self, w: u32) -> Addr
        requires layout { IsLayout self.now }
        requires link { w < 64 }
        ensures { result ≡ byte_at (links_base self.now + w) }
    {
        Addr::at_word(self.globals_word() + GLOBALS as u64 + READY_ENTRIES as u64 + w as u64)
    }
}
