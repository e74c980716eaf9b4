// The cards, the pages, the ready row, the registrations and the pairs.

ghost use Rattle.std.specs.Prelude.{◌≡◌, ◌+◌, ◌++◌, ◌∷◌, [], ◌<◌, ◌≤◌, ◌^◌, ◌⊎◌, ◌↔◌, true, false, ℕ, OnErr, OnOk, if◌then◌else◌, length, slice_index};
ghost use Rattle.std.specs.Prelude.{slice_set};
ghost use Rattle.std.specs.List.{remove};
ghost use Rattle.sg_words.specs.Sections.{ready_base};
ghost use Rattle.sg_space.specs.Space.{IsContents};

use crate::space::Space;
use sg_words::Addr;
use std::alloc::AllocError;

impl Space {
    /// Whether this card is dirty.
    #[inline]
    pub fn dirty(&self, card: u32) -> bool
        requires { card < length self.now.cards }
        ensures dirty { result ≡ true → slice_index self.now.cards card ≡ 1 }
        ensures clean { result ≡ false → slice_index self.now.cards card ≡ 0 }
    {
        self.cards[card as usize] != 0
    }

    /// This card becomes dirty, or clean.
    #[inline]
    pub fn set_dirty(&mut self, card: u32, on: bool)
        requires { card < length self.old.cards }
        ensures { self.new ≡ record self.old { cards = slice_set self.old.cards card (if on then 1 else 0) } }
    {
        if on {
            self.cards[card as usize] = 1;
            self.dirty_from = self.dirty_from.min(card);
            self.dirty_to = self.dirty_to.max(card + 1);
        } else {
            self.cards[card as usize] = 0;
        }
    }

    /// The first card, and the one behind the last card, of a range outside of which every card is clean.
    pub fn dirty_range(&self) -> (u32, u32)
        ensures order { result.0 ≤ result.1 }
        ensures within { result.1 ≤ length self.now.cards }
        ensures clean { (c : ℕ) → (c < result.0) ⊎ (result.1 ≤ c) → slice_index self.now.cards c ≡ 0 }
    {
        if self.dirty_from < self.dirty_to {
            (self.dirty_from, self.dirty_to)
        } else {
            (0, 0)
        }
    }

    /// Makes the range that `dirty_range` tells as small as it can be. Linear in the range.
    pub fn narrow_dirty(&mut self)
        ensures { self.new ≡ self.old }
    {
        let (from, to) = self.dirty_range();
        self.dirty_from = first_dirty(&self.cards, from as usize, to as usize) as u32;
        self.dirty_to = last_dirty(&self.cards, from as usize, to as usize) as u32;
    }

    /// The word of this page: 0 where it is free, and else 1 and the number of its object's first page.
    #[inline]
    pub fn page(&self, p: u32) -> u64
        requires { p < length self.now.pages }
        ensures { result ≡ slice_index self.now.pages p }
    {
        self.pages[p as usize]
    }

    /// The word of this page becomes `word`.
    pub fn set_page(&mut self, p: u32, word: u64)
        requires { p < length self.old.pages }
        ensures { self.new ≡ record self.old { pages = slice_set self.old.pages p word } }
    {
        self.pages[p as usize] = word;
    }

    /// How many objects are registered, at most 1,024.
    pub fn registrations(&self) -> u32
        ensures value { result ≡ length self.now.registered }
        ensures contents { IsContents self.now }
    {
        self.registered.len() as u32
    }

    /// The byte address of this registered object.
    pub fn registration(&self, i: u32) -> Addr
        requires { i < length self.now.registered }
        ensures { result ≡ slice_index self.now.registered i }
    {
        self.registered[i as usize]
    }

    /// This registration becomes that of the object at this byte address.
    pub fn set_registration(&mut self, i: u32, a: Addr)
        requires { i < length self.old.registered }
        ensures { self.new ≡ record self.old { registered = slice_set self.old.registered i a } }
    {
        self.registered[i as usize] = a;
    }

    /// One more object is registered, behind the others. Takes no memory.
    pub fn add_registration(&mut self, a: Addr)
        requires { length self.old.registered < 1024 }
        ensures { self.new ≡ record self.old { registered = self.old.registered ++ a ∷ [] } }
    {
        self.registered.push_reserved(a);
    }

    /// This registration goes; the others keep their order. Linear in those behind it.
    pub fn drop_registration(&mut self, i: u32)
        requires { i < length self.old.registered }
        ensures { self.new ≡ record self.old { registered = remove self.old.registered i } }
    {
        let _ = self.registered.remove(i as usize);
    }

    /// How many entries of the ready row were taken.
    #[inline]
    pub fn head(&self) -> u64
        ensures { result ≡ self.now.head }
    {
        self.head
    }

    /// So many entries of the ready row were taken now.
    #[inline]
    pub fn set_head(&mut self, head: u64)
        ensures { self.new ≡ record self.old { head = head } }
    {
        self.head = head;
    }

    /// How many entries of the ready row were made, those that were taken included; at most 1,024.
    pub fn ready_count(&self) -> u32
        ensures value { result ≡ self.now.made }
        ensures contents { IsContents self.now }
    {
        self.made
    }

    /// The object at this byte address becomes the next entry of the ready row.
    pub fn add_ready(&mut self, a: Addr)
        requires { self.old.made < 1024 }
        ensures { self.new ≡ record self.old { words = slice_set self.old.words (ready_base self.old.layout + self.old.made) a; made = self.old.made + 1 } }
    {
        let at = self.layout.ready(self.made).word();
        self.words[at as usize] = a.get();
        self.made += 1;
    }

    /// How many pairs there are.
    pub fn pairs(&self) -> u32
        requires { length self.now.pairs < 2 ^ 32 }
        ensures { result ≡ length self.now.pairs }
    {
        self.pairs.len() as u32
    }

    /// The byte address of this pair.
    pub fn pair(&self, i: u32) -> Addr
        requires { i < length self.now.pairs }
        ensures { result ≡ slice_index self.now.pairs i }
    {
        self.pairs[i as usize]
    }

    /// This pair becomes the one at this byte address.
    pub fn set_pair(&mut self, i: u32, a: Addr)
        requires { i < length self.old.pairs }
        ensures { self.new ≡ record self.old { pairs = slice_set self.old.pairs i a } }
    {
        self.pairs[i as usize] = a;
    }

    /// This pair goes; the others keep their order. Linear in those behind it.
    pub fn drop_pair(&mut self, i: u32)
        requires { i < length self.old.pairs }
        ensures { self.new ≡ record self.old { pairs = remove self.old.pairs i } }
    {
        let _ = self.pairs.remove(i as usize);
    }

    /// One more pair, behind the others. After a refusal nothing has changed.
    pub fn add_pair(&mut self, a: Addr) -> Result<(), AllocError>
        ensures ok { OnOk result (self.new ≡ record self.old { pairs = self.old.pairs ++ a ∷ [] }) }
        ensures err { OnErr result (self.new ≡ self.old) }
    {
        self.pairs.push(a)?;
        Ok(())
    }
}

/// The first card from `from` to before `to` that is dirty; `to` where none is.
fn first_dirty(cards: &[u8], from: usize, to: usize) -> usize
    requires order { from ≤ to }
    requires within { to ≤ length cards.now }
    ensures within { result ≤ to }
    ensures clean { (c : ℕ) → from ≤ c → c < result → slice_index cards.now c ≡ 0 }
{
    for card in from..to {
        if cards[card] != 0 {
            return card;
        }
    }
    to
}

/// The card behind the last one from `from` to before `to` that is dirty; `from` where none is.
fn last_dirty(cards: &[u8], from: usize, to: usize) -> usize
    requires order { from ≤ to }
    requires within { to ≤ length cards.now }
    ensures within { result ≤ to }
    ensures clean { (c : ℕ) → result ≤ c → c < to → slice_index cards.now c ≡ 0 }
{
    for card in (from..to).rev() {
        if cards[card] != 0 {
            return card + 1;
        }
    }
    from
}
