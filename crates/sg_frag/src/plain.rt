ghost use Rattle.std.specs.Prelude.{◌≡◌, length};
ghost use Rattle.std.proofs.Common.{refl, ◌∙◌};
ghost use Rattle.sg_words.specs.Words.{Saw};
ghost use Rattle.sg_space.specs.Space.{words_of};
ghost use Rattle.sg_frag.specs.Plain.{Led, MayCall};
ghost use Rattle.sg_words.specs.Sections.{old_base};
ghost use Rattle.sg_frag.specs.Leading.{led_none, led_chain, led_fixed, blocks_fixed, sweep_fixed, limit_of, marks_of};

use sg_cells::{BlockPort, FragPort, Port, SweepPort, WordPort};
use sg_space::Space;
use sg_words::{Addr, BLOCK_WORDS, BlockWord};

/// A port over a lent space: each call is done at once, on the space.
#[derive(Drop)]
pub struct PlainPort<'a> {
    space: &'a mut Space,
}

impl<'a> PlainPort<'a> {
    /// The port over this space, which is the space again once the port is gone.
    pub fn new(space: &'a mut Space) -> PlainPort<'a>
        ensures same { result.space.ghost_name ≡ space.entry.ghost_name }
        ensures now { result.space.now ≡ space.old }
    {
        PlainPort { space }
    }
}

impl<'a> Port for PlainPort<'a> {
    ghost leads = { λ p es q. (q.space.ghost_name ≡ p.space.ghost_name) × Led p.space.now es q.space.now };

    ghost may = { λ p call. MayCall p.space.now call };

    ghost sees = { λ p s. Saw (words_of p.space.now) s };

    ghost stays = { λ p. (refl, led_none p.space.now) };

    ghost chains = { λ p q r es fs h k. (k.0 ∙ h.0, led_chain p.space.now q.space.now r.space.now es fs h.1 k.1) };
}

impl<'a> WordPort for PlainPort<'a> {
    fn load(&mut self, a: u64) -> u64 {
        self.space.read(Addr::at_word(a / 8))
    }

    fn store(&mut self, a: u64, w: u64) {
        self.space.write(Addr::at_word(a / 8), w);
    }

    fn head(&mut self) -> u64 {
        self.space.head()
    }

    fn swap_head(&mut self, seen: u64, new: u64) -> Result<(), u64> {
        let found = self.space.head();
        if found != seen {
            return Err(found);
        }
        self.space.set_head(new);
        Ok(())
    }

    fn stop(&mut self) -> bool {
        self.space.stopping()
    }

    fn set_stop(&mut self) {
        self.space.set_stopping(true);
    }

    fn mark_card(&mut self, card: u32) {
        self.space.set_dirty(card, true);
    }
}

impl<'a> FragPort for PlainPort<'a> {
    ghost fragments = { λ p. length p.space.now.ends };

    ghost limit = { λ p. limit_of p.space.now.ends };

    ghost fixed = { λ p q es h. led_fixed p.space.now q.space.now es h.1 };

    fn fragments(&self) -> u32 {
        self.space.fragments()
    }

    fn end(&self, f: u32) -> u64 {
        8 * (self.space.end_of(f) / 8)
    }

    fn next(&mut self, f: u32) -> u64 {
        self.space.next(f)
    }

    fn swap_next(&mut self, f: u32, seen: u64, new: u64) -> Result<(), u64> {
        let found = self.space.next(f);
        if found != seen {
            return Err(found);
        }
        self.space.set_next(f, new);
        Ok(())
    }
}

impl<'a> BlockPort for PlainPort<'a> {
    ghost blocks = { λ p. length p.space.now.blocks };

    ghost fixed_blocks = { λ p q es h. blocks_fixed p.space.now q.space.now es h.1 };

    fn blocks(&self) -> u32 {
        self.space.layout().blocks
    }

    fn block(&mut self, b: u32) -> BlockWord {
        self.space.block(b)
    }

    fn swap_block(&mut self, b: u32, seen: BlockWord, new: BlockWord) -> Result<(), BlockWord> {
        let found = self.space.block(b);
        if found != seen {
            return Err(found);
        }
        self.space.set_block(b, new);
        Ok(())
    }

    fn used(&mut self, b: u32) -> u64 {
        self.space.used(b)
    }

    fn take_slot(&mut self, b: u32, slot: u32) -> u64 {
        self.space.occupy(b, slot)
    }
}

impl<'a> SweepPort for PlainPort<'a> {
    ghost marks = { λ p. marks_of p.space.now.marks };

    ghost heap = { λ p. old_base p.space.now.layout };

    ghost fixed_sweep = { λ p q es h. sweep_fixed p.space.now q.space.now es h.1 };

    fn marks(&self, b: u32) -> u64 {
        // That there are marks for each block stands in what the layout ensures.
        let _ = self.space.layout();
        self.space.marks(b)
    }

    fn pass_over(&mut self, size: u32, from: u32) -> u32 {
        self.space.pass_over(size, from)
    }

    fn set_used(&mut self, b: u32, mask: u64) {
        self.space.set_used(b, mask);
    }

    fn zero_slot(&mut self, b: u32, slot: u32, size: u32) {
        let block = self.space.layout().old_word() + BLOCK_WORDS * b as u64;
        let first = block + size as u64 * slot as u64;
        self.space.clear(Addr::at_word(first), size as u64);
    }

    fn set_block(&mut self, b: u32, word: BlockWord) {
        self.space.set_block(b, word);
    }
}
