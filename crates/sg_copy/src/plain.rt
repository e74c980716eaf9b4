ghost use Rattle.std.specs.Prelude.{◌≡◌, length, replicate};
ghost use Rattle.std.proofs.Common.{refl, ◌∙◌};
ghost use Rattle.sg_words.specs.Words.{Saw};
ghost use Rattle.sg_copy.specs.Plain.{words_with, LeadsOn, Allows, leads_none, leads_then};

use crate::port::CopyPort;
use sg_cells::{BlockPort, Port};
use sg_space::Space;
use sg_words::{Addr, BlockWord};

/// A port over a lent space and offer cells of its own: each call is done at once.
#[derive(Drop)]
pub struct PlainRound<'a> {
    space: &'a mut Space,
    cells: [u64; 64],
}

impl<'a> PlainRound<'a> {
    /// The port over this space, which is the space again once the port is gone, with 8 empty cells for each of at most 8 workers.
    pub fn new(space: &'a mut Space) -> PlainRound<'a>
        ensures same { result.space.ghost_name ≡ space.entry.ghost_name }
        ensures now { result.space.now ≡ space.old }
        ensures cells { result.cells ≡ replicate 64 0 }
    {
        PlainRound {
            space,
            cells: [0; 64],
        }
    }
}

impl<'a> Port for PlainRound<'a> {
    ghost leads = { λ p es q. (q.space.ghost_name ≡ p.space.ghost_name) × LeadsOn p.space.now p.cells es q.space.now q.cells };

    ghost may = { λ p call. Allows p.space.now p.cells call };

    ghost sees = { λ p s. Saw (words_with p.space.now p.cells) s };

    ghost stays = { λ p. (refl, leads_none p.space.now p.cells) };

    ghost chains = { λ p q r es fs h k. (k.0 ∙ h.0, leads_then p.space.now q.space.now r.space.now p.cells q.cells r.cells es fs h.1 k.1) };
}

impl<'a> BlockPort for PlainRound<'a> {
    ghost blocks = { λ p. length p.space.now.blocks };

    ghost fixed_blocks = { λ p q es h. h.1.still.blocks };

    fn blocks(&self) -> u32 {
        self.space.layout().blocks
    }

    fn block(&mut self, b: u32) -> BlockWord {
        self.space.block(b)
    }

    fn swap_block(&mut self, b: u32, seen: BlockWord, new: BlockWord) -> Result<(), BlockWord> {
        let found = self.space.block(b);
        if found != seen {
            return Err(found);
        }
        self.space.set_block(b, new);
        Ok(())
    }

    fn used(&mut self, b: u32) -> u64 {
        self.space.used(b)
    }

    fn take_slot(&mut self, b: u32, slot: u32) -> u64 {
        let found = self.space.used(b);
        self.space.set_used(b, found | (1 << slot));
        found
    }
}

impl<'a> CopyPort for PlainRound<'a> {
    fn load(&mut self, a: u64) -> u64 {
        self.space.read(Addr::at_word(a / 8))
    }

    fn store(&mut self, a: u64, w: u64) {
        self.space.write(Addr::at_word(a / 8), w);
    }

    fn mark_card(&mut self, card: u32) {
        self.space.set_dirty(card, true);
    }

    fn swap_first(&mut self, a: Addr, seen: u64, new: u64) -> Result<(), u64> {
        let found = self.space.read(a);
        if found != seen {
            return Err(found);
        }
        self.space.write(a, new);
        Ok(())
    }

    fn cell(&mut self, c: u32) -> u64 {
        self.cells[c as usize]
    }

    fn swap_cell(&mut self, c: u32, seen: u64, new: u64) -> Result<(), u64> {
        let found = self.cells[c as usize];
        if found != seen {
            return Err(found);
        }
        self.cells[c as usize] = new;
        Ok(())
    }
}
