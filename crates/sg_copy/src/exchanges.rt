// The exchanges with which a turn begins.
ghost use Rattle.std.specs.Prelude.{◌≡◌, ◌≤◌, ◌<◌, ◌^◌};
ghost use Rattle.sg_words.specs.Blocks.{IsSizeClass, slots};
ghost use Rattle.sg_round.specs.Area.{place as place_in};
ghost use Rattle.sg_round.specs.Worker.{On, Take, Mark, Swap, Pin};
ghost use Rattle.sg_copy.specs.declared.copier.Stage.TheVariants.{Between};
ghost use Rattle.sg_copy.specs.Telling.{IsOn, at};
ghost use Rattle.sg_copy.specs.State.{teller_of, seat_of, object_of};
ghost use Rattle.sg_copy.specs.Turning.{HasBegun};

use crate::copier::{Copier, Job};
use crate::handling::size_of;
use crate::port::CopyPort;
use sg_blocks::slot_word;
use sg_words::{Addr, BLOCK_WORDS, BlockWord, Tag, write_tag};

impl Copier {
    /// Makes the free block one of slots for the object, and looks at it again, whether it or another worker did so.
    pub(crate) fn take_block<P: CopyPort>(&mut self, port: &mut P, job: Job, block: u32)
        requires between { self.old.stage ≡ Between }
        requires on { IsOn (seat_of self.old) P.leads P.may P.sees P.blocks port.old (at (teller_of self.old) (On job.slot (Take (object_of job) block))) }
        ensures { HasBegun self.old P.leads (at (teller_of self.old) (On job.slot (Take (object_of job) block))) port.old self.new port.new }
    {
        let size = size_of(job.fields);
        let _ = port.swap_block(block, BlockWord::Free, BlockWord::Swept { size });
        self.search(port, job, block);
    }

    /// Claims the slot and writes the copy there; where another worker has claimed it, looks at its block again.
    pub(crate) fn claim<P: CopyPort>(&mut self, port: &mut P, job: Job, block: u32, slot: u32)
        requires between { self.old.stage ≡ Between }
        requires on { IsOn (seat_of self.old) P.leads P.may P.sees P.blocks port.old (at (teller_of self.old) (On job.slot (Mark (object_of job) block slot))) }
        ensures { HasBegun self.old P.leads (at (teller_of self.old) (On job.slot (Mark (object_of job) block slot))) port.old self.new port.new }
    {
        let found = port.take_slot(block, slot);
        if (found >> slot) & 1 == 0 {
            let size = size_of(job.fields);
            self.set_passed(size, block);
            let to = self.place(size, block, slot);
            self.write(port, job, to);
        } else {
            self.search(port, job, block);
        }
    }

    /// The first word of this slot of this block, whose slots have `size` words.
    fn place(&self, size: u32, block: u32, slot: u32) -> u64
        requires class { IsSizeClass size }
        requires there { slot < slots size }
        ensures { result ≡ place_in (seat_of self.now).area block size slot }
    {
        self.old_word() + BLOCK_WORDS * block as u64 + slot_word(size, slot) as u64
    }

    /// Tells in the object's first word where its copy is, and stores that in the slot. Where another worker has moved or failed the object,
    /// the place is to spare, and the slot is handled by that.
    pub(crate) fn forward<P: CopyPort>(&mut self, port: &mut P, job: Job, to: u64)
        requires between { self.old.stage ≡ Between }
        requires on { IsOn (seat_of self.old) P.leads P.may P.sees P.blocks port.old (at (teller_of self.old) (On job.slot (Swap (object_of job) to))) }
        ensures { HasBegun self.old P.leads (at (teller_of self.old) (On job.slot (Swap (object_of job) to))) port.old self.new port.new }
    {
        let plain = write_tag(Tag::Plain { class: job.class });
        match port.swap_first(Addr::at_word(job.from), plain, 8 * to + 1) {
            Ok(()) => {
                self.tell_move(job.from, to);
                port.store(8 * job.slot, 8 * to);
            }
            Err(_) => {
                self.set_spare(size_of(job.fields), to);
                self.look(port, job.slot, job.from);
            }
        }
    }

    /// Pins the object, for which no slot is left. Where another worker has moved or failed it, the slot is handled by that.
    pub(crate) fn pin<P: CopyPort>(&mut self, port: &mut P, job: Job)
        requires between { self.old.stage ≡ Between }
        requires on { IsOn (seat_of self.old) P.leads P.may P.sees P.blocks port.old (at (teller_of self.old) (On job.slot (Pin (object_of job)))) }
        ensures { HasBegun self.old P.leads (at (teller_of self.old) (On job.slot (Pin (object_of job)))) port.old self.new port.new }
    {
        let plain = write_tag(Tag::Plain { class: job.class });
        match port.swap_first(Addr::at_word(job.from), plain, plain + 2) {
            Ok(()) => {
                self.tell_fail(job.from);
                self.set_passed(size_of(job.fields), self.blocks());
                self.mark(port, job.slot);
            }
            Err(_) => self.look(port, job.slot, job.from),
        }
    }
}
