// How a worker handles a slot, up to an exchange.
ghost use Rattle.std.specs.Prelude.{◌≡◌, ◌*◌, ◌+◌, ◌<◌, ◌≤◌, ℕ, IfNone, IfSome, MatchOption};
ghost use Rattle.sg_words.specs.Address.{byte_at};
ghost use Rattle.sg_words.specs.Blocks.{IsSizeClass, slot_size};
ghost use Rattle.sg_round.specs.Area.{IsYoung, card_at};
ghost use Rattle.sg_round.specs.Items.{SlotOf};
ghost use Rattle.sg_round.specs.Worker.{On, Look, Size, Dirty, Idle, looking};
ghost use Rattle.sg_copy.specs.declared.copier.Stage.TheVariants.{Between};
ghost use Rattle.sg_copy.specs.Telling.{Teller, IsOn, HasGoneOn, at};
ghost use Rattle.sg_copy.specs.State.{teller_of, seat_of, object_of, staying};
ghost use Rattle.sg_copy.specs.Turning.{ReadsFirst, IsNextOf, HasHandled, HasBegun};

use crate::copier::{Copier, Job, Stage};
use crate::port::CopyPort;
use sg_blocks::size_for;
use sg_slots::{Found, find};
use sg_words::{FIRST_WORD, forwarded_to, plain_class};

/// What the first word of a young object says.
#[derive(Clone, Copy)]
pub enum First {
    /// It is of this class, and nothing has happened to it.
    Plain { class: u16 },
    /// It stays where it is.
    Staying,
    /// Its copy is at the word with this number.
    Forwarded { to: u64 },
}

impl Copier {
    /// Handles this slot: loads it, and goes by the young object to which it refers, if there is one.
    pub(crate) fn visit<P: CopyPort>(&mut self, port: &mut P, slot: u64)
        requires between { self.old.stage ≡ Between }
        requires on { (a : Teller) × IsNextOf a (SlotOf slot) (at (teller_of self.old) Idle) × IsOn (seat_of self.old) P.leads P.may P.sees P.blocks
            port.old a }
        ensures { (a : Teller) → IsNextOf a (SlotOf slot) (at (teller_of self.old) Idle) → IsOn (seat_of self.old) P.leads P.may P.sees P.blocks port.old a →
            HasBegun self.old P.leads a port.old self.new port.new }
    {
        let value = port.load(8 * slot);
        if let Some(target) = self.young(value) {
            self.look(port, slot, target);
        }
    }

    /// The number of the nursery's word whose address this is, if it is one.
    fn young(&self, value: u64) -> Option<u64>
        ensures found { IfSome result (λ x. (value ≡ byte_at x) × IsYoung (seat_of self.now).area x) }
        ensures none { IfNone result ((x : ℕ) → value ≡ byte_at x → IsYoung (seat_of self.now).area x → ⊥) }
    {
        let word = value / 8;
        if value % 8 == 0 && FIRST_WORD <= word && word < self.old_word() {
            Some(word)
        } else {
            None
        }
    }

    /// Handles the slot by the first word of its target.
    pub(crate) fn look<P: CopyPort>(&mut self, port: &mut P, slot: u64, target: u64)
        requires between { self.old.stage ≡ Between }
        requires on { IsOn (seat_of self.old) P.leads P.may P.sees P.blocks port.old (at (teller_of self.old) (On slot (Look target))) }
        ensures { HasHandled self.old P.leads (at (teller_of self.old) (On slot (Look target))) port.old self.new port.new }
    {
        match read_first(port.load(8 * target)) {
            First::Forwarded { to } => port.store(8 * slot, 8 * to),
            First::Staying => self.mark(port, slot),
            First::Plain { class } => self.prepare(port, slot, target, class),
        }
    }

    /// Marks the card of the slot, where it has one: its target stays where it is.
    pub(crate) fn mark<P: CopyPort>(&self, port: &mut P, slot: u64)
        requires { IsOn (seat_of self.now) P.leads P.may P.sees P.blocks port.old (at (teller_of self.now) (staying (seat_of self.now).area slot)) }
        ensures { HasGoneOn (seat_of self.now) P.leads (at (teller_of self.now) (staying (seat_of self.now).area slot)) port.old
            (at (teller_of self.now) Idle) port.new }
    {
        if let Some(card) = self.card_of(slot) {
            port.mark_card(card);
        }
    }

    /// The card of the slot, if it has one.
    fn card_of(&self, slot: u64) -> Option<u32>
        ensures { MatchOption result (staying (seat_of self.now).area slot ≡ Idle)
            (λ card. (staying (seat_of self.now).area slot ≡ On slot Dirty) × (card ≡ card_at (seat_of self.now).area slot)) }
    {
        let base = self.old_word();
        if base <= slot && slot < self.globals_word() {
            Some(((slot - base) / 64) as u32)
        } else {
            None
        }
    }

    /// Prepares the copying of the plain object to which the slot refers: to the spare slot of its size, or else to one that it looks for.
    fn prepare<P: CopyPort>(&mut self, port: &mut P, slot: u64, from: u64, class: u16)
        requires between { self.old.stage ≡ Between }
        requires on { IsOn (seat_of self.old) P.leads P.may P.sees P.blocks port.old (at (teller_of self.old) (On slot (Size from class))) }
        ensures { HasHandled self.old P.leads (at (teller_of self.old) (On slot (Size from class))) port.old self.new port.new }
    {
        let fields = port.load(8 * (from + 1)) as u32;
        let job = Job {
            slot,
            from,
            class,
            fields,
        };
        let size = size_of(fields);
        let to = self.spare(size);
        if to != 0 {
            self.set_spare(size, 0);
            self.write(port, job, to);
        } else {
            let from = self.passed(size);
            self.search(port, job, from);
        }
    }

    /// Looks for a slot for the object from this block on, and prepares the exchange that gets it; or that pins the object, where none is left.
    pub(crate) fn search<P: CopyPort>(&mut self, port: &mut P, job: Job, from: u32)
        requires between { self.old.stage ≡ Between }
        requires short { job.fields ≤ 62 }
        requires on { IsOn (seat_of self.old) P.leads P.may P.sees P.blocks port.old
            (at (teller_of self.old) (On job.slot (looking (seat_of self.old).area (object_of job) from))) }
        ensures { HasHandled self.old P.leads (at (teller_of self.old) (On job.slot (looking (seat_of self.old).area (object_of job) from))) port.old
            self.new port.new }
    {
        match find(port, size_of(job.fields), from) {
            Found::Free { block } => self.set_stage(Stage::Taking { job, block }),
            Found::Slot { block, slot } => self.set_stage(Stage::Claiming { job, block, slot }),
            Found::None => self.set_stage(Stage::Pinning { job }),
        }
    }
}

/// What this first word of a young object says.
fn read_first(word: u64) -> First
    ensures { ReadsFirst word result }
{
    if let Some(class) = plain_class(word) {
        return First::Plain { class };
    }
    match forwarded_to(word) {
        Some(to) => First::Forwarded { to: to.word() },
        None => First::Staying,
    }
}

/// The size of the slots for the copy of an object with so many fields, in words.
pub(crate) fn size_of(fields: u32) -> u32
    requires { fields ≤ 62 }
    ensures size { result ≡ slot_size (fields + 2) }
    ensures class { IsSizeClass result }
    ensures most { result ≤ 64 }
{
    size_for(fields + 2).unwrap()
}
