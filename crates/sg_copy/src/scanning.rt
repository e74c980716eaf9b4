// The turns of a worker, and how it goes from item to item.
ghost use Rattle.std.specs.Prelude.{◌≡◌, ◌≢◌, []};
ghost use Rattle.sg_round.specs.Items.{WholeOf};
ghost use Rattle.sg_round.specs.Worker.{Idle, Grab};
ghost use Rattle.sg_round.specs.Acting.{RestsAt};
ghost use Rattle.sg_copy.specs.declared.copier.Stage.TheVariants.{Between, Ended};
ghost use Rattle.sg_copy.specs.Grays.{item_of};
ghost use Rattle.sg_copy.specs.Telling.{Teller, IsOn, HasGoneOn, HasTurned, at};
ghost use Rattle.sg_copy.specs.State.{slots_in_hand, teller_of, seat_of, IsSameCopier, worker_of};
ghost use Rattle.sg_copy.specs.Turning.{IsNextOf, LooksAt, HasSetOut};

use crate::copier::{Copier, Stage};
use crate::gray::Gray;
use crate::port::CopyPort;

impl Copier {
    /// One turn: makes a prepared exchange and goes on; or else takes the next item, and goes through it, up to its end or to right before an
    /// exchange. It takes no memory.
    pub fn turn_on<P: CopyPort>(&mut self, port: &mut P)
        requires going { self.old.stage ≢ Ended }
        requires rests { RestsAt (worker_of self.old) }
        requires on { IsOn (seat_of self.old) P.leads P.may P.sees P.blocks port.old (teller_of self.old) }
        ensures turned { HasTurned (seat_of self.old) P.leads (teller_of self.old) port.old (teller_of self.new) port.new }
        ensures same { IsSameCopier self.old self.new }
    {
        self.begin(port);
        if self.is_between() {
            self.scan(port);
        }
    }

    /// Makes the prepared exchange and handles its slot, or begins the next item.
    fn begin<P: CopyPort>(&mut self, port: &mut P)
        requires going { self.old.stage ≢ Ended }
        requires rests { RestsAt (worker_of self.old) }
        requires on { IsOn (seat_of self.old) P.leads P.may P.sees P.blocks port.old (teller_of self.old) }
        ensures { HasSetOut self.old P.leads (teller_of self.old) port.old self.new port.new }
    {
        let stage = self.stage();
        self.set_stage(Stage::Between);
        match stage {
            Stage::Between => self.begin_item(port),
            Stage::Taking { job, block } => self.take_block(port, job, block),
            Stage::Claiming { job, block, slot } => self.claim(port, job, block, slot),
            Stage::Forwarding { job, to } => self.forward(port, job, to),
            Stage::Pinning { job } => self.pin(port, job),
            Stage::Grabbing { cell, item } => self.grab(port, cell, item),
            Stage::Ended => unreachable!(),
        }
    }

    /// Begins the oldest item, or looks for one in the cells.
    fn begin_item<P: CopyPort>(&mut self, port: &mut P)
        requires between { self.old.stage ≡ Between }
        requires empty { slots_in_hand self.old.hand ≡ [] }
        requires on { IsOn (seat_of self.old) P.leads P.may P.sees P.blocks port.old (at (teller_of self.old) Idle) }
        ensures { HasSetOut self.old P.leads (at (teller_of self.old) Idle) port.old self.new port.new }
    {
        match self.take_item() {
            Some(item) => self.go_through(port, item),
            None => self.seek(port, 0),
        }
    }

    /// Handles the slot of this item, or takes its object in hand.
    fn go_through<P: CopyPort>(&mut self, port: &mut P, item: Gray)
        requires between { self.old.stage ≡ Between }
        requires on { (a : Teller) × IsNextOf a (item_of item) (at (teller_of self.old) Idle) × IsOn (seat_of self.old) P.leads P.may P.sees P.blocks
            port.old a }
        ensures { (a : Teller) → IsNextOf a (item_of item) (at (teller_of self.old) Idle) → IsOn (seat_of self.old) P.leads P.may P.sees P.blocks port.old a →
            HasSetOut self.old P.leads a port.old self.new port.new }
    {
        match item {
            Gray::Slot { at } => self.visit(port, at.word()),
            Gray::Whole { at } => self.open(port, at.word()),
        }
    }

    /// Takes the object at this word in hand: two loads.
    fn open<P: CopyPort>(&mut self, port: &mut P, whole: u64)
        requires between { self.old.stage ≡ Between }
        requires on { (a : Teller) × IsNextOf a (WholeOf whole) (at (teller_of self.old) Idle) × IsOn (seat_of self.old) P.leads P.may P.sees P.blocks
            port.old a }
        ensures { (a : Teller) → IsNextOf a (WholeOf whole) (at (teller_of self.old) Idle) → IsOn (seat_of self.old) P.leads P.may P.sees P.blocks port.old a →
            HasSetOut self.old P.leads a port.old self.new port.new }
    {
        let first = port.load(8 * whole);
        let fields = port.load(8 * (whole + 1)) as u32;
        self.take_in_hand(whole, first, fields);
    }

    /// Goes through the slots of the object in hand, up to the last one or to right before an exchange.
    fn scan<P: CopyPort>(&mut self, port: &mut P)
        requires between { self.old.stage ≡ Between }
        requires on { IsOn (seat_of self.old) P.leads P.may P.sees P.blocks port.old (teller_of self.old) }
        ensures gone { HasGoneOn (seat_of self.old) P.leads (teller_of self.old) port.old (teller_of self.new) port.new }
        ensures same { IsSameCopier self.old self.new }
        ensures rests { RestsAt (worker_of self.new) }
    {
        while let Some(slot) = self.next_slot() {
            self.visit(port, slot);
            if !self.is_between() {
                return;
            }
        }
    }

    /// Looks for an item in the cells from this place on, its own first; where all are empty, nothing is left to do.
    fn seek<P: CopyPort>(&mut self, port: &mut P, from: u32)
        requires between { self.old.stage ≡ Between }
        requires on { (a : Teller) × LooksAt a from (at (teller_of self.old) Idle) × IsOn (seat_of self.old) P.leads P.may P.sees P.blocks port.old a }
        ensures { (a : Teller) → LooksAt a from (at (teller_of self.old) Idle) → IsOn (seat_of self.old) P.leads P.may P.sees P.blocks port.old a →
            HasSetOut self.old P.leads a port.old self.new port.new }
    {
        let (number, team) = self.place_in_team();
        let cells = 8 * team;
        for cell in from..cells {
            let word = port.cell((8 * number + cell) % cells);
            if let Some(item) = Gray::of_word(word) {
                self.set_stage(Stage::Grabbing { cell, item });
                return;
            }
        }
        self.set_stage(Stage::Ended);
    }

    /// Takes this item from the cell in this place, and goes through it; where another worker has taken it, looks at that cell again.
    fn grab<P: CopyPort>(&mut self, port: &mut P, cell: u32, item: Gray)
        requires between { self.old.stage ≡ Between }
        requires on { IsOn (seat_of self.old) P.leads P.may P.sees P.blocks port.old (at (teller_of self.old) (Grab cell (item_of item))) }
        ensures { HasSetOut self.old P.leads (at (teller_of self.old) (Grab cell (item_of item))) port.old self.new port.new }
    {
        let (number, team) = self.place_in_team();
        let cells = 8 * team;
        match port.swap_cell((8 * number + cell) % cells, item.to_word(), 0) {
            Ok(()) => self.go_through(port, item),
            Err(_) => self.seek(port, cell),
        }
    }
}
