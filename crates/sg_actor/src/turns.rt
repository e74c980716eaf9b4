// One turn of a mutator.
ghost use Rattle.std.specs.Prelude.{◌≡◌, ◌≢◌, None};
ghost use Rattle.sg_rules.specs.Rules.{Constants};
ghost use Rattle.sg_rules.specs.Sane.{MayBegin};
ghost use Rattle.sg_actor.specs.declared.mutator.Stage.TheVariants.{Between, Within};
ghost use Rattle.sg_actor.specs.State.{actor_of, leave_of};
ghost use Rattle.sg_actor.specs.Turning.{IsOnPort, HasBegun, HasRun, before_this, HasClassFor, HasClassForNext, IsBehindTurn, TakesTurn};

use crate::mutator::{Mutator, Stage};
use crate::tools::{object_test, stop_request};
use sg_cells::{FragPort, SweepPort, WordPort};
use sg_program::Statement;

impl<'a> Mutator<'a> {
    /// One turn: makes a prepared exchange and goes on; or sweeps a block that it has taken over; or begins the next statement, and
    /// does it up to its end or to right before its exchange. It leaves its epoch where no statement is left, where another mutator
    /// has asked for a stop, or with a request. It takes no memory, and time linear in the fragments and blocks that it looks at, or in
    /// the words of the block that it sweeps.
    pub fn turn_on<P: WordPort + FragPort + SweepPort>(&mut self, port: &mut P)
        requires going { leave_of self.old.stage ≡ None }
        requires whole { self.old.stage ≢ Within }
        requires classed { HasClassForNext self.old }
        requires on { (lay : Constants) × IsOnPort self.old.program lay P.leads P.may P.sees P.fragments P.limit P.blocks P.heap P.marks port.old
            (actor_of self.old) }
        ensures turned { (lay : Constants) → IsOnPort self.old.program lay P.leads P.may P.sees P.fragments P.limit P.blocks P.heap P.marks port.old
            (actor_of self.old) →
            TakesTurn lay P.leads self.old port.old self.new port.new }
    {
        match self.stage {
            Stage::Claiming {
                statement,
                fragment,
                next,
            } => {
                let making = self.making(statement);
                self.go_on(port, making, fragment, next);
            }
            Stage::OpeningBlock { statement, block } => {
                let making = self.making(statement);
                self.open_block(port, making, block);
            }
            Stage::TakingSlot {
                statement,
                block,
                slot,
            } => {
                let making = self.making(statement);
                self.take_slot(port, making, block, slot);
            }
            Stage::TakingOver {
                statement,
                block,
                size,
            } => {
                let making = self.making(statement);
                self.take_sweep(port, making, block, size);
            }
            Stage::Sweeping {
                statement,
                block,
                size,
            } => self.sweep(port, statement, block, size),
            Stage::BehindSweep { statement, block } => {
                let making = self.making(statement);
                self.search_behind(port, making, block);
            }
            Stage::Between => self.start(port),
            _ => unreachable!(),
        }
    }

    /// Begins the next statement, unless none is left or a stop was asked for.
    fn start<P: WordPort + FragPort + SweepPort>(&mut self, port: &mut P)
        requires between { self.old.stage ≡ Between }
        requires classed { HasClassForNext self.old }
        requires on { (lay : Constants) × IsOnPort self.old.program lay P.leads P.may P.sees P.fragments P.limit P.blocks P.heap P.marks port.old
            (actor_of self.old) }
        ensures turned { (lay : Constants) → IsOnPort self.old.program lay P.leads P.may P.sees P.fragments P.limit P.blocks P.heap P.marks port.old
            (actor_of self.old) →
            TakesTurn lay P.leads self.old port.old self.new port.new }
    {
        if !self.has_more() {
            return self.end();
        }
        if port.stop() {
            return self.give_way();
        }
        if let Some(statement) = self.begin() {
            self.act(port, statement);
        }
    }

    /// Does this statement, which has begun.
    fn act<P: WordPort + FragPort + SweepPort>(&mut self, port: &mut P, statement: Statement)
        requires within { self.old.stage ≡ Within }
        requires classed { HasClassFor self.old statement }
        requires may { MayBegin self.old.program (actor_of self.old) statement }
        requires begun { (lay : Constants) × HasBegun self.old.program lay P.leads P.may P.sees P.fragments P.limit P.blocks P.heap P.marks port.old
            (before_this self.old statement) }
        ensures run { (lay : Constants) → HasBegun self.old.program lay P.leads P.may P.sees P.fragments P.limit P.blocks P.heap P.marks port.old
            (before_this self.old statement) →
            HasRun self.old.program lay P.leads (before_this self.old statement) port.old (actor_of self.new) port.new }
        ensures behind { IsBehindTurn self.old self.new }
    {
        if let Some(test) = object_test(statement) {
            return self.access(port, statement, test);
        }
        if let Some(request) = stop_request(statement) {
            return self.request(port, statement, request);
        }
        match statement {
            Statement::New { .. } | Statement::NewV { .. } => {
                let making = self.making(statement);
                self.make(port, making);
            }
            Statement::Mature { .. } => {
                let making = self.making(statement);
                self.search_all(port, making);
            }
            Statement::GPut { .. } | Statement::GGet { .. } => self.global(port, statement),
            Statement::Hide { d, s, offset } => self.hide(port, d, s, offset),
            _ => self.direct(statement),
        }
    }
}
