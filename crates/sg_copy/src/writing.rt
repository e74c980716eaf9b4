// How a worker writes a copy, before any other worker can see it.
ghost use Rattle.std.specs.Prelude.{◌≡◌, ◌+◌, ◌≤◌};
ghost use Rattle.sg_round.specs.Worker.{On, Body, size_for};
ghost use Rattle.sg_copy.specs.declared.copier.Stage.TheVariants.{Between};
ghost use Rattle.sg_copy.specs.Telling.{IsOn, HasGoneOn, at};
ghost use Rattle.sg_copy.specs.State.{teller_of, seat_of, object_of};
ghost use Rattle.sg_copy.specs.Turning.{HasHandled};

use crate::copier::{Copier, Job, Stage};
use crate::handling::size_of;
use crate::port::CopyPort;
use sg_words::{Tag, write_tag};

impl Copier {
    /// Writes the copy of the object into the slot at the word `to`: its words from the second on, zeros up to the slot's end, and its first
    /// word last; and prepares the exchange that tells of it.
    pub(crate) fn write<P: CopyPort>(&mut self, port: &mut P, job: Job, to: u64)
        requires between { self.old.stage ≡ Between }
        requires on { IsOn (seat_of self.old) P.leads P.may P.sees P.blocks port.old (at (teller_of self.old) (On job.slot (Body (object_of job) to 1))) }
        ensures { HasHandled self.old P.leads (at (teller_of self.old) (On job.slot (Body (object_of job) to 1))) port.old self.new port.new }
    {
        self.copy_words(port, job, to);
        self.clear_words(port, job, to);
        port.store(8 * to, write_tag(Tag::Plain { class: job.class }));
        self.set_stage(Stage::Forwarding { job, to });
    }

    /// Copies the words of the object, but for the first one.
    fn copy_words<P: CopyPort>(&self, port: &mut P, job: Job, to: u64)
        requires { IsOn (seat_of self.now) P.leads P.may P.sees P.blocks port.old (at (teller_of self.now) (On job.slot (Body (object_of job) to 1))) }
        ensures { HasGoneOn (seat_of self.now) P.leads (at (teller_of self.now) (On job.slot (Body (object_of job) to 1))) port.old
            (at (teller_of self.now) (On job.slot (Body (object_of job) to (job.fields + 2)))) port.new }
    {
        for j in 1..job.fields + 2 {
            let word = port.load(8 * (job.from + j as u64));
            port.store(8 * (to + j as u64), word);
        }
    }

    /// Writes zeros behind the copy, up to the slot's end.
    fn clear_words<P: CopyPort>(&self, port: &mut P, job: Job, to: u64)
        requires { IsOn (seat_of self.now) P.leads P.may P.sees P.blocks port.old
            (at (teller_of self.now) (On job.slot (Body (object_of job) to (job.fields + 2)))) }
        ensures { HasGoneOn (seat_of self.now) P.leads (at (teller_of self.now) (On job.slot (Body (object_of job) to (job.fields + 2)))) port.old
            (at (teller_of self.now) (On job.slot (Body (object_of job) to (size_for (object_of job))))) port.new }
    {
        for j in job.fields + 2..size_of(job.fields) {
            port.store(8 * (to + j as u64), 0);
        }
    }
}
