// The statements that load or store a word: of an object, or a global.
ghost use Rattle.std.specs.Prelude.{◌≡◌, ◌+◌, ◌%◌, ◌<◌, Some, length};
ghost use Rattle.sg_words.specs.Address.{word_at};
ghost use Rattle.sg_program.specs.declared.program.Statement.TheVariants.{Put};
ghost use Rattle.sg_program.specs.Tests.{test_of};
ghost use Rattle.sg_rules.specs.Rules.{Constants, TestTag, Access, within, over, cleared, object_in, IsGlobal};
ghost use Rattle.sg_rules.specs.Acting.{HasGoneOn};
ghost use Rattle.sg_rules.specs.Resting.{IsRunnable};
ghost use Rattle.sg_rules.specs.Sane.{MayBegin};
ghost use Rattle.sg_actor.specs.declared.mutator.Stage.TheVariants.{Between, Within};
ghost use Rattle.sg_actor.specs.State.{actor_of, Becomes, IsSameMutator};
ghost use Rattle.sg_actor.specs.Testing.{as_test};
ghost use Rattle.sg_actor.specs.Turning.{IsOnPort, HasBegun, HasRun, before_this, HasClassFor, IsBehindTurn, tested};

use crate::mutator::Mutator;
use crate::tools::{ObjectTest, card_at, global_at, has_field, reference, shape};
use sg_cells::{FragPort, SweepPort, WordPort};
use sg_program::{Answer, Statement};
use sg_words::plain_class;

impl<'a> Mutator<'a> {
    /// Does a statement with an object test: `put`, `get`, `putd` or `getd`.
    pub(crate) fn access<P: WordPort + FragPort + SweepPort>(
        &mut self,
        port: &mut P,
        statement: Statement,
        test: ObjectTest,
    )
        requires within { self.old.stage ≡ Within }
        requires test { test_of statement ≡ Some (as_test test) }
        requires classed { HasClassFor self.old statement }
        requires may { MayBegin self.old.program (actor_of self.old) statement }
        requires begun { (lay : Constants) × HasBegun self.old.program lay P.leads P.may P.sees P.fragments P.limit P.blocks P.heap P.marks port.old
            (before_this self.old statement) }
        ensures run { (lay : Constants) → HasBegun self.old.program lay P.leads P.may P.sees P.fragments P.limit P.blocks P.heap P.marks port.old
            (before_this self.old statement) →
            HasRun self.old.program lay P.leads (before_this self.old statement) port.old (actor_of self.new) port.new }
        ensures behind { IsBehindTurn self.old self.new }
    {
        if self.held(test.register) == 0 {
            self.refuse(statement, Answer::Null);
        } else if self.passes(port, statement, test) {
            self.reach(port, statement, test);
        } else {
            self.refuse(statement, Answer::Field);
        }
    }

    /// The statement has this answer, since its object test found no object or no such field; a register that it sets is empty.
    fn refuse(&mut self, statement: Statement, answer: Answer)
        requires within { self.old.stage ≡ Within }
        requires runnable { IsRunnable self.old.program statement }
        ensures { Becomes self.old self.new (over (actor_of self.old) self.old.script (cleared statement (actor_of self.old).reg) answer) Between }
    {
        match statement {
            Statement::Get { d, .. } => self.tell(d, 0, answer),
            Statement::GetD { d, .. } => self.tell(d, 0, answer),
            _ => self.say(answer),
        }
    }

    /// Whether the object that the statement tests has such a field: two loads.
    fn passes<P: WordPort + FragPort + SweepPort>(
        &self,
        port: &mut P,
        statement: Statement,
        test: ObjectTest,
    ) -> bool
        requires test { test_of statement ≡ Some (as_test test) }
        requires classed { 0 < length self.now.program.classes }
        requires on { (lay : Constants) × IsOnPort self.now.program lay P.leads P.may P.sees P.fragments P.limit P.blocks P.heap P.marks port.old
            (within (actor_of self.now) self.now.script (TestTag statement (as_test test))) }
        ensures { (lay : Constants) → IsOnPort self.now.program lay P.leads P.may P.sees P.fragments P.limit P.blocks P.heap P.marks port.old
            (within (actor_of self.now) self.now.script (TestTag statement (as_test test))) →
            HasGoneOn self.now.program lay P.leads (within (actor_of self.now) self.now.script (TestTag statement (as_test test))) port.old
            (tested self.now statement result) port.new }
    {
        let program = self.program;
        let object = self.held(test.register);
        let class = plain_class(port.load(object)).unwrap();
        let len = port.load(object + 8);
        has_field(
            &shape(program, class).kind,
            len,
            test.field,
            test.is_reference,
        )
    }

    /// Loads or stores the field of the object that passed the statement's test.
    fn reach<P: WordPort + FragPort + SweepPort>(
        &mut self,
        port: &mut P,
        statement: Statement,
        test: ObjectTest,
    )
        requires within { self.old.stage ≡ Within }
        requires test { test_of statement ≡ Some (as_test test) }
        requires on { (lay : Constants) × IsOnPort self.old.program lay P.leads P.may P.sees P.fragments P.limit P.blocks P.heap P.marks port.old
            (within (actor_of self.old) self.old.script (Access statement)) }
        ensures goes { (lay : Constants) → IsOnPort self.old.program lay P.leads P.may P.sees P.fragments P.limit P.blocks P.heap P.marks port.old
            (within (actor_of self.old) self.old.script (Access statement)) →
            HasGoneOn self.old.program lay P.leads (within (actor_of self.old) self.old.script (Access statement)) port.old (actor_of self.new) port.new }
        ensures stage { self.new.stage ≡ Between }
        ensures same { IsSameMutator self.old self.new }
    {
        let _ = &self.program;
        let place = self.held(test.register) + 8 * (2 + test.field);
        match statement {
            Statement::Put { r, field, s } => self.put(port, place, r, field, s),
            Statement::PutD { s, .. } => {
                port.store(place, self.held(s));
                self.say(Answer::Fine);
            }
            Statement::Get { d, .. } => {
                let word = port.load(place);
                self.tell(d, word, reference(word));
            }
            Statement::GetD { d, .. } => {
                let number = port.load(place);
                self.tell(d, number, Answer::Number(number));
            }
            _ => unreachable!(),
        }
    }

    /// Stores a reference in the field at this byte address, and then marks the field's card, where it has one.
    fn put<P: WordPort + FragPort + SweepPort>(
        &mut self,
        port: &mut P,
        place: u64,
        r: u8,
        field: u64,
        s: u8,
    )
        requires within { self.old.stage ≡ Within }
        requires aligned { place % 8 ≡ 0 }
        requires place { word_at place ≡ object_in (actor_of self.old) r + 2 + field }
        requires on { (lay : Constants) × IsOnPort self.old.program lay P.leads P.may P.sees P.fragments P.limit P.blocks P.heap P.marks port.old
            (within (actor_of self.old) self.old.script (Access (Put r field s))) }
        ensures goes { (lay : Constants) → IsOnPort self.old.program lay P.leads P.may P.sees P.fragments P.limit P.blocks P.heap P.marks port.old
            (within (actor_of self.old) self.old.script (Access (Put r field s))) →
            HasGoneOn self.old.program lay P.leads (within (actor_of self.old) self.old.script (Access (Put r field s))) port.old (actor_of self.new) port.new }
        ensures stage { self.new.stage ≡ Between }
        ensures same { IsSameMutator self.old self.new }
    {
        let card = card_at(&self.program.config, place);
        port.store(place, self.held(s));
        if let Some(card) = card {
            port.mark_card(card);
        }
        self.say(Answer::Fine);
    }

    /// `gput` and `gget`: one store or load.
    pub(crate) fn global<P: WordPort + FragPort + SweepPort>(
        &mut self,
        port: &mut P,
        statement: Statement,
    )
        requires within { self.old.stage ≡ Within }
        requires global { IsGlobal statement }
        requires may { MayBegin self.old.program (actor_of self.old) statement }
        requires begun { (lay : Constants) × HasBegun self.old.program lay P.leads P.may P.sees P.fragments P.limit P.blocks P.heap P.marks port.old
            (before_this self.old statement) }
        ensures run { (lay : Constants) → HasBegun self.old.program lay P.leads P.may P.sees P.fragments P.limit P.blocks P.heap P.marks port.old
            (before_this self.old statement) →
            HasRun self.old.program lay P.leads (before_this self.old statement) port.old (actor_of self.new) port.new }
        ensures behind { IsBehindTurn self.old self.new }
    {
        match statement {
            Statement::GPut { g, r } => {
                port.store(global_at(&self.program.config, g), self.held(r));
                self.say(Answer::Fine);
            }
            Statement::GGet { r, g } => {
                let word = port.load(global_at(&self.program.config, g));
                self.tell(r, word, reference(word));
            }
            _ => unreachable!(),
        }
    }

    /// `hide`: at most one load.
    pub(crate) fn hide<P: WordPort + FragPort + SweepPort>(
        &mut self,
        port: &mut P,
        d: u8,
        s: u8,
        offset: u64,
    )
        requires within { self.old.stage ≡ Within }
        requires may { MayBegin self.old.program (actor_of self.old) (Statement.Hide d s offset) }
        requires begun { (lay : Constants) × HasBegun self.old.program lay P.leads P.may P.sees P.fragments P.limit P.blocks P.heap P.marks port.old
            (before_this self.old (Statement.Hide d s offset)) }
        ensures run { (lay : Constants) → HasBegun self.old.program lay P.leads P.may P.sees P.fragments P.limit P.blocks P.heap P.marks port.old
            (before_this self.old (Statement.Hide d s offset)) →
            HasRun self.old.program lay P.leads (before_this self.old (Statement.Hide d s offset)) port.old (actor_of self.new) port.new }
        ensures behind { IsBehindTurn self.old self.new }
    {
        let _ = &self.program;
        let word = self.held(s);
        if word == 0 {
            return self.tell_inner(d, 0, 0, Answer::Null);
        }
        let len = port.load(word + 8);
        if offset < 8 * (len + 2) {
            self.tell_inner(d, word + offset, offset, Answer::Fine);
        } else {
            self.tell_inner(d, 0, 0, Answer::Field);
        }
    }
}
