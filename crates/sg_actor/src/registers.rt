// What a mutator has in its hands, and the statements that need nothing else.
ghost use Rattle.std.specs.Prelude.{◌≡◌, ◌≢◌, ◌↔◌, ◌<◌, ℕ, true, [], MatchOption};
ghost use Rattle.sg_words.specs.Words.{put};
ghost use Rattle.sg_program.specs.Scripts.{made_in, IsRequestOf};
ghost use Rattle.sg_rules.specs.Rules.{Idle, Claim, Left, Yielded as HasYielded, within, over, over_with, owning};
ghost use Rattle.sg_rules.specs.Sane.{MayBegin};
ghost use Rattle.sg_actor.specs.declared.mutator.Stage.TheVariants.{Between, Within, Claiming, Ended, Asking, Yielded};
ghost use Rattle.sg_actor.specs.State.{actor_of, mid_of, waiting, IsStageOf, Becomes};
ghost use Rattle.sg_actor.specs.Setting.{Begins};
ghost use Rattle.sg_actor.specs.Testing.{IsDirect};
ghost use Rattle.sg_actor.specs.Turning.{Decides};

use crate::mutator::{Held, Mutator, Stage};
use crate::tools::reference;
use sg_program::{Answer, Request, Statement};

impl<'a> Mutator<'a> {
    /// The word in register `r`.
    pub(crate) fn held(&self, r: u8) -> u64
        requires { r < 16 }
        ensures { result ≡ (actor_of self.now).reg r }
    {
        self.registers[r as usize]
    }

    /// The offset beside register `r`.
    fn beside(&self, r: u8) -> u64
        requires { r < 16 }
        ensures { result ≡ (actor_of self.now).offset r }
    {
        self.offsets[r as usize]
    }

    /// The next statement begins, where one is left; else nothing changes.
    pub(crate) fn begin(&mut self) -> Option<Statement>
        requires { self.old.stage ≡ Between }
        ensures { MatchOption result ((self.old.script ≡ []) × (self.new ≡ self.old)) (λ s. Begins self.old s self.new) }
    {
        let statement = self.cursor.peek()?;
        self.cursor.advance();
        self.stage = Stage::Within;
        Some(statement)
    }

    /// Whether a statement is left.
    pub(crate) fn has_more(&self) -> bool
        ensures { result ≡ true ↔ self.now.script ≢ [] }
    {
        self.cursor.peek().is_some()
    }

    /// The statement has this answer.
    pub(crate) fn say(&mut self, answer: Answer)
        requires { self.old.stage ≡ Within }
        ensures { Becomes self.old self.new (over (actor_of self.old) self.old.script (actor_of self.old).reg answer) Between }
    {
        if self.answers.push(answer).is_err() {
            unreachable!();
        }
        self.stage = Stage::Between;
    }

    /// Register `d` becomes this word, and the statement has this answer.
    pub(crate) fn tell(&mut self, d: u8, word: u64, answer: Answer)
        requires within { self.old.stage ≡ Within }
        requires d { d < 16 }
        ensures { Becomes self.old self.new (over (actor_of self.old) self.old.script (put (actor_of self.old).reg d word) answer) Between }
    {
        self.registers[d as usize] = word;
        self.say(answer);
    }

    /// Register `d` becomes this word, with this offset beside it, and the statement has this answer.
    pub(crate) fn tell_inner(&mut self, d: u8, word: u64, offset: u64, answer: Answer)
        requires within { self.old.stage ≡ Within }
        requires d { d < 16 }
        ensures { Becomes self.old self.new (over_with (actor_of self.old) self.old.script (put (actor_of self.old).reg d word) (put (actor_of self.old).offset d offset) (actor_of self.old).stack answer) Between }
    {
        self.offsets[d as usize] = offset;
        self.tell(d, word, answer);
    }

    /// The words from `from` to before `to` are its buffer.
    pub(crate) fn buffer(&mut self, from: u64, to: u64)
        ensures { Becomes self.old self.new (owning (actor_of self.old) from to) self.old.stage }
    {
        self.from = from;
        self.to = to;
    }

    /// The exchange is prepared.
    pub(crate) fn prepare(&mut self, statement: Statement, fragment: u32, next: u64)
        requires { self.old.stage ≡ Within }
        ensures { Becomes self.old self.new (within (actor_of self.old) self.old.script (Claim statement fragment next)) (Claiming statement fragment next) }
    {
        self.stage = Stage::Claiming {
            statement,
            fragment,
            next,
        };
    }

    /// It rests there in the midst of its statement, up to its next turn.
    pub(crate) fn rest_at(&mut self, stage: Stage)
        requires within { self.old.stage ≡ Within }
        requires waits { waiting stage ≡ 1 }
        requires fits { IsStageOf self.old.program stage }
        ensures { Becomes self.old self.new (within (actor_of self.old) self.old.script (mid_of stage)) stage }
    {
        self.stage = stage;
    }

    /// It goes on with the statement in whose midst it rested.
    pub(crate) fn resume(&mut self)
        requires { waiting self.old.stage ≡ 1 }
        ensures { Becomes self.old self.new (within (actor_of self.old) self.old.script Idle) Within }
    {
        self.stage = Stage::Within;
    }

    /// It has left its epoch with this statement, which asks for this.
    pub(crate) fn ask(&mut self, statement: Statement, request: Request)
        requires within { self.old.stage ≡ Within }
        requires fits { IsRequestOf self.old.program statement request }
        requires register { made_in statement < 16 }
        ensures { Becomes self.old self.new (within (actor_of self.old) self.old.script (Left statement)) (Asking statement request) }
    {
        self.stage = Stage::Asking { statement, request };
    }

    /// It has left its epoch for another one's sake.
    pub(crate) fn give_way(&mut self)
        requires { self.old.stage ≡ Between }
        ensures { Becomes self.old self.new (within (actor_of self.old) self.old.script HasYielded) Yielded }
    {
        self.stage = Stage::Yielded;
    }

    /// It has left its epoch, since no statement is left.
    pub(crate) fn end(&mut self)
        requires { self.old.stage ≡ Between }
        ensures { Becomes self.old self.new (actor_of self.old) Ended }
    {
        self.stage = Stage::Ended;
    }

    /// Does a statement that touches no shared word but the stop word.
    pub(crate) fn direct(&mut self, statement: Statement)
        requires within { self.old.stage ≡ Within }
        requires direct { IsDirect statement }
        requires may { MayBegin self.old.program (actor_of self.old) statement }
        ensures { Decides self.old statement self.new }
    {
        match statement {
            Statement::Num { d, n } => self.tell(d, n, Answer::Fine),
            Statement::Move { d, s } => {
                let word = self.held(s);
                let offset = self.beside(s);
                self.tell_inner(d, word, offset, Answer::Fine);
            }
            Statement::Unhide { d, s } => self.unhide(d, s),
            Statement::Drop { r } => self.tell(r, 0, Answer::Fine),
            Statement::Push { r } => self.push(r),
            Statement::Pop { r } => self.pop(r),
            Statement::Same { r, s } => {
                let same = self.held(r) == self.held(s);
                self.say(if same { Answer::Yes } else { Answer::No });
            }
            _ => unreachable!(),
        }
    }

    /// `unhide`.
    fn unhide(&mut self, d: u8, s: u8)
        requires within { self.old.stage ≡ Within }
        requires may { MayBegin self.old.program (actor_of self.old) (Statement.Unhide d s) }
        ensures { Decides self.old (Statement.Unhide d s) self.new }
    {
        let _ = &self.program;
        let word = self.held(s);
        let object = if word == 0 { 0 } else { word - self.beside(s) };
        self.tell(d, object, reference(object));
    }

    /// `push`.
    fn push(&mut self, r: u8)
        requires within { self.old.stage ≡ Within }
        requires may { MayBegin self.old.program (actor_of self.old) (Statement.Push r) }
        ensures { Decides self.old (Statement.Push r) self.new }
    {
        let held = Held {
            word: self.held(r),
            offset: self.beside(r),
        };
        if self.stack.push(held).is_err() {
            unreachable!();
        }
        self.say(Answer::Fine);
    }

    /// `pop`.
    fn pop(&mut self, r: u8)
        requires within { self.old.stage ≡ Within }
        requires may { MayBegin self.old.program (actor_of self.old) (Statement.Pop r) }
        ensures { Decides self.old (Statement.Pop r) self.new }
    {
        match self.stack.pop() {
            Some(top) => self.tell_inner(r, top.word, top.offset, Answer::Fine),
            None => unreachable!(),
        }
    }
}
