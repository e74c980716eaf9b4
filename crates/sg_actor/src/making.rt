// The statements that make an object: from the buffer, or from a fragment by an exchange that may be lost.
ghost use Rattle.std.specs.Prelude.{◌≡◌, ◌+◌, ◌≤◌, ℕ};
ghost use Rattle.sg_words.specs.Blocks.{IsSizeClass, slot_size};
ghost use Rattle.sg_rules.specs.Rules.{Constants, Ask, StoreLength, looking, within};
ghost use Rattle.sg_rules.specs.Acting.{HasGoneOn, HasTurned};
ghost use Rattle.sg_rules.specs.Resting.{IsRunnable};
ghost use Rattle.sg_rules.specs.Sane.{MayBegin};
ghost use Rattle.sg_program.specs.Scripts.{IsMaking, MakesObject, IsCollecting};
ghost use Rattle.sg_actor.specs.declared.mutator.Stage.TheVariants.{Between, Within, Claiming};
ghost use Rattle.sg_actor.specs.State.{actor_of, IsSameMutator};
ghost use Rattle.sg_actor.specs.Turning.{IsOnPort, HasBegun, HasRun, before_this, IsBehindTurn, IsMadeOf};

use crate::mutator::Mutator;
use crate::tools::shape;
use sg_blocks::size_for;
use sg_cells::{FragPort, SweepPort, WordPort};
use sg_frag::{Claimed, Looked, claim, look};
use sg_program::{Answer, Request, Statement};
use sg_words::{Addr, Tag, write_tag};

/// The object that a statement makes.
#[derive(Clone, Copy)]
pub(crate) struct Making {
    pub(crate) statement: Statement,
    /// The register that gets it.
    pub(crate) r: u8,
    pub(crate) class: u16,
    pub(crate) fields: u32,
}

impl Making {
    /// The words of the object.
    fn words(self) -> u32
        requires { self.fields ≤ 62 }
        ensures { result ≡ self.fields + 2 }
    {
        self.fields + 2
    }

    /// The words of a slot for it.
    pub(crate) fn slot(self) -> u32
        requires { self.fields ≤ 62 }
        ensures size { result ≡ slot_size (self.fields + 2) }
        ensures class { IsSizeClass result }
    {
        match size_for(self.words()) {
            Some(size) => size,
            None => unreachable!(),
        }
    }
}

impl<'a> Mutator<'a> {
    /// What `new`, `newv` or `mature` makes.
    #[inline(always)]
    pub(crate) fn making(&self, statement: Statement) -> Making
        requires { MakesObject statement × IsRunnable self.now.program statement }
        ensures made { IsMadeOf self.now.program result.statement result.r result.class result.fields }
        ensures statement { result.statement ≡ statement }
    {
        match statement {
            Statement::New { r, class } => Making {
                statement,
                r,
                class,
                fields: shape(self.program, class).fields,
            },
            Statement::NewV { r, class, count } => Making {
                statement,
                r,
                class,
                fields: count,
            },
            Statement::Mature { r, class } => Making {
                statement,
                r,
                class,
                fields: shape(self.program, class).fields,
            },
            _ => unreachable!(),
        }
    }

    /// Makes the object: from the buffer; or else an exchange is prepared for it, or it asks for room. Linear in the fragments.
    pub(crate) fn make<P: WordPort + FragPort + SweepPort>(&mut self, port: &mut P, making: Making)
        requires within { self.old.stage ≡ Within }
        requires made { IsMadeOf self.old.program making.statement making.r making.class making.fields }
        requires young { IsMaking making.statement }
        requires may { MayBegin self.old.program (actor_of self.old) making.statement }
        requires begun { (lay : Constants) × HasBegun self.old.program lay P.leads P.may P.sees P.fragments P.limit P.blocks P.heap P.marks port.old
            (before_this self.old making.statement) }
        ensures run { (lay : Constants) → HasBegun self.old.program lay P.leads P.may P.sees P.fragments P.limit P.blocks P.heap P.marks port.old
            (before_this self.old making.statement) →
            HasRun self.old.program lay P.leads (before_this self.old making.statement) port.old (actor_of self.new) port.new }
        ensures behind { IsBehindTurn self.old self.new }
    {
        let words = making.words() as u64;
        let from = self.from;
        let to = self.to;
        if words <= to.saturating_sub(from) {
            self.buffer(from + words, to);
            self.finish(port, making, from);
        } else {
            let fragments = port.fragments();
            self.seek(port, making, 0, fragments);
        }
    }

    /// Writes the header of the new object at the word with this number, its length first, and answers.
    pub(crate) fn finish<P: WordPort + FragPort + SweepPort>(
        &mut self,
        port: &mut P,
        making: Making,
        number: u64,
    )
        requires within { self.old.stage ≡ Within }
        requires made { IsMadeOf self.old.program making.statement making.r making.class making.fields }
        requires on { (lay : Constants) × IsOnPort self.old.program lay P.leads P.may P.sees P.fragments P.limit P.blocks P.heap P.marks port.old
            (within (actor_of self.old) self.old.script (StoreLength making.statement number)) }
        ensures goes { (lay : Constants) → IsOnPort self.old.program lay P.leads P.may P.sees P.fragments P.limit P.blocks P.heap P.marks port.old
            (within (actor_of self.old) self.old.script (StoreLength making.statement number)) →
            HasGoneOn self.old.program lay P.leads (within (actor_of self.old) self.old.script (StoreLength making.statement number)) port.old
            (actor_of self.new) port.new }
        ensures stage { self.new.stage ≡ Between }
        ensures same { IsSameMutator self.old self.new }
    {
        let _ = &self.program;
        let at = Addr::at_word(number);
        port.store(8 * number + 8, making.fields as u64);
        port.store(
            8 * number,
            write_tag(Tag::Plain {
                class: making.class,
            }),
        );
        self.tell(making.r, at.get(), Answer::At(at));
    }

    /// Looks for a fragment with room, from this one on, of so many: prepares the exchange, or else asks for room. Linear in the fragments.
    fn seek<P: WordPort + FragPort + SweepPort>(
        &mut self,
        port: &mut P,
        making: Making,
        first: u32,
        fragments: u32,
    )
        requires within { self.old.stage ≡ Within }
        requires made { IsMadeOf self.old.program making.statement making.r making.class making.fields }
        requires young { IsMaking making.statement }
        requires all { fragments ≡ P.fragments port.old }
        requires on { (lay : Constants) × (first ≤ lay.fragments) ×
            IsOnPort self.old.program lay P.leads P.may P.sees P.fragments P.limit P.blocks P.heap P.marks port.old
            (within (actor_of self.old) self.old.script (looking lay making.statement first)) }
        ensures goes { (lay : Constants) → IsOnPort self.old.program lay P.leads P.may P.sees P.fragments P.limit P.blocks P.heap P.marks port.old
            (within (actor_of self.old) self.old.script (looking lay making.statement first)) →
            HasGoneOn self.old.program lay P.leads (within (actor_of self.old) self.old.script (looking lay making.statement first)) port.old
            (actor_of self.new) port.new }
        ensures behind { IsBehindTurn self.old self.new }
    {
        let words = making.words();
        for fragment in first..fragments {
            match look(port, fragment, words) {
                Looked::Ready { next } => {
                    self.prepare(making.statement, fragment, next / 8);
                    return;
                }
                Looked::Small { .. } => {}
            }
        }
        port.set_stop();
        self.ask(making.statement, Request::Need { words });
    }

    /// Makes the prepared exchange, and goes on: with the words, or with a look at the same fragment again.
    pub(crate) fn go_on<P: WordPort + FragPort + SweepPort>(
        &mut self,
        port: &mut P,
        making: Making,
        fragment: u32,
        next: u64,
    )
        requires stage { self.old.stage ≡ Claiming making.statement fragment next }
        requires made { IsMadeOf self.old.program making.statement making.r making.class making.fields }
        requires young { IsMaking making.statement }
        requires on { (lay : Constants) × IsOnPort self.old.program lay P.leads P.may P.sees P.fragments P.limit P.blocks P.heap P.marks port.old
            (actor_of self.old) }
        ensures turned { (lay : Constants) → IsOnPort self.old.program lay P.leads P.may P.sees P.fragments P.limit P.blocks P.heap P.marks port.old
            (actor_of self.old) →
            HasTurned self.old.program lay P.leads (actor_of self.old) port.old (actor_of self.new) port.new }
        ensures behind { IsBehindTurn self.old self.new }
    {
        let fragments = port.fragments();
        let words = making.words();
        let want = words.max(self.program.config.buffer);
        self.resume();
        match claim(port, fragment, 8 * next, want, words) {
            Claimed::Got { start, end } => {
                self.buffer(start.word() + words as u64, end.word());
                self.finish(port, making, start.word());
            }
            Claimed::Moved { next } => self.prepare(making.statement, fragment, next / 8),
            Claimed::Small { .. } => self.seek(port, making, fragment + 1, fragments),
        }
    }

    /// A statement that asks for this in any case: a collection, or the question what stands in each section.
    pub(crate) fn request<P: WordPort + FragPort + SweepPort>(
        &mut self,
        port: &mut P,
        statement: Statement,
        request: Request,
    )
        requires within { self.old.stage ≡ Within }
        requires asks { IsCollecting statement request }
        requires begun { (lay : Constants) × HasBegun self.old.program lay P.leads P.may P.sees P.fragments P.limit P.blocks P.heap P.marks port.old
            (before_this self.old statement) }
        ensures run { (lay : Constants) → HasBegun self.old.program lay P.leads P.may P.sees P.fragments P.limit P.blocks P.heap P.marks port.old
            (before_this self.old statement) →
            HasRun self.old.program lay P.leads (before_this self.old statement) port.old (actor_of self.new) port.new }
        ensures behind { IsBehindTurn self.old self.new }
    {
        port.set_stop();
        self.ask(statement, request);
    }
}
