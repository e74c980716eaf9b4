ghost use Rattle.std.specs.Prelude.{◌≡◌, ◌↔◌, ◌<◌, ◌≤◌, ◌+◌, ◌++◌, true, Some, length, take, IfOk};
ghost use Rattle.sg_program.specs.declared.program.Statement.{Statement as AnyStatement};
ghost use Rattle.sg_program.specs.Scripts.{script_of};
ghost use Rattle.sg_program.specs.Invariants.{IsWithinLimits};
ghost use Rattle.sg_rules.specs.Rules.{fresh};
ghost use Rattle.sg_actor.specs.State.{Mutating, actor_of, leave_of, asking_of, IsCounted, words_down, words_in, WaitsForNone, BeginsEpoch, DropsBuffer, MayServe, HasServed};

use crate::tools::{answered_register, object_word};
use sg_program::{Answer, Leave, Program, Request, Statement, script_total};
use sg_script::Cursor;
use std::alloc::{AllocError, Global};
use std::marker::Model;

/// A word of the stack, and the offset that stands beside it where the word is an address inside an object.
#[derive(Clone, Copy)]
pub struct Held {
    /// The byte address of an object or of a byte of one, 0 for none, or a number.
    pub word: u64,
    /// In bytes. No collector looks at it.
    pub offset: u64,
}

/// Where a mutator stands.
#[derive(Clone, Copy)]
pub enum Stage {
    /// Between two statements of its epoch.
    Between,
    /// In the midst of a statement, within a turn.
    Within,
    /// An exchange is prepared, to claim words for the object that this statement makes: of the next word of this fragment,
    /// which was seen to stand at the word with this number.
    Claiming {
        statement: Statement,
        fragment: u32,
        next: u64,
    },
    /// The exchange is prepared by which this block, which was seen free, gets slots for the object that this statement makes.
    OpeningBlock {
        statement: Statement,
        block: u32,
    },
    /// The claim of this slot of this block is prepared, which was seen clear, for the object that this statement makes.
    TakingSlot {
        statement: Statement,
        block: u32,
        slot: u32,
    },
    /// The exchange is prepared by which it takes over the sweep of this block, which was seen owed, with slots of `size` words;
    /// it came to the block on this statement's search.
    TakingOver {
        statement: Statement,
        block: u32,
        size: u32,
    },
    /// It has taken this block over, and sweeps it in its next turn.
    Sweeping {
        statement: Statement,
        block: u32,
        size: u32,
    },
    /// It has swept this block, and this statement's search goes on there in its next turn.
    BehindSweep {
        statement: Statement,
        block: u32,
    },
    /// No statement is left.
    Ended,
    /// It has left its epoch with this statement, which asks for this.
    Asking {
        statement: Statement,
        request: Request,
    },
    /// It has left its epoch, since another mutator asked for a stop.
    Yielded,
}

/// A mutator with its script: registers, a stack, a buffer, and the answers of its epoch.
#[derive(Drop)]
pub struct Mutator<'a> {
    pub(crate) program: &'a Program,
    pub(crate) number: u32,
    // The number of the first statement of this epoch, counted from 0 over the whole script.
    pub(crate) first: u32,
    // The statements to come, without the one that has begun.
    pub(crate) cursor: Cursor<'a>,
    // The word in each register: the byte address of an object or of a byte of one, 0 for none, or a number.
    pub(crate) registers: [u64; 16],
    // The offset beside each register whose word is the address of a byte of an object, in bytes.
    pub(crate) offsets: [u64; 16],
    // The stack, with its top last.
    pub(crate) stack: Vec<Held>,
    // The words that it has taken and not used: the number of the first one, and of the one behind the last.
    pub(crate) from: u64,
    pub(crate) to: u64,
    pub(crate) answers: Vec<Answer>,
    pub(crate) stage: Stage,
}

impl<'a> Model for Mutator<'a> {
    ghost use Rattle.sg_program.specs.contracts.program.Item as e;
    ghost use Rattle.std.specs.Prelude.{vec_capacity};
    ghost use Rattle.std.specs.Coded.{codes};
    ghost use Rattle.sg_actor.specs.State.{Mutating, IsSoundMutator};

    ghost Value = { Mutating };

    ghost coded = { Prim.hlevel (codes, e.the_row.coded) };

    ghost view = { λ m. record {
      program = m.program.now;
      number = m.number;
      first = m.first;
      stage = m.stage;
      registers = m.registers;
      offsets = m.offsets;
      stack = m.stack.items;
      from = m.from;
      to = m.to;
      script = m.cursor;
      told = m.answers.items;
    } };

    ghost invariant = { λ m. IsSoundMutator m.program.now m.number m.first m.stage m.stack.items m.cursor m.answers.items (vec_capacity m.stack) (vec_capacity m.answers) };
}

impl<'a> Mutator<'a> {
    /// The program's mutator with this number, before its first statement. Takes memory for the answers of its script, and for
    /// 64 words on its stack; time linear in the written items.
    pub fn new(alloc: Global, number: u32, program: &'a Program) -> Result<Mutator<'a>, AllocError>
        requires limits { IsWithinLimits program.now }
        requires there { number < length program.now.mutators }
        ensures fresh { IfOk result (λ m. actor_of m ≡ fresh (script_of program.now number)) }
        ensures first { IfOk result (λ m. m.first ≡ 0) }
        ensures stage { IfOk result (λ m. m.stage ≡ Stage.Between) }
        ensures program { IfOk result (λ m. m.program ≡ program.now) }
        ensures number { IfOk result (λ m. m.number ≡ number) }
    {
        let script = &program.mutators.as_slice()[number as usize];
        Ok(Mutator {
            program,
            number,
            first: 0,
            cursor: Cursor::new(alloc, script.items.as_slice())?,
            registers: [0; 16],
            offsets: [0; 16],
            stack: Vec::with_capacity(alloc, 64)?,
            from: 0,
            to: 0,
            answers: Vec::with_capacity(alloc, script_total(script) as usize)?,
            stage: Stage::Between,
        })
    }

    /// Its number in the program.
    pub fn number(&self) -> u32
        ensures { result ≡ self.now.number }
    {
        self.number
    }

    /// The number of the first statement of its epoch, counted from 0 over its whole script.
    pub fn first(&self) -> u32
        ensures value { result ≡ self.now.first }
        ensures counted { IsCounted self.now }
    {
        self.first
    }

    /// Its answers in this epoch, in order.
    pub fn answers(&self) -> &[Answer]
        ensures { result.now ≡ self.now.told }
    {
        self.answers.as_slice()
    }

    /// Whether no statement is left, and it has left its epoch for that.
    pub fn ended(&self) -> bool
        ensures { result ≡ true ↔ self.now.stage ≡ Stage.Ended }
    {
        matches!(self.stage, Stage::Ended)
    }

    /// How it has left its epoch; `None` exactly while it hasn't.
    pub fn leave(&self) -> Option<Leave>
        ensures { result ≡ leave_of self.now.stage }
    {
        match self.stage {
            Stage::Ended => Some(Leave::Ended),
            Stage::Asking { request, .. } => Some(Leave::Wants(request)),
            Stage::Yielded => Some(Leave::Yield),
            _ => None,
        }
    }

    /// The statement with which it has left its epoch, where it asks for something.
    pub fn asking(&self) -> Option<Statement>
        ensures { result ≡ asking_of self.now.stage }
    {
        match self.stage {
            Stage::Asking { statement, .. } => Some(statement),
            _ => None,
        }
    }

    /// Writes the words in its registers, and then those on its stack from the top down: what a pause can't tell from addresses. The
    /// answer says how many. It takes no memory.
    pub fn words_of(&self, into: &mut [u64; 80]) -> u32
        ensures few { result ≤ 80 }
        ensures words { take result into.new ≡ words_in self.now }
        ensures registers { length self.now.registers ≡ 16 }
    {
        write_registers(&self.registers, into);
        write_stack(self.stack.as_slice(), into);
        16 + self.stack.len() as u32
    }

    /// The next epoch begins: it has no answers in it yet. One that has ended stays so.
    pub fn begin_epoch(&mut self)
        requires { WaitsForNone self.old.stage }
        ensures { BeginsEpoch self.old self.new }
    {
        self.first += self.answers.len() as u32;
        self.answers.clear();
        if matches!(self.stage, Stage::Yielded) {
            self.stage = Stage::Between;
        }
    }

    /// The statement with which it has left has this answer, and its epoch's answers are gone. It takes no memory.
    pub fn serve(&mut self, answer: Answer)
        requires { MayServe self.old.stage answer }
        ensures { (statement : AnyStatement) → asking_of self.old.stage ≡ Some statement → HasServed self.old statement answer self.new }
    {
        let Stage::Asking { statement, .. } = self.stage else {
            unreachable!();
        };
        self.first += self.answers.len() as u32 + 1;
        self.answers.clear();
        if let Some(r) = answered_register(statement) {
            self.registers[r as usize] = object_word(answer);
        }
        self.stage = Stage::Between;
    }

    /// It has no buffer any more: a pause has taken it.
    pub fn drop_buffer(&mut self)
        ensures { DropsBuffer self.old self.new }
    {
        self.from = 0;
        self.to = 0;
    }
}

/// The words of the registers come first.
fn write_registers(registers: &[u64; 16], into: &mut [u64; 80])
    ensures written { take 16 into.new ≡ registers.now }
    ensures registers { length registers.now ≡ 16 }
{
    for r in 0..16 {
        into[r] = registers[r];
    }
}

/// Behind them come the words of the stack, from its top down.
fn write_stack(stack: &[Held], into: &mut [u64; 80])
    requires { length stack.now ≤ 64 }
    ensures { take (16 + length stack.now) into.new ≡ take 16 into.old ++ words_down stack.now }
{
    let height = stack.len();
    for i in 0..height {
        into[16 + i] = stack[height - 1 - i].word;
    }
}
