ghost use Rattle.std.specs.Prelude.{◌≡◌, ℕ, ◌≤◌, ◌↔◌, IsTrue, length, slice_index_or};
ghost use Rattle.sg_program.specs.Invariants.{HasOperands};
ghost use Rattle.sg_program.specs.Kinds.{first_kinds, Needs, sets, kinds_after, AreSame};
ghost use Rattle.sg_program.specs.declared.program.Statement.TheVariants.{Push, Pop};

use crate::places::agree;
use sg_program::Statement;

/// What a register or a place of a stack holds: an object or none, a number, or an address inside an object or none.
#[derive(Clone, Copy, Debug, PartialEq, Eq)]
pub(crate) enum Kind {
    Ref,
    Int,
    Inner,
}

/// The kinds of what a mutator's registers and its stack hold. The stack's top is the last of its first `depth` places.
#[derive(Clone, Copy, Debug)]
pub(crate) struct Table {
    pub(crate) registers: [Kind; 16],
    pub(crate) stack: [Kind; 64],
    pub(crate) depth: usize,
    ghost in_stack: { depth ≤ 64 },
}

impl Table {
    ghost use Rattle.sg_kinds.specs.Table.{kind_of, kinds_of};

    pub(crate) fn first() -> Table
        ensures { kinds_of result ≡ first_kinds }
    {
        Table {
            registers: [Kind::Ref; 16],
            stack: [Kind::Ref; 64],
            depth: 0,
        }
    }

    // Whether register r holds this.
    fn holds(&self, r: u8, kind: Kind) -> bool
        requires { r ≤ 15 }
        ensures { IsTrue result ↔ ((kinds_of self.now).register r ≡ kind_of kind) }
    {
        self.registers[r as usize] == kind
    }

    /// Whether the statement finds the kinds that it needs.
    pub(crate) fn meets(&self, statement: &Statement) -> bool
        requires { HasOperands statement.now }
        ensures { IsTrue result ↔ Needs (kinds_of self.now) statement.now }
    {
        match *statement {
            Statement::Put { r, s, .. } => self.holds(r, Kind::Ref) && self.holds(s, Kind::Ref),
            Statement::Get { r, .. } => self.holds(r, Kind::Ref),
            Statement::PutD { r, s, .. } => self.holds(r, Kind::Ref) && self.holds(s, Kind::Int),
            Statement::GetD { r, .. } => self.holds(r, Kind::Ref),
            Statement::Hide { s, .. } => self.holds(s, Kind::Ref),
            Statement::Unhide { s, .. } => self.holds(s, Kind::Inner),
            Statement::Push { .. } => self.depth < 64,
            Statement::Pop { .. } => self.depth > 0,
            Statement::GPut { r, .. } => self.holds(r, Kind::Ref),
            Statement::WSet { r, .. } => self.holds(r, Kind::Ref),
            Statement::Final { r } => self.holds(r, Kind::Ref),
            Statement::Same { r, s } => self.holds(r, Kind::Ref) && self.holds(s, Kind::Ref),
            _ => true,
        }
    }

    // Register r becomes of this kind.
    fn set(&mut self, r: u8, kind: Kind)
        requires { r ≤ 15 }
        ensures { kinds_of self.new ≡ sets (kinds_of self.old) r (kind_of kind) }
    {
        self.registers[r as usize] = kind;
    }

    // Register d becomes of the kind of register s.
    fn copy(&mut self, d: u8, s: u8)
        requires d { d ≤ 15 }
        requires s { s ≤ 15 }
        ensures { kinds_of self.new ≡ sets (kinds_of self.old) d ((kinds_of self.old).register s) }
    {
        self.set(d, self.registers[s as usize]);
    }

    // What register r holds goes onto the stack.
    fn push(&mut self, r: u8)
        requires r { r ≤ 15 }
        requires room { Needs (kinds_of self.old) (Push r) }
        ensures { kinds_of self.new ≡ kinds_after (kinds_of self.old) (Push r) }
    {
        self.stack[self.depth] = self.registers[r as usize];
        self.depth += 1;
    }

    // Register r gets the top of the stack.
    fn pop(&mut self, r: u8)
        requires r { r ≤ 15 }
        requires some { Needs (kinds_of self.old) (Pop r) }
        ensures { kinds_of self.new ≡ kinds_after (kinds_of self.old) (Pop r) }
    {
        self.depth -= 1;
        self.set(r, self.stack[self.depth]);
    }

    /// The kinds after a statement that finds the kinds that it needs.
    pub(crate) fn follow(&mut self, statement: &Statement)
        requires operands { HasOperands statement.now }
        requires needs { Needs (kinds_of self.old) statement.now }
        ensures { kinds_of self.new ≡ kinds_after (kinds_of self.old) statement.now }
    {
        match *statement {
            Statement::New { r, .. } => self.set(r, Kind::Ref),
            Statement::NewV { r, .. } => self.set(r, Kind::Ref),
            Statement::Mature { r, .. } => self.set(r, Kind::Ref),
            Statement::Get { d, .. } => self.set(d, Kind::Ref),
            Statement::GetD { d, .. } => self.set(d, Kind::Int),
            Statement::Num { d, .. } => self.set(d, Kind::Int),
            Statement::Move { d, s } => self.copy(d, s),
            Statement::Hide { d, .. } => self.set(d, Kind::Inner),
            Statement::Unhide { d, .. } => self.set(d, Kind::Ref),
            Statement::Drop { r } => self.set(r, Kind::Ref),
            Statement::Push { r } => self.push(r),
            Statement::Pop { r } => self.pop(r),
            Statement::GGet { r, .. } => self.set(r, Kind::Ref),
            Statement::WGet { r, .. } => self.set(r, Kind::Ref),
            Statement::NextFin { r } => self.set(r, Kind::Ref),
            _ => {}
        }
    }

    /// Whether all registers hold the same kinds, and the stacks are the same.
    pub(crate) fn is_same(&self, other: &Table) -> bool
        ensures { IsTrue result ↔ AreSame (kinds_of self.now) (kinds_of other.now) }
    {
        if self.depth != other.depth {
            return false;
        }
        if !agree(&self.registers, &other.registers, 16) {
            return false;
        }
        agree(&self.stack, &other.stack, self.depth)
    }
}
