ghost use Rattle.std.specs.Prelude.{◌≡◌, ◌≢◌, ◌+◌, ◌*◌, ◌≤◌, ◌∷◌, ◌++◌, false, true, List, [], length, if◌then◌else◌, IfOk, MatchOption, vec_capacity};
ghost use Rattle.std.specs.List.{AllByRecursion};
ghost use Rattle.sg_program.specs.declared.program.Statement.{Statement as AnyStatement};
ghost use Rattle.sg_program.specs.Scripts.{repeated, written_out};
ghost use Rattle.sg_program.specs.Invariants.{item_depth};
ghost use Rattle.sg_script.specs.Left.{left, FitsAtDepth, AreNested, IsAt, Stands, items_cost, cost};

use sg_program::{Item, Statement};
use std::alloc::{AllocError, Global};
use std::marker::Model;

/// How many bodies are gone through at once: the script, and repeats up to four deep inside one another.
const DEPTH: usize = 5;

/// A body that is gone through: the item that is next, and how many times the body is still to be done after this time.
#[derive(Clone, Copy, Drop)]
pub(crate) struct Frame<'a> {
    pub(crate) body: &'a [Item],
    pub(crate) at: usize,
    pub(crate) times: u32,
}

/// A place in a script. A contract sees it as the statements that are still to be done, with repeats written out.
#[derive(Drop)]
pub struct Cursor<'a> {
    // From the outermost body to the innermost.
    frames: Vec<Frame<'a>>,
}

impl<'a> Model for Cursor<'a> {
    ghost use Rattle.std.specs.Prelude.{◌≤◌, List, vec_capacity};
    ghost use Rattle.sg_program.specs.declared.program.Statement.{Statement};

    ghost Value = { List Statement };

    ghost use Rattle.sg_script.specs.Left.{left, AreNested, Stands};

    ghost view = { λ c. left c.frames.items };

    ghost invariant = { λ c. Stands c.frames.items × AreNested 0 c.frames.items × (5 ≤ vec_capacity c.frames) };
}

impl<'a> Cursor<'a> {
    /// Before the first statement of these items. Takes memory for five places, one for each depth of repeats.
    pub fn new(alloc: Global, items: &'a [Item]) -> Result<Cursor<'a>, AllocError>
        requires { AllByRecursion (λ item. item_depth item ≤ 4) items.now }
        ensures { IfOk result (λ cursor. cursor ≡ written_out items.now) }
    {
        let mut frames = Vec::with_capacity(alloc, DEPTH)?;
        frames.push(Frame {
            body: items,
            at: 0,
            times: 0,
        })?;
        settle(&mut frames);
        Ok(Cursor { frames })
    }

    /// The next statement.
    pub fn peek(&self) -> Option<Statement>
        ensures { MatchOption result (self.now ≡ []) (λ s. (rest : List AnyStatement) × (self.now ≡ s ∷ rest)) }
    {
        statement_at(self.frames.as_slice())
    }

    /// Goes past the next statement. Takes no memory; a repeat is gone through without being written out.
    pub fn advance(&mut self)
        requires { self.old ≢ [] }
        ensures { (s : AnyStatement) (rest : List AnyStatement) → self.old ≡ s ∷ rest → self.new ≡ rest }
    {
        pass(&mut self.frames);
        if !is_settled(self.frames.as_slice()) {
            settle(&mut self.frames);
        }
    }
}

// The statement that is next.
fn statement_at(frames: &[Frame]) -> Option<Statement>
    requires { Stands frames.now }
    ensures { MatchOption result (frames.now ≡ []) (IsAt frames.now) }
{
    let frame = frames.last()?;
    match &frame.body[frame.at] {
        Item::One(statement) => Some(*statement),
        Item::Repeat { .. } => None,
    }
}

// Goes past the next item of the innermost body.
fn pass(frames: &mut Vec<Frame>)
    requires stands { Stands frames.old.items }
    requires some { frames.old.items ≢ [] }
    requires nested { AreNested 0 frames.old.items }
    requires room { 5 ≤ vec_capacity frames.old }
    ensures left { (s : AnyStatement) (rest : List AnyStatement) → left frames.old.items ≡ s ∷ rest → left frames.new.items ≡ rest }
    ensures nested { AreNested 0 frames.new.items }
    ensures room { 5 ≤ vec_capacity frames.new }
{
    if let Some(frame) = frames.last_mut() {
        frame.at += 1;
    }
}

// Goes on until the next item is a statement, or nothing is left.
fn settle(frames: &mut Vec<Frame>)
    requires nested { AreNested 0 frames.old.items }
    requires room { 5 ≤ vec_capacity frames.old }
    ensures left { left frames.new.items ≡ left frames.old.items }
    ensures stands { Stands frames.new.items }
    ensures nested { AreNested 0 frames.new.items }
    ensures room { 5 ≤ vec_capacity frames.new }
{
    let mut more = !is_settled(frames.as_slice());
    while more {
        more = step(frames) && !is_settled(frames.as_slice());
    }
}

// Whether the next item is a statement, or nothing is left; it only looks.
fn is_settled(frames: &[Frame]) -> bool
    ensures { result ≡ true → Stands frames.now }
{
    let Some(frame) = frames.last() else {
        return true;
    };
    match frame.body.get(frame.at) {
        Some(Item::One(_)) => true,
        Some(Item::Repeat { .. }) | None => false,
    }
}

// One step on the way to the next statement; the answer is whether there was one to take.
fn step(frames: &mut Vec<Frame>) -> bool
    requires nested { AreNested 0 frames.old.items }
    requires room { 5 ≤ vec_capacity frames.old }
    ensures left { left frames.new.items ≡ left frames.old.items }
    ensures nested { AreNested 0 frames.new.items }
    ensures room { 5 ≤ vec_capacity frames.new }
    ensures stays { result ≡ false → Stands frames.new.items }
    ensures falls { cost frames.new.items + (if result then 1 else 0) ≤ cost frames.old.items }
{
    let Some(frame) = frames.last_mut() else {
        return false;
    };
    let items = frame.body;
    if items.len() <= frame.at {
        if frame.times > 0 {
            frame.at = 0;
            frame.times -= 1;
        } else {
            frames.pop();
        }
        return true;
    }
    match &items[frame.at] {
        Item::One(_) => false,
        Item::Repeat { times, body } => {
            frame.at += 1;
            enter(frames, body.as_slice(), *times);
            true
        }
    }
}

// Begins with this body, if it is to be done some times.
fn enter<'a>(frames: &mut Vec<Frame<'a>>, body: &'a [Item], times: u32)
    requires nested { AreNested 0 frames.old.items }
    requires fits { FitsAtDepth (length frames.old.items) body.now }
    requires room { 5 ≤ vec_capacity frames.old }
    ensures left { left frames.new.items ≡ repeated times (written_out body.now) ++ left frames.old.items }
    ensures nested { AreNested 0 frames.new.items }
    ensures room { 5 ≤ vec_capacity frames.new }
    ensures cost { cost frames.new.items ≡ cost frames.old.items + times * (1 + items_cost body.now) }
{
    if times > 0 {
        frames
            .push(Frame {
                body,
                at: 0,
                times: times - 1,
            })
            .unwrap();
    }
}
