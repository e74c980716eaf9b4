use sg_desc::Shape;
use sg_words::List;
use sqlite_items::Items;
use std::marker::Model;

/// The settings of a program. Sizes are in words, blocks or pages, as their names say.
#[derive(Clone, Copy, Debug, PartialEq, Eq)]
pub struct Config {
    /// Words of the nursery.
    pub nursery: u32,
    /// Blocks of the major heap.
    pub blocks: u32,
    /// Pages of the large space.
    pub pages: u32,
    /// The least number of words that a mutator takes from a fragment at once, where the fragment has them.
    pub buffer: u32,
    /// Workers of a pause.
    pub workers: u32,
    /// The count at which a pinned object is cemented.
    pub cement: u32,
}

/// The name of a class, which a contract sees as its bytes.
#[derive(Debug, Drop)]
pub struct Name {
    pub bytes: List<u8>,
}

impl Model for Name {
    ghost use Rattle.std.specs.Prelude.{ℕ, List as Sequence};

    ghost Value = { Sequence ℕ };

    ghost view = { λ n. n.bytes };
}

/// A class of objects.
#[derive(Debug, Drop)]
pub struct Class {
    pub name: Name,
    pub shape: Shape,
}

/// A statement of a script. Registers are numbers from 0 to 15, a class is its place in the program's list of classes,
/// globals and weak links are numbers from 0 to 63.
#[derive(Clone, Copy, Debug, PartialEq, Eq)]
pub enum Statement {
    /// Register `r` gets a new object of this class, which has its own number of fields.
    New { r: u8, class: u16 },
    /// Register `r` gets a new object of this class with `count` fields.
    NewV { r: u8, class: u16, count: u32 },
    /// Register `r` gets a new object of this class in the major heap.
    Mature { r: u8, class: u16 },
    /// The reference field `field` of the object in `r` gets what `s` holds.
    Put { r: u8, field: u64, s: u8 },
    /// Register `d` gets what the reference field `field` of the object in `r` holds.
    Get { d: u8, r: u8, field: u64 },
    /// The plain field `field` of the object in `r` gets the number in `s`.
    PutD { r: u8, field: u64, s: u8 },
    /// Register `d` gets the number in the plain field `field` of the object in `r`.
    GetD { d: u8, r: u8, field: u64 },
    /// Register `d` gets the number `n`.
    Num { d: u8, n: u64 },
    /// Register `d` gets what `s` holds.
    Move { d: u8, s: u8 },
    /// Register `d` gets the address of the byte `offset` of the object in `s`.
    Hide { d: u8, s: u8, offset: u64 },
    /// Register `d` gets the object into which the address in `s` points.
    Unhide { d: u8, s: u8 },
    /// Register `r` holds no object any more.
    Drop { r: u8 },
    /// What `r` holds goes onto the stack.
    Push { r: u8 },
    /// Register `r` gets the top of the stack.
    Pop { r: u8 },
    /// Global `g` gets what `r` holds.
    GPut { g: u8, r: u8 },
    /// Register `r` gets what global `g` holds.
    GGet { r: u8, g: u8 },
    /// Weak link `w`, a short or a long one, gets what `r` holds.
    WSet { w: u8, r: u8, long: bool },
    /// Register `r` gets the target of weak link `w`.
    WGet { r: u8, w: u8 },
    /// The object in `r` is registered for finalization.
    Final { r: u8 },
    /// Register `r` gets the oldest object that is ready for finalization.
    NextFin { r: u8 },
    /// Whether `r` and `s` hold the same object, or both none.
    Same { r: u8, s: u8 },
    /// A minor or a major pause, at a stop.
    Collect { major: bool },
    /// What stands in each section, at a stop.
    Sections,
}

/// A part of a script: a statement, or items that are done several times.
#[derive(Debug, Drop)]
pub enum Item {
    One(Statement),
    Repeat { times: u32, body: Items<Item> },
}

/// What one mutator does.
#[derive(Debug, Drop)]
pub struct Script {
    pub items: List<Item>,
}

/// A whole program.
#[derive(Debug, Drop)]
pub struct Program {
    pub config: Config,
    pub classes: List<Class>,
    pub mutators: List<Script>,
}
