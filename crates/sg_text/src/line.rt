//! What a line says, with its names and numbers as they are written.
ghost use Rattle.std.specs.Prelude.{◌≡◌};
ghost use Rattle.sg_program.specs.Limits.{MayHave};
ghost use Rattle.sg_text.specs.Reading.{shape_in};

use crate::words::mask_bits;
use sg_desc::{Descriptor, Shape};
use sg_program::Statement;

/// A setting of a program, by the word with which its line begins.
#[derive(Clone, Copy, Debug, PartialEq, Eq)]
pub enum Setting {
    /// `nursery`
    Nursery,
    /// `blocks`
    Blocks,
    /// `pages`
    Pages,
    /// `buffer`
    Buffer,
    /// `workers`
    Workers,
    /// `cement`
    Cement,
}

/// How a line asks for a new object.
#[derive(Clone, Copy, Debug, PartialEq, Eq)]
pub enum Maker {
    /// `new`
    Fixed,
    /// `newv`, with this number of fields
    Vector { count: u64 },
    /// `mature`
    Mature,
}

/// The shape of a class, with its numbers as they are written.
#[derive(Clone, Copy, Debug, PartialEq, Eq)]
pub enum Form<'a> {
    /// `plain N`
    Plain { fields: u64 },
    /// `run N FIRST COUNT`
    Run { fields: u64, first: u64, count: u64 },
    /// `map MASK`
    Map { mask: &'a [u8] },
    /// `refs`
    Refs,
    /// `words`
    Words,
    /// `pair`
    Pair,
}

impl<'a> Form<'a> {
    /// The shape of a class within the limits. Linear in the bytes of a mask.
    pub fn shape(&self) -> Shape
        requires { MayHave (shape_in self.now).kind (shape_in self.now).fields }
        ensures { result ≡ shape_in self.now }
    {
        match *self {
            Form::Plain { fields } => Shape {
                fields: fields as u32,
                kind: Descriptor::PtrFree,
            },
            Form::Run {
                fields,
                first,
                count,
            } => Shape {
                fields: fields as u32,
                kind: Descriptor::Run {
                    first: first as u32,
                    count: count as u32,
                },
            },
            Form::Map { mask } => Shape {
                fields: mask.len() as u32,
                kind: Descriptor::Bitmap {
                    bits: mask_bits(mask),
                },
            },
            Form::Refs => Shape {
                fields: 0,
                kind: Descriptor::VectorRefs,
            },
            Form::Words => Shape {
                fields: 0,
                kind: Descriptor::VectorPlain,
            },
            Form::Pair => Shape {
                fields: 2,
                kind: Descriptor::Ephemeron,
            },
        }
    }
}

/// A statement with the number of a global or of a weak link.
#[derive(Clone, Copy, Debug, PartialEq, Eq)]
pub enum Cell {
    /// `gput`
    GPut,
    /// `gget`
    GGet,
    /// `wset`, to a short link or a long one
    WSet { long: bool },
    /// `wget`
    WGet,
}

/// What a line says.
#[derive(Clone, Copy, Debug, PartialEq, Eq)]
pub enum Line<'a> {
    /// `sgen 1`
    Head,
    /// A setting, and its value.
    Setting { setting: Setting, n: u64 },
    /// `class NAME` and a shape.
    Class { name: &'a [u8], form: Form<'a> },
    /// `mutator`
    Mutator,
    /// `repeat N`
    Repeat { times: u64 },
    /// `end`
    End,
    /// A statement that makes an object.
    Make { maker: Maker, r: u8, name: &'a [u8] },
    /// A statement about a global or a weak link.
    At { cell: Cell, r: u8, place: u64 },
    /// Any other statement.
    Do(Statement),
}
