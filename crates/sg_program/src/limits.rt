//! The limits of the language.

/// Bytes of an input.
pub const MOST_BYTES: usize = 1_048_576;

/// Words of the nursery, whose number is a multiple of [`NURSERY_STEP`].
pub const LEAST_NURSERY: u64 = 256;

pub const MOST_NURSERY: u64 = 65_536;

pub const NURSERY_STEP: u64 = 64;

/// Blocks of the major heap, of which there is one at least.
pub const MOST_BLOCKS: u64 = 4096;

/// Pages of the large space.
pub const MOST_PAGES: u64 = 1024;

/// Words that a mutator takes from a fragment at once.
pub const LEAST_BUFFER: u64 = 16;

pub const MOST_BUFFER: u64 = 1024;

/// Workers of a pause, of which there is one at least.
pub const MOST_WORKERS: u64 = 8;

/// The count at which a pinned object is cemented, 1 at least.
pub const MOST_CEMENT: u64 = 1000;

/// Classes of a program.
pub const MOST_CLASSES: usize = 256;

/// Fields of a class, and of a vector in the nursery.
pub const MOST_FIELDS: u64 = 62;

/// Fields of a class by a mask.
pub const MOST_MASK: usize = 60;

/// Fields of a vector.
pub const MOST_VECTOR: u64 = 131_070;

/// The number of the last register.
pub const LAST_REGISTER: u64 = 15;

/// The number of the last global and of the last weak link.
pub const LAST_PLACE: u64 = 63;

/// How often a repeat does its body, once at least.
pub const MOST_TIMES: u64 = 1_048_576;

/// Repeats inside one another.
pub const MOST_NESTING: usize = 4;

/// Statements of a program, repeats counted.
pub const MOST_STATEMENTS: u64 = 1_048_576;

/// Statements `final` of a program, repeats counted.
pub const MOST_FINALS: u64 = 1024;

/// Mutators of a program, of which there is one at least.
pub const MOST_MUTATORS: usize = 16;
