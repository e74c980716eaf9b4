/// A limit of the language, one for each row of the table of limits, in its order.
#[derive(Clone, Copy, Debug, PartialEq, Eq)]
pub enum Which {
    /// The words of the nursery.
    Nursery,
    /// The blocks of the major heap.
    Blocks,
    /// The pages of the large space.
    Pages,
    /// The words of a buffer.
    Buffer,
    /// The workers of a pause.
    Workers,
    /// The threshold of cementing.
    Cement,
    /// The number of classes.
    Classes,
    /// The fields of a class.
    Fields,
    /// The fields of a vector.
    Vector,
    /// The number of a global.
    Global,
    /// The number of a weak link.
    Weak,
    /// The number of a repeat.
    Times,
    /// Repeats inside one another.
    Nesting,
    /// The statements of the program, repeats counted.
    Statements,
    /// Its statements `final`, repeats counted.
    Finals,
    /// The number of mutators.
    Mutators,
}
