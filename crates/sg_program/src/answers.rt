use sg_words::Addr;

/// What a statement answers.
#[derive(Clone, Copy, Debug, PartialEq, Eq)]
pub enum Answer {
    /// The address of an object.
    At(Addr),
    /// No object.
    Nil,
    /// The register holds no object.
    Null,
    /// A number.
    Number(u64),
    /// It is done.
    Fine,
    /// Both are the same object, or none.
    Yes,
    /// They aren't.
    No,
    /// The object has no such field, or it is of another sort.
    Field,
    /// There is no room for the object.
    Full,
}

/// What a mutator asks a stop for. Its next statement is the one that asks, and the stop answers it.
#[derive(Clone, Copy, Debug, PartialEq, Eq)]
pub enum Request {
    /// Room for a new object of this many words.
    Need { words: u32 },
    /// A slot of this many words in the major heap.
    Slot { size: u32 },
    /// A minor pause.
    Minor,
    /// A minor pause, and a major one behind it.
    Major,
    /// What stands in each section.
    Sections,
}

/// How a mutator leaves an epoch.
#[derive(Clone, Copy, Debug, PartialEq, Eq)]
pub enum Leave {
    /// No statement is left.
    Ended,
    /// A statement is left, and another mutator asks for a stop.
    Yield,
    /// It asks for this.
    Wants(Request),
}
