use sg_limits::Which;

/// Why an input isn't read. Lines are numbered from 1; a text that isn't whole is refused at the number of its line feeds
/// plus 1.
#[derive(Clone, Copy, Debug, PartialEq, Eq)]
pub enum Refusal {
    /// There are more than 1,048,576 bytes.
    TooLong,
    /// The grammar refuses this line first.
    Syntax { line: u32 },
    /// This line is the first that names a class that isn't declared above it, declares one twice, or names one that has the
    /// wrong shape for its statement.
    Class { line: u32 },
    /// This line is the first that breaks a limit, and this is the first limit that it breaks.
    Limit { line: u32, which: Which },
    /// This line is the first that is of the language and isn't run yet.
    Later { line: u32 },
    /// Memory was wanted.
    Memory,
}
