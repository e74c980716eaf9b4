//! Where bytes come from and where they go: a source and a sink whose calls may fail, with a count of
//! the faults, over std's readers and writers and in memory.
#![tactic(auto)]

mod adapters;
mod calls;
mod failed;
mod memory_sink;
mod memory_source;
mod ports;

pub use adapters::{StdSink, StdSource};
pub use failed::{Failed, OutOfMemory};
pub use memory_sink::MemorySink;
pub use memory_source::MemorySource;
pub use ports::{Sink, Source};

#[cfg(test)]
mod tests;
