//! The copying of live young objects to the slots of the major heap's blocks, by workers over ports; and a round of one worker.
#![tactic(auto)]

mod copier;
mod exchanges;
mod gray;
mod handling;
mod plain;
mod port;
mod round;
mod scanning;
mod writing;

pub use copier::{Copier, Hand, Job, Stage};
pub use gray::Gray;
pub use plain::PlainRound;
pub use port::CopyPort;
pub use round::{Round, copy_one};

#[cfg(test)]
mod tests;
