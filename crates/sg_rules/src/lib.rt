//! The programs of a mutator and of the background sweeper: which atomic steps on the shared words come next, which of them decides
//! a statement, and what the actor is then. They stand in `specs/`; each function has a law for its contract.
#![tactic(auto)]

mod laws;

pub use laws::{built_runs, steps_are_careful};
