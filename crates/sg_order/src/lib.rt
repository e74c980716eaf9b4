//! What the atomic steps of mutators say of whole statements: how the words stand to the heap of named objects between two
//! statements, and the laws of one order. No function does anything: each has a law for its contract.
#![tactic(auto)]

mod order;

pub use order::{
    first_opening, goes_always, goes_so_far, held_is_sound, held_whoever, one_order, opens_so_far,
    orders_so_far, runnable_makes, serves_ready, stays_ready,
};
