//! Copying workers that race to forward: the program of a worker by atomic steps, and what the steps of any number of workers, in any
//! legal list, say of the heap. No function does anything: each has a law for its contract.
#![tactic(auto)]

mod laws;

pub use laws::{
    bounded, goes_always, goes_so_far, more_items, one_order_of_copies, one_worker, opens_so_far,
    racing_law, released, tells_so_far,
};
