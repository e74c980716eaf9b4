//! Reports, and the heap of named objects that a run is compared with.
//!
//! The definitions of that heap, of its statements, of the book of addresses, of epochs, pauses, stops and runs, and of the
//! words that hold it, stand in `specs/`.
#![tactic(auto)]

mod laws;
mod names;
mod reports;

pub use laws::{
    blocks_are_swept, blocks_go, ends_behind_last, full_is_last, keeps_in_major,
    keeps_pointed_into, one_report, one_search, one_turn, places_by_room, places_by_words,
    quiet_pause, runs_by_turns, searches_all, sweeps_once, turns_keep_old,
};
pub use names::names_are_pairs;
pub use reports::{
    BlockLine, EpochReport, MajorReport, MinorReport, Part, Sections, Service, StopReport,
};
pub use sg_program::{
    Answer, Class, Config, Item, Leave, Name, Program, Request, Script, Statement, script_finals,
    script_total, total,
};
