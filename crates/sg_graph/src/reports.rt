use sg_program::{Answer, Leave};
use sg_words::{Addr, List, Move, Piece};

/// What one mutator did in an epoch.
#[derive(Debug, Drop)]
pub struct Part {
    /// The mutator's number.
    pub mutator: u32,
    /// The number of the first statement that it did, counted from 0 over the whole script.
    pub first: u32,
    /// Its answers in order.
    pub answers: List<Answer>,
    pub leave: Leave,
}

/// What happened in one epoch.
#[derive(Debug, Drop)]
pub struct EpochReport {
    /// The epoch's number, from 0.
    pub number: u32,
    /// Whether every mutator has ended.
    pub last: bool,
    /// A part for each mutator that hadn't ended before, in order of numbers.
    pub parts: List<Part>,
}

/// What a minor pause did. Each list is in increasing order of address.
#[derive(Debug, Drop)]
pub struct MinorReport {
    /// The objects that stayed because an ambiguous word points into them.
    pub pins: List<Addr>,
    /// The objects that moved to the major heap.
    pub moves: List<Move>,
    /// The objects that stayed because the major heap had no room for them.
    pub fails: List<Addr>,
    /// The places in the major heap that were taken for a copy and given back.
    pub spares: u32,
    /// The gaps of the nursery.
    pub pieces: List<Piece>,
}

/// What a major pause did, in all sections.
#[derive(Debug, Drop)]
pub struct MajorReport {
    /// How many objects were kept.
    pub kept: u32,
    /// How many objects were freed.
    pub freed: u32,
    /// The gaps of the nursery, in increasing order of address.
    pub pieces: List<Piece>,
}

/// A block in which something stands.
#[derive(Clone, Copy, Debug, PartialEq, Eq)]
pub struct BlockLine {
    /// The block's number.
    pub block: u32,
    /// The words of its slots.
    pub size: u32,
    /// In how many of them an object stands.
    pub used: u32,
}

/// What stands in each section.
#[derive(Debug, Drop)]
pub struct Sections {
    /// How many objects stand in the nursery.
    pub young: u32,
    /// The words of these.
    pub young_words: u32,
    /// The blocks of the major heap in which something stands, in order of numbers.
    pub blocks: List<BlockLine>,
}

/// The answer to one request.
#[derive(Debug, Drop)]
pub struct Service {
    /// The mutator's number.
    pub mutator: u32,
    /// The number of the statement that asked, counted from 0 over the whole script.
    pub statement: u32,
    pub answer: Answer,
    /// What stands in each section, where the statement asked for that.
    pub sections: Option<Sections>,
}

/// What happened at one stop.
#[derive(Debug, Drop)]
pub struct StopReport {
    /// The number of the epoch before it.
    pub number: u32,
    /// The minor pause, if there was one.
    pub minor: Option<MinorReport>,
    /// The major pause behind it, if there was one.
    pub major: Option<MajorReport>,
    /// The answers to the requests, in order of mutators.
    pub served: List<Service>,
}
