/// Where a shared word stands.
#[derive(Clone, Copy, Debug, PartialEq, Eq)]
pub enum Place {
    /// The word that asks every mutator to stop.
    Stop,
    /// The next word of this fragment, which holds the byte address of the first word that wasn't given away.
    Next { fragment: u32 },
    /// The word with this number: its byte address divided by 8.
    Word { number: u64 },
    /// The word of this card: 0 where the card is clean.
    Card { card: u32 },
    /// The word that says how many entries of the ready row were taken.
    Head,
    /// The offer cell of this worker.
    Cell { worker: u32 },
}

/// The word of a block of the major heap. Sizes are in words.
#[derive(Clone, Copy, Debug, PartialEq, Eq)]
pub enum BlockWord {
    /// Nothing stands in it.
    Free,
    /// It has slots of this size.
    Swept { size: u32 },
    /// It is to be swept.
    Need { size: u32 },
    /// It is being swept.
    Sweeping { size: u32 },
}

/// One atomic step on a block's words, with what it saw. The occupancy and the marks of a block have a bit for each slot.
#[derive(Clone, Copy, Debug, PartialEq, Eq)]
pub enum BlockStep {
    /// A load of the block's word.
    LoadBlock {
        block: u32,
        saw: BlockWord,
    },
    /// A compare and exchange of the block's word that found what it expected.
    WonBlock {
        block: u32,
        seen: BlockWord,
        new: BlockWord,
    },
    /// A compare and exchange of the block's word that found another one, and changed nothing.
    LostBlock {
        block: u32,
        seen: BlockWord,
        new: BlockWord,
        found: BlockWord,
    },
    /// A store of the block's word.
    StoreBlock {
        block: u32,
        new: BlockWord,
    },
    /// A load of the occupancy.
    LoadUsed {
        block: u32,
        saw: u64,
    },
    /// A fetch-or that sets the bit of a slot in the occupancy, which was `found` before.
    OrUsed {
        block: u32,
        slot: u32,
        found: u64,
    },
    /// A store of the occupancy.
    StoreUsed {
        block: u32,
        new: u64,
    },
    /// A load of the marks.
    LoadMarks {
        block: u32,
        saw: u64,
    },
    /// A fetch-or that sets the bit of a slot in the marks, which were `found` before.
    OrMarks {
        block: u32,
        slot: u32,
        found: u64,
    },
    /// A store of the marks.
    StoreMarks {
        block: u32,
        new: u64,
    },
    /// The word with this number becomes zero.
    Zero {
        number: u64,
    },
}

/// One atomic step on shared words, with what it saw.
#[derive(Clone, Copy, Debug, PartialEq, Eq)]
pub enum Step {
    /// A load.
    Load {
        place: Place,
        saw: u64,
    },
    /// A store.
    Store {
        place: Place,
        new: u64,
    },
    /// A compare and exchange that found what it expected.
    Won {
        place: Place,
        seen: u64,
        new: u64,
    },
    /// A compare and exchange that found another word, and changed nothing.
    Lost {
        place: Place,
        seen: u64,
        new: u64,
        found: u64,
    },
    /// A step on a block's words.
    OnBlock {
        step: BlockStep,
    },
}

/// A call for a step on a block's words: all of the step but what it sees.
#[derive(Clone, Copy, Debug, PartialEq, Eq)]
pub enum BlockCall {
    LoadsBlock {
        block: u32,
    },
    SwapsBlock {
        block: u32,
        seen: BlockWord,
        new: BlockWord,
    },
    StoresBlock {
        block: u32,
        new: BlockWord,
    },
    LoadsUsed {
        block: u32,
    },
    OrsUsed {
        block: u32,
        slot: u32,
    },
    StoresUsed {
        block: u32,
        new: u64,
    },
    LoadsMarks {
        block: u32,
    },
    OrsMarks {
        block: u32,
        slot: u32,
    },
    StoresMarks {
        block: u32,
        new: u64,
    },
    Zeroes {
        number: u64,
    },
}

/// A call for a step: all of the step but what it sees.
#[derive(Clone, Copy, Debug, PartialEq, Eq)]
pub enum Call {
    Loads { place: Place },
    Stores { place: Place, new: u64 },
    Swaps { place: Place, seen: u64, new: u64 },
    OnBlocks { call: BlockCall },
}

/// A step of an actor; `decides` marks the one step of a statement that fixes its place in the order of statements.
#[derive(Clone, Copy, Debug, PartialEq, Eq)]
pub struct Tick {
    pub step: Step,
    pub decides: bool,
}
