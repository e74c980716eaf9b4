// The place of a new object at a stop, when no mutator is at work.
ghost use Rattle.std.specs.Prelude.{◌≡◌, ◌+◌, ◌<◌, ◌≤◌, ℕ, List, ◌∷◌, length, MatchOption};
ghost use Rattle.sg_words.specs.Address.{byte_at, word_at};
ghost use Rattle.sg_words.specs.Sections.{IsInSection, IsLayout};
ghost use Rattle.sg_words.specs.Blocks.{IsSizeClass, slot_base, slots as slots_of};
ghost use Rattle.sg_program.specs.declared.answers.Request.{Request};
ghost use Rattle.sg_program.specs.declared.program.Statement.{Statement as AnyStatement};
ghost use Rattle.sg_program.specs.Scripts.{words_for, fields_of as fields_in, IsRequestOf};
ghost use Rattle.sg_graph.specs.Graph.{Graph};
ghost use Rattle.sg_graph.specs.Book.{Book, slot_words};
ghost use Rattle.sg_graph.specs.Invariants.{IsPlain};
ghost use Rattle.sg_space.specs.Space.{IsContents};
ghost use Rattle.sg_frag.specs.Plain.{KeepsSections};
ghost use Rattle.sg_heap.specs.Holding.{HoldsHeap};
ghost use Rattle.sg_rules.specs.Resting.{IsRunnable};
ghost use Rattle.sg_placing.specs.Answering.{placing_in, FitsRoom, FitsStatement, HasAnswered};
ghost use Rattle.sg_placing.specs.Placing.{EndsInside, HasByteAddresses, HoldsNew, HasNowhere, IsMade, headed};
ghost use Rattle.sg_placing.specs.Placing.{HasClearSlot, LacksClearSlot, HasNoClearSlot, FillsSlot, IsMadeOld};

use sg_blocks::{size_for, slots};
use sg_graph::{Answer, Program, Statement, blocks_go};
use sg_order::runnable_makes;
use sg_space::Space;
use sg_words::{Addr, BLOCK_WORDS, BlockWord, Layout, Tag, first_clear, write_tag};

/// Where a new object of the nursery may be placed at a stop.
#[derive(Clone, Copy, Debug, PartialEq, Eq)]
pub enum Room {
    /// At the front of a fragment.
    Fragments,
    /// There, or where no fragment has room in a slot of the major heap.
    SlotsToo,
}

/// The answer to a statement that asked for a stop. Linear in the fragments, and in the blocks where slots are given.
pub fn answer_to(program: &Program, space: &mut Space, asking: Statement, room: Room) -> Answer
    requires contents { IsContents space.old }
    requires few { length program.now.classes ≤ 256 }
    requires run { IsRunnable program.now asking }
    requires asks { (request : Request) × IsRequestOf program.now asking request }
    requires held { (g : Graph) × (b : Book) × HoldsHeap program.now space.old g b × IsPlain program.now g ×
        FitsRoom program.now b room × FitsStatement program.now b asking }
    ensures answered { (g : Graph) (b : Book) (k : ℕ) (rest : List AnyStatement) → HoldsHeap program.now space.old g b → IsPlain program.now g →
        FitsRoom program.now b room → FitsStatement program.now b asking → (g.mutator k).script ≡ asking ∷ rest →
        HasAnswered program.now (placing_in room) g b k asking rest result space.new }
    ensures contents { IsContents space.new }
    ensures keeps { KeepsSections space.old space.new }
    ensures stop { space.new.stop ≡ space.old.stop }
{
    // The laws that it rests on: these calls do nothing.
    runnable_makes();
    blocks_go();
    match asking {
        Statement::New { class, .. } => make(space, class, fields_of(program, class), room),
        Statement::NewV { class, count, .. } => make(space, class, count, room),
        Statement::Mature { class, .. } => make_old(space, class, fields_of(program, class)),
        Statement::Collect { .. } => Answer::Fine,
        Statement::Sections => Answer::Fine,
        _ => unreachable!(),
    }
}

/// A new object of this class, with so many fields, or none where there is no room for it.
fn make(space: &mut Space, class: u16, fields: u32, room: Room) -> Answer
    requires contents { IsContents space.old }
    requires ends { EndsInside space.old }
    requires bytes { HasByteAddresses space.old }
    requires class { class < 256 }
    requires fields { fields ≤ 62 }
    ensures made { IsMade room space.old class fields result space.new }
    ensures contents { IsContents space.new }
    ensures keeps { KeepsSections space.old space.new }
    ensures stop { space.new.stop ≡ space.old.stop }
{
    if let Some(at) = place(space, class, fields) {
        return Answer::At(at);
    }
    match room {
        Room::Fragments => Answer::Full,
        Room::SlotsToo => make_old(space, class, fields),
    }
}

/// A new object of this class, with so many fields, in a slot of the major heap, or none where there is no slot for it.
fn make_old(space: &mut Space, class: u16, fields: u32) -> Answer
    requires contents { IsContents space.old }
    requires class { class < 256 }
    requires fields { fields ≤ 62 }
    ensures made { IsMadeOld space.old class fields result space.new }
    ensures contents { IsContents space.new }
    ensures keeps { KeepsSections space.old space.new }
    ensures stop { space.new.stop ≡ space.old.stop }
{
    match place_in_slot(space, class, fields) {
        Some(at) => Answer::At(at),
        None => Answer::Full,
    }
}

/// Room for a new object of this class, and with so many fields, at the front of the lowest fragment that has it: the object's
/// address. Its header is written. `None` where no fragment has room.
fn place(space: &mut Space, class: u16, fields: u32) -> Option<Addr>
    requires contents { IsContents space.old }
    requires ends { EndsInside space.old }
    requires bytes { HasByteAddresses space.old }
    requires class { class < 256 }
    requires fields { fields ≤ 62 }
    ensures placed { MatchOption result (HasNowhere space.old (words_for fields) × (space.new ≡ space.old)) (HoldsNew space.old class fields space.new) }
{
    let words = fields as u64 + 2;
    for fragment in 0..space.fragments() {
        let next = space.next(fragment) / 8;
        if next + words <= space.end_of(fragment) / 8 {
            space.set_next(fragment, 8 * (next + words));
            let at = Addr::at_word(next);
            write_header(space, at, class, fields);
            return Some(at);
        }
    }
    None
}

/// The first clear slot of the major heap for a new object of this class, and with so many fields: the object's address. The slot is
/// occupied, and the header is written. `None` where no block has such a slot.
fn place_in_slot(space: &mut Space, class: u16, fields: u32) -> Option<Addr>
    requires contents { IsContents space.old }
    requires class { class < 256 }
    requires fields { fields ≤ 62 }
    ensures placed { MatchOption result (HasNoClearSlot space.old (slot_words fields) × (space.new ≡ space.old)) (FillsSlot space.old class fields space.new) }
{
    let size = size_for(fields + 2)?;
    let layout = space.layout();
    for block in 0..layout.blocks {
        if let Some(slot) = clear_slot(space, block, size) {
            space.set_block(block, BlockWord::Swept { size });
            space.set_used(block, space.used(block) | (1 << slot));
            let at = slot_address(layout, block, size, slot);
            write_header(space, at, class, fields);
            return Some(at);
        }
    }
    None
}

/// The lowest clear slot of this block, where it is free or has slots of `size` words.
fn clear_slot(space: &Space, block: u32, size: u32) -> Option<u32>
    requires contents { IsContents space.now }
    requires there { block < length space.now.blocks }
    requires class { IsSizeClass size }
    ensures { MatchOption result (LacksClearSlot space.now size block) (HasClearSlot space.now size block) }
{
    let word = space.block(block);
    if word == BlockWord::Free {
        return Some(0);
    }
    if word == (BlockWord::Swept { size }) {
        return first_clear(space.used(block), slots(size));
    }
    None
}

/// The address of this slot of a block that has slots of `size` words.
fn slot_address(layout: Layout, block: u32, size: u32, slot: u32) -> Addr
    requires layout { IsLayout layout }
    requires there { block < layout.blocks }
    requires class { IsSizeClass size }
    requires fits { slot < slots_of size }
    ensures { result ≡ byte_at (slot_base layout block size slot) }
{
    let first = layout.old_word() + BLOCK_WORDS * block as u64;
    Addr::at_word(first + size as u64 * slot as u64)
}

/// Writes the header of an object of this class, and with so many fields, at this address.
fn write_header(space: &mut Space, at: Addr, class: u16, fields: u32)
    requires contents { IsContents space.old }
    requires tag { IsInSection space.old.layout (word_at at) }
    requires length { IsInSection space.old.layout (word_at at + 1) }
    requires class { class < 256 }
    ensures { space.new ≡ headed space.old (word_at at) class fields }
{
    space.write(at.plus(1), fields as u64);
    space.write(at, write_tag(Tag::Plain { class }));
}

/// How many fields each object of a class has.
fn fields_of(program: &Program, class: u16) -> u32
    requires { class < length program.now.classes }
    ensures { result ≡ fields_in program.now class }
{
    program.classes.as_slice()[class as usize].shape.fields
}
