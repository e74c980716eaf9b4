// What a stop does before it answers: the owed sweep, a minor pause, a major one behind it, and the owed sweep again.
ghost use Rattle.std.specs.List.{AllByRecursion};
ghost use Rattle.std.specs.Prelude.{◌≡◌, ◌≢◌, ℕ, ◌≤◌, ◌++◌, ◌⊎◌, ◌↔◌, true, false, Some, List as Sequence, [], length, IfOk, IsTrue, is_some};
ghost use Rattle.sg_words.specs.Blocks.{IsSizeClass};
ghost use Rattle.sg_words.specs.Lists.{Pairwise};
ghost use Rattle.sg_program.specs.declared.program.Program.{Program as AnyProgram};
ghost use Rattle.sg_graph.specs.declared.reports.MinorReport.{MinorReport as AnyReport};
ghost use Rattle.sg_graph.specs.Graph.{Graph};
ghost use Rattle.sg_graph.specs.Book.{Book, swept_out};
ghost use Rattle.sg_graph.specs.Invariants.{IsPlain};
ghost use Rattle.sg_graph.specs.Laws.{AreAsking, LacksWords, LacksSlots};
ghost use Rattle.sg_graph.specs.Stop.{Asked};
ghost use Rattle.sg_space.specs.Space.{IsContents};
ghost use Rattle.sg_space.specs.Standing.{block_in, used_in};
ghost use Rattle.sg_heap.specs.Holding.{HoldsHeap, OwesNothing};
ghost use Rattle.sg_minor.specs.Parts.{HoldsSome};
ghost use Rattle.sg_major.specs.Parts.{HasNoBuffer};
ghost use Rattle.sg_placing.specs.declared.placing.Room.TheVariants.{SlotsToo};
ghost use Rattle.sg_actor.specs.State.{DropsBuffer};
ghost use Rattle.sg_world.specs.Telling.{goes};
ghost use Rattle.sg_world.specs.Stopping.{held_by, held_in, HaveRegisters, AreWanted, HaveBuffersBy};
ghost use Rattle.sg_world.specs.Steps.{HoldsAny, HasMadeMinor, HasMadeMajor, HasMadeRoom, HasHalted};

use crate::wants::Wants;
use sg_actor::Mutator;
use sg_finish::finish;
use sg_graph::{MajorReport, MinorReport, places_by_room, places_by_words};
use sg_heap::sweep_law;
use sg_major::major;
use sg_minor::{found_in, minor};
use sg_placing::Room;
use sg_room::lacks_room;
use sg_space::Space;
use std::alloc::{AllocError, Global};

/// What a stop has done before it answers.
#[derive(Drop)]
pub(crate) struct Halted {
    pub(crate) space: Space,
    pub(crate) minor: Option<MinorReport>,
    pub(crate) major: Option<MajorReport>,
    /// Where new objects may be placed.
    pub(crate) room: Room,
}

/// All that a stop does before it answers: the stop word is cleared, and the owed blocks are swept; then, where the requests want that, a minor
/// pause, a major one, and the sweep of the blocks that it owes. `words` are those in the mutators' hands; without `owes` no block is owed, so that none
/// is looked at.
///
/// Takes the time and the memory of the pauses that are made. Where memory runs out the space is lost.
pub(crate) fn halt(
    alloc: Global,
    space: Space,
    owes: bool,
    words: &[u64],
    wants: &Wants,
) -> Result<Halted, AllocError>
    requires some { (p : AnyProgram) × (g : Graph) × (b : Book) × (requests : Sequence Asked) × HoldsHeap p space g b × IsPlain p g × AreAsking p g requests
        × AreWanted requests wants.now × (owes ≡ false → OwesNothing p b) }
    ensures halted { IfOk result (λ halt. (p : AnyProgram) (g : Graph) (b : Book) (requests : Sequence Asked) → HoldsHeap p space g b →
        (owes ≡ false → OwesNothing p b) → IsPlain p g → AreAsking p g requests → AreWanted requests wants.now →
        HasHalted p g b words.now requests halt.minor halt.major halt.room halt.space) }
    ensures contents { IfOk result (λ halt. IsContents halt.space) }
    ensures going { IfOk result (λ halt. halt.space.stop ≡ 0) }
{
    // The law that it rests on: this call does nothing.
    sweep_law();
    let mut space = space;
    space.set_stopping(false);
    begin(&mut space, owes);
    let (space, minor) = minor_pause(alloc, space, words, wants)?;
    let (space, major) = major_pause(alloc, space, words, wants, &minor)?;
    let mut space = space;
    let room = make_room(alloc, &mut space, wants, major.is_some())?;
    let _ = space.layout();
    Ok(Halted {
        space,
        minor,
        major,
        room,
    })
}

/// Sweeps all blocks that are owed, where some may be.
fn begin(space: &mut Space, owes: bool)
    requires some { (p : AnyProgram) × (g : Graph) × (b : Book) × HoldsHeap p space.old g b × (owes ≡ false → OwesNothing p b) }
    ensures swept { (p : AnyProgram) (g : Graph) (b : Book) → HoldsHeap p space.old g b → (owes ≡ false → OwesNothing p b) →
        HoldsHeap p space.new g (swept_out b) }
    ensures stop { space.new.stop ≡ space.old.stop }
{
    // The law that it rests on: this call does nothing.
    sweep_law();
    let _ = space.layout();
    if !owes {
        return;
    }
    sweep_out(space);
}

/// Sweeps all blocks that are owed. Linear in their words and in the blocks.
fn sweep_out(space: &mut Space)
    requires some { HoldsAny space.old }
    ensures swept { (p : AnyProgram) (g : Graph) (b : Book) → HoldsHeap p space.old g b → HoldsHeap p space.new g (swept_out b) }
    ensures stop { space.new.stop ≡ space.old.stop }
{
    // The law that it rests on: this call does nothing.
    sweep_law();
    let _ = space.layout();
    finish(space);
}

/// Whether something is wanted: it is given that it is, or the fragments have no room for these words, or the blocks none for these slots. Linear in
/// the fragments for each number of words, and in the blocks for each slot.
fn is_wanted(alloc: Global, space: &Space, given: bool, wants: &Wants) -> Result<bool, AllocError>
    requires classes { AllByRecursion IsSizeClass wants.now.sizes.items }
    ensures { IfOk result (λ wanted. (p : AnyProgram) (g : Graph) (b : Book) → HoldsHeap p space.now g b →
        (wanted ≡ true) ↔ (IsTrue given ⊎ (LacksWords b.fragments b.limit b.next wants.now.needs.items
        ⊎ LacksSlots p.config.blocks (block_in space.now) (used_in space.now) wants.now.sizes.items))) }
{
    if given {
        return Ok(true);
    }
    let lacks = lacks_room(alloc, space, wants.needs.as_slice(), wants.sizes.as_slice())?;
    Ok(lacks)
}

/// A minor pause, where the requests want one. Takes the time and the memory of one.
fn minor_pause(
    alloc: Global,
    space: Space,
    words: &[u64],
    wants: &Wants,
) -> Result<(Space, Option<MinorReport>), AllocError>
    requires some { HoldsSome space }
    requires classes { AllByRecursion IsSizeClass wants.now.sizes.items }
    ensures made { IfOk result (λ r. (p : AnyProgram) (g : Graph) (b : Book) (requests : Sequence Asked) → HoldsHeap p space g b → OwesNothing p b →
        IsPlain p g → AreAsking p g requests → AreWanted requests wants.now → HasMadeMinor p g b words.now requests r.1 r.0) }
    ensures stop { IfOk result (λ r. r.0.stop ≡ space.stop) }
{
    // The law that it rests on: this call does nothing.
    places_by_room();
    if !is_wanted(alloc, &space, wants.minor, wants)? {
        return Ok((space, None));
    }
    let found = found_in(alloc, &space)?;
    let (space, report) = minor(alloc, space, words, found)?;
    Ok((space, Some(report)))
}

/// A major pause behind this minor one, where the requests want one or an object failed. Takes the time and the memory of one.
fn major_pause(
    alloc: Global,
    space: Space,
    words: &[u64],
    wants: &Wants,
    minor: &Option<MinorReport>,
) -> Result<(Space, Option<MajorReport>), AllocError>
    requires some { (p : AnyProgram) × (g : Graph) × (b : Book) × HoldsHeap p space g b × OwesNothing p b × IsPlain p g
        × ((report : AnyReport) → minor.now ≡ Some report → HasNoBuffer b) }
    requires classes { AllByRecursion IsSizeClass wants.now.sizes.items }
    ensures made { IfOk result (λ r. (p : AnyProgram) (g : Graph) (b : Book) (requests : Sequence Asked) → HoldsHeap p space g b → OwesNothing p b →
        IsPlain p g → ((report : AnyReport) → minor.now ≡ Some report → HasNoBuffer b) → AreAsking p g requests → AreWanted requests wants.now →
        HasMadeMajor p g b words.now requests minor.now r.1 r.0) }
    ensures stop { IfOk result (λ r. r.0.stop ≡ space.stop) }
{
    // The law that it rests on: this call does nothing.
    places_by_room();
    let Some(minor) = minor else {
        return Ok((space, None));
    };
    let given = has_cause(minor, wants);
    if !is_wanted(alloc, &space, given, wants)? {
        return Ok((space, None));
    }
    let (space, report) = major(alloc, space, words)?;
    Ok((space, Some(report)))
}

/// Whether there is a cause for a major pause behind this minor one, whatever has room: a request, or an object that failed.
fn has_cause(minor: &MinorReport, wants: &Wants) -> bool
    ensures { result ≡ true ↔ (IsTrue wants.now.major ⊎ (minor.now.fails ≢ [])) }
{
    if wants.major {
        return true;
    }
    has_failed(minor)
}

/// Whether an object failed in this minor pause.
fn has_failed(minor: &MinorReport) -> bool
    ensures { result ≡ true ↔ minor.now.fails ≢ [] }
{
    !minor.fails.as_slice().is_empty()
}

/// Sweeps the blocks that a major pause owes, where the requests want that, and tells where new objects may be placed. Linear in the blocks and in the
/// words of those that are swept.
fn make_room(
    alloc: Global,
    space: &mut Space,
    wants: &Wants,
    major: bool,
) -> Result<Room, AllocError>
    requires some { HoldsAny space.old }
    requires classes { AllByRecursion IsSizeClass wants.now.sizes.items }
    ensures made { IfOk result (λ room. (p : AnyProgram) (g : Graph) (b : Book) (requests : Sequence Asked) → HoldsHeap p space.old g b →
        (major ≡ false → OwesNothing p b) → AreAsking p g requests → AreWanted requests wants.now → HasMadeRoom p g b requests major room space.new) }
    ensures stop { space.new.stop ≡ space.old.stop }
{
    // The law that it rests on: this call does nothing.
    places_by_words();
    if !major {
        return Ok(Room::Fragments);
    }
    if !is_wanted(alloc, space, wants.blocks, wants)? {
        return Ok(Room::Fragments);
    }
    sweep_out(space);
    Ok(Room::SlotsToo)
}

/// Whether some block may be owed behind these pauses: a major one left all in fragments.
pub(crate) fn may_owe(major: &Option<MajorReport>, room: Room) -> bool
    ensures { result ≡ false → (is_some major.now ≡ false) ⊎ (room ≡ SlotsToo) }
{
    match room {
        Room::Fragments => major.is_some(),
        Room::SlotsToo => false,
    }
}

/// No mutator has a buffer any more behind a minor pause; without one all stays as it is.
pub(crate) fn settle_buffers(minor: &Option<MinorReport>, mutators: &mut [Mutator<'_>])
    ensures { HaveBuffersBy minor.now mutators.old mutators.new }
{
    if minor.is_some() {
        drop_buffers(mutators);
    }
}

/// No mutator has a buffer any more.
fn drop_buffers(mutators: &mut [Mutator<'_>])
    ensures { Pairwise DropsBuffer mutators.old mutators.new }
{
    for k in 0..mutators.len() {
        mutators[k].drop_buffer();
    }
}

/// The words in the registers and on the stacks of the mutators that haven't ended: what a pause can't tell from addresses.
pub(crate) fn ambiguous(alloc: Global, mutators: &[Mutator<'_>]) -> Result<Vec<u64>, AllocError>
    requires { length mutators.now ≤ 16 }
    ensures words { IfOk result (λ words. words.items ≡ held_in mutators.now) }
    ensures registers { IfOk result (λ _. HaveRegisters mutators.now) }
{
    let mut words = Vec::with_capacity(alloc, 80 * mutators.len())?;
    for k in 0..mutators.len() {
        add_words(&mut words, &mutators[k])?;
    }
    Ok(words)
}

/// Adds the words in this mutator's registers and on its stack, where it hasn't ended.
fn add_words(words: &mut Vec<u64>, mutator: &Mutator<'_>) -> Result<(), AllocError>
    ensures words { IfOk result (λ _. words.new.items ≡ words.old.items ++ held_by mutator.now mutator.now.stage) }
    ensures registers { IfOk result (λ _. goes mutator.now.stage ≡ true → length mutator.now.registers ≡ 16) }
{
    if !mutator.ended() {
        let mut held = [0; 80];
        let count = mutator.words_of(&mut held);
        words.extend_from_slice(&held[..count as usize])?;
    }
    Ok(())
}
