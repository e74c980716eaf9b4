// The answers of a stop, in order of mutators.
ghost use Rattle.std.specs.Prelude.{◌≡◌, ℕ, ◌≤◌, length, IfOk};
ghost use Rattle.sg_program.specs.declared.program.Program.{Program as AnyProgram};
ghost use Rattle.sg_program.specs.declared.program.Statement.TheVariants.{Sections as AsksSections};
ghost use Rattle.sg_graph.specs.Graph.{Graph};
ghost use Rattle.sg_graph.specs.Book.{Book};
ghost use Rattle.sg_graph.specs.Stop.{Shows};
ghost use Rattle.sg_heap.specs.Holding.{HoldsHeap, OwesNothing};
ghost use Rattle.sg_placing.specs.Answering.{placing_in, FitsRoom};
ghost use Rattle.sg_space.specs.Space.{IsContents};
ghost use Rattle.sg_sections.specs.Parts.{HoldsSwept};
ghost use Rattle.sg_world.specs.Serving.{IsHolding, MayGoOn, MayAllGoOn, HasGoneOn, HaveGoneOn, services_in};

use sg_actor::Mutator;
use sg_graph::{Program, Sections, Service, Statement};
use sg_order::{runnable_makes, serves_ready};
use sg_placing::{Room, answer_to};
use sg_sections::sections;
use sg_space::Space;
use sg_words::List;
use std::alloc::{AllocError, Global};

/// Answers each request, in order of mutators, each before the next one's place is looked for; then each mutator that hasn't ended is before
/// the next epoch. Linear in the fragments for each request, and in the blocks where slots may be given; for the sections linear in the words of the
/// nursery and in the blocks.
pub(crate) fn serve_all(
    alloc: Global,
    program: &Program,
    space: &mut Space,
    mutators: &mut [Mutator<'_>],
    room: Room,
) -> Result<List<Service>, AllocError>
    requires few { length program.now.classes ≤ 256 }
    requires may { (g : Graph) × (b : Book) × MayAllGoOn program.now room g b 0 space.old mutators.old }
    ensures served { IfOk result (λ services. (g : Graph) (b : Book) → MayAllGoOn program.now room g b 0 space.old mutators.old →
        HaveGoneOn program.now (placing_in room) g b 0 mutators.old services space.new mutators.new) }
    ensures stop { IfOk result (λ _. space.new.stop ≡ space.old.stop) }
{
    let mut served = Vec::with_capacity(alloc, mutators.len())?;
    for k in 0..mutators.len() {
        let done = go_on(alloc, program, space, &mut mutators[k], room)?;
        match done {
            Some(service) => served.push(service)?,
            None => {}
        }
    }
    Ok(List::from_vec(served))
}

/// Answers the statement with which the mutator has left, where it asks for something, and else it is before the next epoch.
fn go_on(
    alloc: Global,
    program: &Program,
    space: &mut Space,
    mutator: &mut Mutator<'_>,
    room: Room,
) -> Result<Option<Service>, AllocError>
    requires few { length program.now.classes ≤ 256 }
    requires may { (g : Graph) × (b : Book) × (k : ℕ) × IsHolding program.now space.old g b × FitsRoom program.now b room
        × MayGoOn program.now g b k mutator.old }
    ensures goes { IfOk result (λ service. (g : Graph) (b : Book) (k : ℕ) → IsHolding program.now space.old g b → FitsRoom program.now b room →
        MayGoOn program.now g b k mutator.old → HasGoneOn program.now (placing_in room) g b k mutator.old (services_in service) space.new mutator.new) }
    ensures stop { IfOk result (λ _. space.new.stop ≡ space.old.stop) }
{
    // The laws that it rests on: these calls do nothing.
    serves_ready();
    runnable_makes();
    let Some(asking) = mutator.asking() else {
        mutator.begin_epoch();
        return Ok(None);
    };
    let sections = sections_for(alloc, space, asking)?;
    let service = Service {
        mutator: mutator.number(),
        statement: mutator.first() + mutator.answers().len() as u32,
        answer: answer_to(program, space, asking, room),
        sections,
    };
    mutator.serve(service.answer);
    Ok(Some(service))
}

/// What stands in each section, where the statement asks for that.
fn sections_for(
    alloc: Global,
    space: &Space,
    asking: Statement,
) -> Result<Option<Sections>, AllocError>
    requires swept { asking ≡ AsksSections → HoldsSwept space.now }
    ensures { IfOk result (λ told. (p : AnyProgram) (g : Graph) (b : Book) → HoldsHeap p space.now g b → (asking ≡ AsksSections → OwesNothing p b) →
        Shows p g b asking told) }
{
    match asking {
        Statement::Sections => Ok(Some(sections(alloc, space)?)),
        _ => Ok(None),
    }
}
