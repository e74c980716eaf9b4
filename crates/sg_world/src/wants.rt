// What the requests of the mutators want of a stop.
ghost use Rattle.std.specs.Prelude.{◌≡◌, ◌++◌, List as Sequence, IfOk};
ghost use Rattle.sg_graph.specs.Stop.{Asked};
ghost use Rattle.sg_world.specs.Stopping.{asked_of, requests_of, AreWanted};

use sg_actor::Mutator;
use sg_graph::{Leave, Request};
use std::alloc::{AllocError, Global};

/// What requests want.
#[derive(Drop)]
pub(crate) struct Wants {
    /// A minor pause.
    pub(crate) minor: bool,
    /// A major one.
    pub(crate) major: bool,
    /// That no block is owed.
    pub(crate) blocks: bool,
    /// The words for which they ask, in order.
    pub(crate) needs: Vec<u32>,
    /// The words of the slots for which they ask, in order.
    pub(crate) sizes: Vec<u32>,
}

/// What the requests of these mutators want. Takes memory for the words and the slots for which they ask.
pub(crate) fn wants_of(alloc: Global, mutators: &[Mutator<'_>]) -> Result<Wants, AllocError>
    ensures { IfOk result (AreWanted (requests_of mutators.now)) }
{
    let mut wants = Wants {
        minor: false,
        major: false,
        blocks: false,
        needs: Vec::new(alloc),
        sizes: Vec::new(alloc),
    };
    for k in 0..mutators.len() {
        add(&mut wants, &mutators[k])?;
    }
    Ok(wants)
}

/// Adds what this mutator asks for, where it does.
fn add(wants: &mut Wants, mutator: &Mutator<'_>) -> Result<(), AllocError>
    ensures { IfOk result (λ _. (requests : Sequence Asked) → AreWanted requests wants.old →
        AreWanted (requests ++ asked_of mutator.now mutator.now.stage) wants.new) }
{
    let Some(Leave::Wants(request)) = mutator.leave() else {
        return Ok(());
    };
    match request {
        Request::Need { words } => {
            wants.minor = true;
            wants.needs.push(words)?;
        }
        Request::Minor => wants.minor = true,
        Request::Major => {
            wants.minor = true;
            wants.major = true;
        }
        Request::Slot { size } => {
            wants.blocks = true;
            wants.sizes.push(size)?;
        }
        Request::Sections => wants.blocks = true,
    }
    Ok(())
}
