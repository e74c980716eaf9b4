ghost use Rattle.std.specs.Prelude.{◌≡◌, ◌<◌, IfOk};
ghost use Rattle.sg_minor.specs.Joined.{AreFound};
ghost use Rattle.sg_minor.specs.Parts.{HoldsSome};

use crate::law::heap_law;
use sg_cards::{Seeds, Steps, seeds};
use sg_space::Space;
use std::alloc::{AllocError, Global};
use std::marker::Brand;
use std::sync::ledger::{Blank, Ledger};

/// The seeds of a space that holds a heap, as a pause wants them. Takes memory for them, and time linear in the cards and in the words of the
/// dirty ones.
pub fn found_in(alloc: Global, space: &Space) -> Result<Seeds, AllocError>
    requires { HoldsSome space.now }
    ensures { IfOk result (λ found. AreFound space.now found) }
{
    seeds_by::<Brand>(alloc, space, Blank::new(1))
}

// The same, counting the steps in this ledger.
fn seeds_by<L: Ledger>(alloc: Global, space: &Space, blank: Blank) -> Result<Seeds, AllocError>
    requires some { HoldsSome space.now }
    requires name { blank.name ≡ L.name }
    requires parts { blank.parts ≡ L.parts }
    requires share { 0 < L.parts }
    ensures { IfOk result (λ found. AreFound space.now found) }
{
    // The law that it rests on: this call does nothing.
    heap_law();
    let layout = space.layout();
    let mut steps = Steps::<L>::new(blank);
    seeds(alloc, space, &layout, space.shapes(), &mut steps)
}
