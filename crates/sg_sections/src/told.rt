ghost use Rattle.std.specs.Prelude.{◌≡◌, ◌<◌, ◌^◌, IfOk};
ghost use Rattle.sg_program.specs.declared.program.Program.{Program};
ghost use Rattle.sg_graph.specs.Graph.{Graph};
ghost use Rattle.sg_graph.specs.Book.{Book};
ghost use Rattle.sg_graph.specs.Sections.{TellsSections};
ghost use Rattle.sg_heap.specs.Holding.{HoldsHeap, OwesNothing};
ghost use Rattle.sg_sections.specs.Parts.{HoldsSwept, words_together};

use crate::blocks::lines_of;
use sg_graph::Sections;
use sg_heap::front_law;
use sg_space::{Object, Space};
use sg_words::List;
use std::alloc::{AllocError, Global};

/// What stands in each section: how many objects stand in the nursery and how many words they have together, and for each block of the
/// major heap in which something stands the words of its slots and how many of them are used.
///
/// It fails only where there is no memory for the objects of the nursery and a line for each block. Linear in the words of the nursery
/// that aren't the rest of a fragment, the fragments and the blocks.
pub fn sections(alloc: Global, space: &Space) -> Result<Sections, AllocError>
    requires some { HoldsSwept space.now }
    ensures told { IfOk result (λ told. (p : Program) (g : Graph) (b : Book) → HoldsHeap p space.now g b → OwesNothing p b → TellsSections p g b told) }
{
    // The law: this call does nothing.
    front_law();
    let blocks = lines_of(alloc, space)?;
    let told = space.walk_nursery(alloc)?;
    Ok(Sections {
        young: told.as_slice().len() as u32,
        young_words: words_of(told.as_slice()),
        blocks: List::from_vec(blocks),
    })
}

// The words of these objects together. Linear in the objects.
fn words_of(told: &[Object]) -> u32
    requires { words_together told.now < 2 ^ 32 }
    ensures { result ≡ words_together told.now }
{
    let mut words = 0;
    for object in told {
        words += object.words;
    }
    words
}
