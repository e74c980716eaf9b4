ghost use Rattle.std.specs.Prelude.{◌≡◌, ℕ, ◌↔◌, ◌++◌, ◌∷◌, [], IfOk, IsTrue, map};
ghost use Rattle.sg_words.specs.Address.{byte_at, word_at};
ghost use Rattle.sg_words.specs.Sections.{IsLayout, IsInSection};
ghost use Rattle.sg_cards.specs.declared.found.Seed.{Seed as Sown};
ghost use Rattle.sg_round.specs.Area.{IsYoung};
ghost use Rattle.sg_copy.specs.Copying.{area_of};
ghost use Rattle.sg_minor.specs.Joined.{global_slots, slots_from};
ghost use Rattle.sg_minor.specs.Parts.{Adds};

use sg_cards::Seed;
use sg_space::{Layout, Space};
use sg_words::Addr;
use std::alloc::{AllocError, Global};

/// The slots with which a round begins: the globals that refer to young objects, by number, and then the fields of these seeds.
/// Takes memory for them, and time linear in the globals and the seeds.
pub fn first_slots(
    alloc: Global,
    space: &Space,
    layout: Layout,
    seeds: &[Seed],
) -> Result<Vec<Addr>, AllocError>
    requires layout { layout ≡ space.now.layout }
    requires sizes { IsLayout space.now.layout }
    ensures { IfOk result (λ slots. map word_at slots.items ≡ slots_from space.now seeds.now) }
{
    let mut slots = Vec::new(alloc);
    add_globals(space, layout, &mut slots)?;
    add_seeds(seeds, &mut slots)?;
    Ok(slots)
}

// Adds the globals that refer to young objects.
fn add_globals(space: &Space, layout: Layout, slots: &mut Vec<Addr>) -> Result<(), AllocError>
    requires layout { layout ≡ space.now.layout }
    requires sizes { IsLayout space.now.layout }
    ensures { IfOk result (λ _. Adds space.now (global_slots space.now.layout 64) slots.old.items slots.new.items) }
{
    for x in 0..64 {
        add_slot(space, slots, layout.global(x))?;
    }
    Ok(())
}

// Adds the fields of the seeds.
fn add_seeds(seeds: &[Seed], slots: &mut Vec<Addr>) -> Result<(), AllocError>
    ensures { IfOk result (λ _. map word_at slots.new.items ≡ map word_at slots.old.items ++ map (λ (seed : Sown). word_at seed.slot) seeds.now) }
{
    for seed in seeds {
        slots.push(seed.slot)?;
    }
    Ok(())
}

// Adds the slot, if it refers to a young object.
fn add_slot(space: &Space, slots: &mut Vec<Addr>, slot: Addr) -> Result<(), AllocError>
    requires layout { IsLayout space.now.layout }
    requires slot { IsInSection space.now.layout (word_at slot) }
    ensures { IfOk result (λ _. Adds space.now (word_at slot ∷ []) slots.old.items slots.new.items) }
{
    if is_young(space, space.read(slot)) {
        slots.push(slot)?;
    }
    Ok(())
}

// Whether this word is the address of a word of the nursery.
fn is_young(space: &Space, value: u64) -> bool
    requires { IsLayout space.now.layout }
    ensures { IsTrue result ↔ ((x : ℕ) × (value ≡ byte_at x) × IsYoung (area_of space.now) x) }
{
    match Addr::of(value) {
        Some(_) => value < space.layout().old_base(),
        None => false,
    }
}
