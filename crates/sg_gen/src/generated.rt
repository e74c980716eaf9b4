// The text of a program that is made from a seed and a size.
ghost use Rattle.std.specs.Prelude.{◌≡◌, ◌*◌, ◌/◌, ◌<◌, ◌≤◌, ◌++◌, ℕ, IfOk};
ghost use Rattle.std.specs.Fmt.{decimal};
ghost use Rattle.std.specs.List.{flat_map};
ghost use Rattle.sg_gen.specs.Generated.{around, draw as draw_of, drawn, moves, move_text, growing_text, reading_text, shrinking_text};
ghost use Rattle.sg_gen.specs.Generated.{mutator_text, mutator_texts, settings_text, script_text};

use itoa::Buffer;
use rand_core::utils::NextWord;
use rand_pcg::Pcg32;
use std::alloc::{AllocError, Global};

/// How many mutators a program has.
const MUTATORS: u32 = 4;

/// A round of six statements around one of a mutator's own globals.
#[derive(Clone, Copy, Debug, PartialEq, Eq)]
pub enum Move {
    /// A new node with this number comes in front of the global's list.
    Grows { global: u32, number: u32 },
    /// The numbers of the first three nodes of the list are read.
    Reads { global: u32 },
    /// The first node leaves the list.
    Shrinks { global: u32 },
}

/// The text of the program of this seed and size: four mutators with `size / 24` moves each, six statements a move, so `size` is how many
/// statements all mutators have together, rounded down to a multiple of 24. The one error is want of memory. Linear in the text, which has
/// about 70 bytes a move.
pub fn script(alloc: Global, seed: u64, size: u32) -> Result<Vec<u8>, AllocError>
    ensures { IfOk result (λ text. text.items ≡ script_text seed size) }
{
    let mut text = Vec::new(alloc);
    text.extend_from_slice(settings())?;
    let mut words = Pcg32::new(seed, 1);
    append_mutators(&mut text, &mut words, size / 24)?;
    Ok(text)
}

/// The lines before the mutators.
fn settings() -> &'static [u8]
    ensures { result.now ≡ settings_text }
{
    b"sgen 1\nnursery 4096\nblocks 512\npages 64\nbuffer 64\nworkers 4\ncement 4\nclass Node map rr.\n"
}

/// All mutators, with so many moves each.
fn append_mutators(text: &mut Vec<u8>, words: &mut Pcg32, count: u32) -> Result<(), AllocError>
    ensures { IfOk result (λ _. text.new.items ≡ text.old.items ++ (mutator_texts 4 count words.old).0) }
{
    for mutator in 0..MUTATORS {
        append_mutator(text, words, mutator, count)?;
    }
    Ok(())
}

/// One mutator.
fn append_mutator(
    text: &mut Vec<u8>,
    words: &mut Pcg32,
    mutator: u32,
    count: u32,
) -> Result<(), AllocError>
    requires { mutator < 4 }
    ensures text { IfOk result (λ _. text.new.items ≡ text.old.items ++ mutator_text (moves mutator count words.old).0) }
    ensures words { IfOk result (λ _. words.new ≡ (moves mutator count words.old).1) }
{
    text.extend_from_slice(b"mutator\n")?;
    append_moves(text, words, mutator, count)?;
    text.extend_from_slice(b"end\n")
}

/// So many moves of this mutator.
fn append_moves(
    text: &mut Vec<u8>,
    words: &mut Pcg32,
    mutator: u32,
    count: u32,
) -> Result<(), AllocError>
    requires { mutator < 4 }
    ensures text { IfOk result (λ _. text.new.items ≡ text.old.items ++ flat_map move_text (moves mutator count words.old).0) }
    ensures words { IfOk result (λ _. words.new ≡ (moves mutator count words.old).1) }
{
    for _ in 0..count {
        let next = draw_move(words, mutator);
        append_move(text, next)?;
    }
    Ok(())
}

/// A number below n: the next word modulo n.
fn draw(words: &mut Pcg32, n: u32) -> u32
    requires { 0 < n }
    ensures { (result, words.new) ≡ draw_of n words.old }
{
    words.next_word() % n
}

/// The next move of this mutator.
fn draw_move(words: &mut Pcg32, mutator: u32) -> Move
    requires { mutator < 4 }
    ensures { (result, words.new) ≡ drawn mutator words.old }
{
    let kind = draw(words, 4);
    let global = 16 * mutator + draw(words, 16);
    if kind < 2 {
        let number = draw(words, 1000);
        Move::Grows { global, number }
    } else if kind == 2 {
        Move::Reads { global }
    } else {
        Move::Shrinks { global }
    }
}

/// The statements of a move, one a line.
fn append_move(text: &mut Vec<u8>, next: Move) -> Result<(), AllocError>
    ensures { IfOk result (λ _. text.new.items ≡ text.old.items ++ move_text next) }
{
    match next {
        Move::Grows { global, number } => append_growing(text, global, number),
        Move::Reads { global } => append_reading(text, global),
        Move::Shrinks { global } => append_shrinking(text, global),
    }
}

/// A new node with this number comes in front of this global's list.
fn append_growing(text: &mut Vec<u8>, global: u32, number: u32) -> Result<(), AllocError>
    ensures { IfOk result (λ _. text.new.items ≡ text.old.items ++ growing_text global number) }
{
    append_around(text, b"new r0 Node\nnum r1 ", number, b"\nputd r0 2 r1\n")?;
    append_around(text, b"gget r2 ", global, b"\nput r0 0 r2\n")?;
    append_around(text, b"gput ", global, b" r0\n")?;
    Ok(())
}

/// The numbers of the first three nodes of this global's list are read.
fn append_reading(text: &mut Vec<u8>, global: u32) -> Result<(), AllocError>
    ensures { IfOk result (λ _. text.new.items ≡ text.old.items ++ reading_text global) }
{
    let reads = b"\ngetd r3 r2 2\nget r2 r2 0\ngetd r3 r2 2\nget r2 r2 0\ngetd r3 r2 2\n";
    append_around(text, b"gget r2 ", global, reads)
}

/// The first node leaves this global's list.
fn append_shrinking(text: &mut Vec<u8>, global: u32) -> Result<(), AllocError>
    ensures { IfOk result (λ _. text.new.items ≡ text.old.items ++ shrinking_text global) }
{
    append_around(text, b"gget r2 ", global, b"\nget r2 r2 0\n")?;
    append_around(text, b"gput ", global, b" r2\ndrop r2\ndrop r0\nnum r3 0\n")?;
    Ok(())
}

/// The number in decimal, between these bytes.
fn append_around(
    text: &mut Vec<u8>,
    before: &[u8],
    number: u32,
    after: &[u8],
) -> Result<(), AllocError>
    ensures { IfOk result (λ _. text.new.items ≡ text.old.items ++ around before.now number after.now) }
{
    text.extend_from_slice(before)?;
    append_number(text, number)?;
    text.extend_from_slice(after)
}

/// The number in decimal.
fn append_number(text: &mut Vec<u8>, number: u32) -> Result<(), AllocError>
    ensures { IfOk result (λ _. text.new.items ≡ text.old.items ++ decimal number) }
{
    let mut buffer = Buffer::new();
    text.extend_from_slice(buffer.format(number).as_bytes())
}
