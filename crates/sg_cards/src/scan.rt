ghost use Rattle.std.specs.Prelude.{◌≡◌, ◌+◌, ◌-◌, ◌*◌, ◌^◌, ◌<◌, ◌≤◌, ◌↔◌, ℕ, Option, true, length, slice_index};
ghost use Rattle.std.specs.Int.{bit_at};
ghost use Rattle.sg_words.specs.Sections.{old_base, IsLayout};
ghost use Rattle.sg_words.specs.Blocks.{IsOf, is_taken, block_base};
ghost use Rattle.sg_space.specs.Space.{Contents, cards_in};
ghost use Rattle.sg_space.specs.Standing.{size_at};
ghost use Rattle.sg_cards.specs.Seeds.{IsYoungWord};
ghost use Rattle.sg_cards.specs.Scanned.{IsScannedTo, AreSoundWords, IsOldFront, IsMaskOf, card_base};

use crate::steps::Steps;
use crate::words::{Words, blocks_number, pages_number};
use sg_blocks::{Numbered, slots};
use sg_desc::Shape;
use sg_space::placing_law;
use sg_words::{BLOCK_WORDS, BlockWord, FIRST_WORD, Layout, PAGE_WORDS};
use std::sync::ledger::Ledger;

/// How many words a card stands for.
pub(crate) const CARD_WORDS: usize = 64;

/// For each word of this card what it holds, where it is a strong field of a standing object that holds a young reference; 0 for any other word.
/// Reads each of the card's words at most once, and at most 5 others.
pub(crate) fn young_in<W: Words, L: Ledger>(
    words: &W,
    layout: &Layout,
    shapes: &[Shape],
    card: u32,
    steps: &mut Steps<L>,
) -> [u64; CARD_WORDS]
    requires sound { (s : Contents) × AreSoundWords layout.now shapes.now (W.count words.now) (W.word_of words.now) s }
    requires card { card < cards_in layout.now }
    ensures { (s : Contents) → AreSoundWords layout.now shapes.now (W.count words.now) (W.word_of words.now) s → IsScannedTo s card result (card_base layout.now (card + 1)) }
{
    let mut found = [0; CARD_WORDS];
    if card < 4 * layout.blocks {
        scan_block(words, layout, shapes, card, &mut found, steps);
    } else {
        scan_page(words, layout, shapes, card, &mut found, steps);
    }
    found
}

/// The same for a card of a block.
fn scan_block<W: Words, L: Ledger>(
    words: &W,
    layout: &Layout,
    shapes: &[Shape],
    card: u32,
    found: &mut [u64],
    steps: &mut Steps<L>,
)
    requires sound { (s : Contents) × AreSoundWords layout.now shapes.now (W.count words.now) (W.word_of words.now) s }
    requires card { card < 4 * layout.now.blocks }
    requires room { length found.old ≡ 64 }
    ensures { (s : Contents) → AreSoundWords layout.now shapes.now (W.count words.now) (W.word_of words.now) s → IsScannedTo s card found.old (card_base layout.now card) → IsScannedTo s card found.new (card_base layout.now (card + 1)) }
{
    // The law that it rests on: it does nothing.
    placing_law();
    let number = blocks_number(layout) + 3 * (card / 4) as u64;
    match BlockWord::of_word(words.word(number, steps)) {
        Some(BlockWord::Swept { size }) => {
            let mask = words.word(number + 1, steps);
            scan_slots(words, layout, shapes, card, size, mask, found, steps);
        }
        Some(BlockWord::Need { size }) => {
            let mask = words.word(number + 2, steps);
            scan_slots(words, layout, shapes, card, size, mask, found, steps);
        }
        Some(BlockWord::Sweeping { .. }) => {}
        Some(BlockWord::Free) => {}
        None => {}
    }
}

/// The same for a card of a block whose slots have `size` words, by the mask of those in which objects stand.
fn scan_slots<W: Words, L: Ledger>(
    words: &W,
    layout: &Layout,
    shapes: &[Shape],
    card: u32,
    size: u32,
    mask: u64,
    found: &mut [u64],
    steps: &mut Steps<L>,
)
    requires sound { (s : Contents) × AreSoundWords layout.now shapes.now (W.count words.now) (W.word_of words.now) s × IsMaskOf s card size mask }
    requires room { length found.old ≡ 64 }
    ensures { (s : Contents) → AreSoundWords layout.now shapes.now (W.count words.now) (W.word_of words.now) s → IsMaskOf s card size mask → IsScannedTo s card found.old (card_base layout.now card) →
        IsScannedTo s card found.new (card_base layout.now (card + 1)) }
{
    // The law that it rests on: it does nothing.
    placing_law();
    let base = layout.old_word() + BLOCK_WORDS * (card / 4) as u64;
    let from = CARD_WORDS as u32 * (card % 4);
    let first = from / size;
    let end = ((from + 63) / size + 1).min(slots(size));
    for slot in first..end {
        if (mask >> slot) & 1 == 1 {
            let front = base + (size * slot) as u64;
            scan_object(
                words,
                layout,
                shapes,
                front,
                base + from as u64,
                found,
                steps,
            );
        }
    }
}

/// The same for a card of a page.
fn scan_page<W: Words, L: Ledger>(
    words: &W,
    layout: &Layout,
    shapes: &[Shape],
    card: u32,
    found: &mut [u64],
    steps: &mut Steps<L>,
)
    requires sound { (s : Contents) × AreSoundWords layout.now shapes.now (W.count words.now) (W.word_of words.now) s }
    requires from { 4 * layout.now.blocks ≤ card }
    requires to { card < cards_in layout.now }
    requires room { length found.old ≡ 64 }
    ensures { (s : Contents) → AreSoundWords layout.now shapes.now (W.count words.now) (W.word_of words.now) s → IsScannedTo s card found.old (card_base layout.now card) → IsScannedTo s card found.new (card_base layout.now (card + 1)) }
{
    // The law that it rests on: it does nothing.
    placing_law();
    let place = (card - 4 * layout.blocks) as u64;
    let first = words.word(pages_number(layout) + place / 2, steps);
    if first != 0 {
        let base = layout.large_word();
        let start = base + CARD_WORDS as u64 * place;
        scan_object(
            words,
            layout,
            shapes,
            base + PAGE_WORDS * (first - 1),
            start,
            found,
            steps,
        );
    }
}

/// The same for those of the card's words that the standing object has whose first word is `front`; the card's first word is `start`.
#[inline(always)]
fn scan_object<W: Words, L: Ledger>(
    words: &W,
    layout: &Layout,
    shapes: &[Shape],
    front: u64,
    start: u64,
    found: &mut [u64],
    steps: &mut Steps<L>,
)
    requires sound { (s : Contents) × AreSoundWords layout.now shapes.now (W.count words.now) (W.word_of words.now) s × IsOldFront s front }
    requires start { start < 2 ^ 37 }
    requires room { length found.old ≡ 64 }
    ensures scanned { (s : Contents) (c : ℕ) → AreSoundWords layout.now shapes.now (W.count words.now) (W.word_of words.now) s → IsOldFront s front → start ≡ card_base layout.now c → IsScannedTo s c found.old front →
        IsScannedTo s c found.new (front + size_at s front) }
    ensures same { length found.new ≡ length found.old }
{
    let class = words.word(front - FIRST_WORD, steps) / 8 - 1;
    let fields = words.word(front + 1 - FIRST_WORD, steps) as u32;
    let kind = shapes[class as usize].kind;
    let first = start.saturating_sub(front + 2).min(fields as u64) as u32;
    let mut i = kind.next_strong(first, fields);
    while i < fields && front + 2 + (i as u64) < start + 64 {
        let x = front + 2 + i as u64;
        let value = words.word(x - FIRST_WORD, steps);
        if is_young(layout, value) {
            found[(x - start) as usize] = value;
        }
        i = kind.next_strong(i + 1, fields);
    }
}

/// Whether this word is the address of a word of the nursery.
fn is_young(layout: &Layout, value: u64) -> bool
    requires { IsLayout layout.now }
    ensures { (result ≡ true) ↔ IsYoungWord layout.now value }
{
    if value % 8 != 0 || value < 8 * FIRST_WORD {
        return false;
    }
    value < layout.old_base()
}
