ghost use Rattle.std.specs.Prelude.{◌≡◌, ◌<◌, ℕ, IfOk, MatchOption};
ghost use Rattle.sg_words.specs.declared.steps.BlockWord.TheVariants.{Swept};
ghost use Rattle.sg_space.specs.Space.{IsContents};
ghost use Rattle.sg_space.specs.Standing.{block_in};
ghost use Rattle.sg_sections.specs.Parts.{AreLines, IsLineOf, IsLineAt, bits_below};

use sg_graph::BlockLine;
use sg_space::Space;
use sg_words::BlockWord;
use std::alloc::{AllocError, Global};

/// A line for each block that is swept, in order of numbers. Linear in the blocks.
pub(crate) fn lines_of(alloc: Global, space: &Space) -> Result<Vec<BlockLine>, AllocError>
    ensures lines { IfOk result (λ lines. AreLines space.now space.now.layout.blocks lines.items) }
    ensures contents { IsContents space.now }
{
    let mut lines = Vec::new(alloc);
    for b in 0..space.layout().blocks {
        if let Some(line) = line_of(space, b) {
            lines.push(line)?;
        }
    }
    Ok(lines)
}

// The line of this block, where it is swept.
fn line_of(space: &Space, b: u32) -> Option<BlockLine>
    requires { b < space.now.layout.blocks }
    ensures { MatchOption result ((z : ℕ) → block_in space.now b ≡ Swept z → ⊥) (IsLineAt space.now b) }
{
    let _layout = space.layout();
    match space.block(b) {
        BlockWord::Swept { size } => Some(BlockLine {
            block: b,
            size,
            used: bits(space.used(b)),
        }),
        BlockWord::Free | BlockWord::Need { .. } | BlockWord::Sweeping { .. } => None,
    }
}

// How many bits of the mask are set.
fn bits(mask: u64) -> u32
    ensures { result ≡ bits_below mask 64 }
{
    mask.count_ones()
}
