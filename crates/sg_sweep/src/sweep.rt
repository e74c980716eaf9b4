ghost use Rattle.std.specs.Prelude.{◌≡◌, ◌<◌, ℕ, [], ◌∷◌, MatchResult};
ghost use Rattle.sg_words.specs.declared.steps.Step.TheVariants.{OnBlock};
ghost use Rattle.sg_words.specs.declared.steps.BlockStep.TheVariants.{LoadBlock, WonBlock, LostBlock};
ghost use Rattle.sg_words.specs.declared.steps.Call.TheVariants.{OnBlocks};
ghost use Rattle.sg_words.specs.declared.steps.BlockCall.TheVariants.{LoadsBlock, SwapsBlock};
ghost use Rattle.sg_words.specs.Blocks.{IsSizeClass, slots as slots_of};
ghost use Rattle.sg_cells.specs.Made.{Makes};
ghost use Rattle.sg_cells.specs.Allowed.{MayMake};
ghost use Rattle.sg_sweep.specs.Sweeping.{IsOwed, taken_word, clear_steps, sweep_steps, unmarked, MaySweep, ShowsClass, Sweeps};

use sg_blocks::slots;
use sg_cells::SweepPort;
use sg_words::BlockWord;

/// How the sweep of a block ended.
#[derive(Clone, Copy, Debug, PartialEq, Eq)]
pub enum Sweep {
    /// The block was swept, and so many of its slots became zero.
    Done { freed: u32 },
    /// It wasn't to be swept: its word, as it was seen.
    NotOwed { seen: BlockWord },
    /// Another actor was first: the word that the exchange found.
    Lost { seen: BlockWord },
}

/// Sweeps this block where it is still to be swept, and no other actor is first. One load and one exchange; then linear in the words of the block.
pub fn sweep_block<P: SweepPort>(port: &mut P, block: u32) -> Sweep
    requires there { block < P.blocks port.old }
    requires may { MaySweep P.leads P.sees P.may (P.heap port.old) block (P.marks port.old block) port.old }
    requires class { ShowsClass P.sees block port.old }
    ensures { Sweeps P.leads P.sees (P.heap port.old) block (P.marks port.old block) port.old port.new result }
{
    match prepare(port, block) {
        Err(seen) => Sweep::NotOwed { seen },
        Ok(need) => match take_over(port, block, need) {
            Err(seen) => Sweep::Lost { seen },
            Ok(()) => Sweep::Done {
                freed: write_out(port, block, size_of(need)),
            },
        },
    }
}

/// The word of this block where it is still to be swept; the error is another word that was seen. One load.
pub fn prepare<P: SweepPort>(port: &mut P, block: u32) -> Result<BlockWord, BlockWord>
    requires may { P.may port.old (OnBlocks (LoadsBlock block)) }
    ensures { MatchResult result (λ seen. Makes P.leads P.sees port.old (OnBlock (LoadBlock block seen) ∷ []) port.new × IsOwed seen)
        (λ seen. Makes P.leads P.sees port.old (OnBlock (LoadBlock block seen) ∷ []) port.new × (IsOwed seen → ⊥)) }
{
    let seen = port.block(block);
    match seen {
        BlockWord::Need { .. } => Ok(seen),
        _ => Err(seen),
    }
}

/// Takes over this block, whose word was seen to be `need`: from now on it is being swept by this actor. The error is another word that stood
/// there. One exchange.
pub fn take_over<P: SweepPort>(port: &mut P, block: u32, need: BlockWord) -> Result<(), BlockWord>
    requires owed { IsOwed need }
    requires may { P.may port.old (OnBlocks (SwapsBlock block need (taken_word need))) }
    ensures { MatchResult result (λ _. Makes P.leads P.sees port.old (OnBlock (WonBlock block need (taken_word need)) ∷ []) port.new)
        (λ found. Makes P.leads P.sees port.old (OnBlock (LostBlock block need (taken_word need) found) ∷ []) port.new) }
{
    port.swap_block(block, need, taken(need))
}

/// Sweeps this block, which this actor has taken over, with slots of `size` words: its occupancy becomes its marks, each slot that isn't marked becomes
/// zero, and then its word says that it is swept, or free where nothing is marked. The answer is how many slots became zero. Linear in the words of
/// the block.
pub fn write_out<P: SweepPort>(port: &mut P, block: u32, size: u32) -> u32
    requires there { block < P.blocks port.old }
    requires class { IsSizeClass size }
    requires may { MayMake P.leads P.sees P.may port.old (sweep_steps (P.heap port.old) block size (P.marks port.old block)) }
    ensures made { Makes P.leads P.sees port.old (sweep_steps (P.heap port.old) block size (P.marks port.old block)) port.new }
    ensures freed { result ≡ unmarked (P.marks port.old block) (slots_of size) }
{
    let marks = port.marks(block);
    port.set_used(block, marks);
    let freed = clear_unmarked(port, block, size, marks);
    port.set_block(block, word_after(size, marks));
    freed
}

/// The slots of `size` words of this block that these marks don't have become zero, in order; the answer is how many they are.
fn clear_unmarked<P: SweepPort>(port: &mut P, block: u32, size: u32, marks: u64) -> u32
    requires there { block < P.blocks port.old }
    requires class { IsSizeClass size }
    requires may { MayMake P.leads P.sees P.may port.old (clear_steps (P.heap port.old) block size marks (slots_of size)) }
    ensures made { Makes P.leads P.sees port.old (clear_steps (P.heap port.old) block size marks (slots_of size)) port.new }
    ensures freed { result ≡ unmarked marks (slots_of size) }
{
    let mut freed = 0;
    for slot in 0..slots(size) {
        if (marks >> slot) & 1 == 0 {
            port.zero_slot(block, slot, size);
            freed += 1;
        }
    }
    freed
}

ghost use Rattle.sg_words.specs.declared.steps.BlockWord.TheVariants.{Need};
ghost use Rattle.sg_words.specs.Sweeps.{swept_word};

/// The word of a block that was swept, with slots of this size and these marks.
fn word_after(size: u32, marks: u64) -> BlockWord
    ensures { result ≡ swept_word (Need size) marks }
{
    if marks == 0 {
        BlockWord::Free
    } else {
        BlockWord::Swept { size }
    }
}

/// The word of a block with this word that is taken over.
fn taken(need: BlockWord) -> BlockWord
    ensures { result ≡ taken_word need }
{
    match need {
        BlockWord::Need { size } => BlockWord::Sweeping { size },
        other => other,
    }
}

/// The words of a slot of a block that is to be swept.
fn size_of(need: BlockWord) -> u32
    requires { IsOwed need }
    ensures { need ≡ Need result }
{
    match need {
        BlockWord::Need { size } => size,
        _ => unreachable!(),
    }
}
