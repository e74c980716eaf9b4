// The statement that makes an object in a slot of the major heap: the search through the blocks, and the sweep of owed ones.
ghost use Rattle.std.specs.Prelude.{◌≡◌, ◌≤◌, List};
ghost use Rattle.sg_words.specs.declared.steps.Step.{Step};
ghost use Rattle.sg_words.specs.Blocks.{IsSizeClass};
ghost use Rattle.sg_cells.specs.Made.{Makes};
ghost use Rattle.sg_cells.specs.Allowed.{MayMake};
ghost use Rattle.sg_program.specs.Scripts.{IsMature};
ghost use Rattle.sg_rules.specs.Rules.{Constants, Search, onward, within};
ghost use Rattle.sg_rules.specs.Acting.{HasGoneOn, HasTurned};
ghost use Rattle.sg_actor.specs.declared.mutator.Stage.TheVariants.{Within, OpeningBlock, TakingSlot, TakingOver, Sweeping, BehindSweep};
ghost use Rattle.sg_actor.specs.State.{actor_of};
ghost use Rattle.sg_actor.specs.Searching.{looks_within, IsLook};
ghost use Rattle.sg_actor.specs.Turning.{IsOnPort, HasBegun, HasRun, before_this, IsBehindTurn, IsMadeOf};

use crate::making::Making;
use crate::mutator::{Mutator, Stage};
use crate::tools::slot_at;
use sg_blocks::slots;
use sg_cells::{BlockPort, FragPort, SweepPort, WordPort};
use sg_program::{Request, Statement};
use sg_slots::lowest_clear;
use sg_sweep::{take_over, write_out};
use sg_words::BlockWord;

impl<'a> Mutator<'a> {
    /// Makes the object in the major heap: searches the blocks from the first one on. Linear in the blocks.
    pub(crate) fn search_all<P: WordPort + FragPort + SweepPort>(
        &mut self,
        port: &mut P,
        making: Making,
    )
        requires within { self.old.stage ≡ Within }
        requires made { IsMadeOf self.old.program making.statement making.r making.class making.fields }
        requires mature { IsMature making.statement }
        requires begun { (lay : Constants) × HasBegun self.old.program lay P.leads P.may P.sees P.fragments P.limit P.blocks P.heap P.marks port.old
            (before_this self.old making.statement) }
        ensures run { (lay : Constants) → HasBegun self.old.program lay P.leads P.may P.sees P.fragments P.limit P.blocks P.heap P.marks port.old
            (before_this self.old making.statement) →
            HasRun self.old.program lay P.leads (before_this self.old making.statement) port.old (actor_of self.new) port.new }
        ensures behind { IsBehindTurn self.old self.new }
    {
        self.search(port, making, 0);
    }

    /// Searches the blocks from this one on: at the first one where something is to be prepared for the object, it is; behind the last
    /// one it asks for a slot. Linear in the blocks.
    fn search<P: WordPort + FragPort + SweepPort>(
        &mut self,
        port: &mut P,
        making: Making,
        first: u32,
    )
        requires within { self.old.stage ≡ Within }
        requires made { IsMadeOf self.old.program making.statement making.r making.class making.fields }
        requires mature { IsMature making.statement }
        requires on { (lay : Constants) × (first ≤ self.old.program.config.blocks) ×
            IsOnPort self.old.program lay P.leads P.may P.sees P.fragments P.limit P.blocks P.heap P.marks port.old
            (within (actor_of self.old) self.old.script (onward self.old.program (Search making.statement) first)) }
        ensures goes { (lay : Constants) → IsOnPort self.old.program lay P.leads P.may P.sees P.fragments P.limit P.blocks P.heap P.marks port.old
            (within (actor_of self.old) self.old.script (onward self.old.program (Search making.statement) first)) →
            HasGoneOn self.old.program lay P.leads
            (within (actor_of self.old) self.old.script (onward self.old.program (Search making.statement) first)) port.old
            (actor_of self.new) port.new }
        ensures behind { IsBehindTurn self.old self.new }
    {
        let size = making.slot();
        let blocks = port.blocks();
        let passed = port.pass_over(size, first);
        for block in passed..blocks {
            if let Some(stage) = look_at(port, making.statement, block, size) {
                return self.rest_at(stage);
            }
        }
        port.set_stop();
        self.ask(making.statement, Request::Slot { size });
    }

    /// Makes the prepared exchange by which a free block gets slots for the object, and looks at the block again, be it won or lost.
    pub(crate) fn open_block<P: WordPort + FragPort + SweepPort>(
        &mut self,
        port: &mut P,
        making: Making,
        block: u32,
    )
        requires stage { self.old.stage ≡ OpeningBlock making.statement block }
        requires made { IsMadeOf self.old.program making.statement making.r making.class making.fields }
        requires mature { IsMature making.statement }
        requires on { (lay : Constants) × IsOnPort self.old.program lay P.leads P.may P.sees P.fragments P.limit P.blocks P.heap P.marks port.old
            (actor_of self.old) }
        ensures turned { (lay : Constants) → IsOnPort self.old.program lay P.leads P.may P.sees P.fragments P.limit P.blocks P.heap P.marks port.old
            (actor_of self.old) →
            HasTurned self.old.program lay P.leads (actor_of self.old) port.old (actor_of self.new) port.new }
        ensures behind { IsBehindTurn self.old self.new }
    {
        let size = making.slot();
        self.resume();
        let _ = port.swap_block(block, BlockWord::Free, BlockWord::Swept { size });
        self.search(port, making, block);
    }

    /// Makes the prepared claim of a slot: the object stands there where the slot was still clear; else it looks at the block again.
    pub(crate) fn take_slot<P: WordPort + FragPort + SweepPort>(
        &mut self,
        port: &mut P,
        making: Making,
        block: u32,
        slot: u32,
    )
        requires stage { self.old.stage ≡ TakingSlot making.statement block slot }
        requires made { IsMadeOf self.old.program making.statement making.r making.class making.fields }
        requires mature { IsMature making.statement }
        requires on { (lay : Constants) × IsOnPort self.old.program lay P.leads P.may P.sees P.fragments P.limit P.blocks P.heap P.marks port.old
            (actor_of self.old) }
        ensures turned { (lay : Constants) → IsOnPort self.old.program lay P.leads P.may P.sees P.fragments P.limit P.blocks P.heap P.marks port.old
            (actor_of self.old) →
            HasTurned self.old.program lay P.leads (actor_of self.old) port.old (actor_of self.new) port.new }
        ensures behind { IsBehindTurn self.old self.new }
    {
        let size = making.slot();
        let number = slot_at(&self.program.config, block, size, slot);
        self.resume();
        let found = port.take_slot(block, slot);
        if (found >> slot) & 1 == 0 {
            self.finish(port, making, number);
        } else {
            self.search(port, making, block);
        }
    }

    /// Makes the prepared exchange by which it takes the sweep of an owed block over, of slots of `size` words: where it is won, the sweep
    /// comes in the next turn; else it looks at the block again.
    pub(crate) fn take_sweep<P: WordPort + FragPort + SweepPort>(
        &mut self,
        port: &mut P,
        making: Making,
        block: u32,
        size: u32,
    )
        requires stage { self.old.stage ≡ TakingOver making.statement block size }
        requires made { IsMadeOf self.old.program making.statement making.r making.class making.fields }
        requires mature { IsMature making.statement }
        requires on { (lay : Constants) × IsOnPort self.old.program lay P.leads P.may P.sees P.fragments P.limit P.blocks P.heap P.marks port.old
            (actor_of self.old) }
        ensures turned { (lay : Constants) → IsOnPort self.old.program lay P.leads P.may P.sees P.fragments P.limit P.blocks P.heap P.marks port.old
            (actor_of self.old) →
            HasTurned self.old.program lay P.leads (actor_of self.old) port.old (actor_of self.new) port.new }
        ensures behind { IsBehindTurn self.old self.new }
    {
        let statement = making.statement;
        self.resume();
        match take_over(port, block, BlockWord::Need { size }) {
            Ok(()) => self.rest_at(Stage::Sweeping {
                statement,
                block,
                size,
            }),
            Err(_) => self.search(port, making, block),
        }
    }

    /// Sweeps the block that it has taken over, of slots of `size` words. Linear in the words of the block.
    pub(crate) fn sweep<P: WordPort + FragPort + SweepPort>(
        &mut self,
        port: &mut P,
        statement: Statement,
        block: u32,
        size: u32,
    )
        requires stage { self.old.stage ≡ Sweeping statement block size }
        requires on { (lay : Constants) × IsOnPort self.old.program lay P.leads P.may P.sees P.fragments P.limit P.blocks P.heap P.marks port.old
            (actor_of self.old) }
        ensures turned { (lay : Constants) → IsOnPort self.old.program lay P.leads P.may P.sees P.fragments P.limit P.blocks P.heap P.marks port.old
            (actor_of self.old) →
            HasTurned self.old.program lay P.leads (actor_of self.old) port.old (actor_of self.new) port.new }
        ensures behind { IsBehindTurn self.old self.new }
    {
        self.resume();
        let _ = write_out(port, block, size);
        self.rest_at(Stage::BehindSweep { statement, block });
    }

    /// Looks at the block that it has swept, and goes on with the search.
    pub(crate) fn search_behind<P: WordPort + FragPort + SweepPort>(
        &mut self,
        port: &mut P,
        making: Making,
        block: u32,
    )
        requires stage { self.old.stage ≡ BehindSweep making.statement block }
        requires made { IsMadeOf self.old.program making.statement making.r making.class making.fields }
        requires mature { IsMature making.statement }
        requires on { (lay : Constants) × IsOnPort self.old.program lay P.leads P.may P.sees P.fragments P.limit P.blocks P.heap P.marks port.old
            (actor_of self.old) }
        ensures turned { (lay : Constants) → IsOnPort self.old.program lay P.leads P.may P.sees P.fragments P.limit P.blocks P.heap P.marks port.old
            (actor_of self.old) →
            HasTurned self.old.program lay P.leads (actor_of self.old) port.old (actor_of self.new) port.new }
        ensures behind { IsBehindTurn self.old self.new }
    {
        let _ = &self.program;
        let size = making.slot();
        self.resume();
        match look_at(port, making.statement, block, size) {
            Some(stage) => self.rest_at(stage),
            None => self.search(port, making, block + 1),
        }
    }
}

/// Looks at this block, for a slot of `size` words for the object of this statement: what is to be prepared there; `None` where the search
/// goes on behind it. One load, and a second one where the block has slots of this size.
fn look_at<P: BlockPort>(port: &mut P, statement: Statement, block: u32, size: u32) -> Option<Stage>
    requires class { IsSizeClass size }
    requires may { MayMake P.leads P.sees P.may port.old (looks_within size block 0) }
    ensures { (es : List Step) × Makes P.leads P.sees port.old es port.new × IsLook statement size block es result }
{
    match port.block(block) {
        BlockWord::Free => Some(Stage::OpeningBlock { statement, block }),
        BlockWord::Swept { size: found } => if found == size {
            let slot = lowest_clear(port.used(block), slots(size))?;
            Some(Stage::TakingSlot {
                statement,
                block,
                slot,
            })
        } else {
            None
        },
        BlockWord::Need { size } => Some(Stage::TakingOver {
            statement,
            block,
            size,
        }),
        BlockWord::Sweeping { .. } => None,
    }
}
