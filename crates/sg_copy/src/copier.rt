ghost use Rattle.std.specs.Prelude.{◌≡◌, ◌↔◌, ◌+◌, ◌-◌, ◌<◌, ◌≤◌, ◌^◌, true, [], ◌∷◌, ◌++◌, IfOk, IfSome, MatchOption, length, slice_index};
ghost use Rattle.std.specs.Prelude.{slice_set, vec_capacity};
ghost use Rattle.sg_words.specs.Address.{byte_at};
ghost use Rattle.sg_words.specs.Sections.{old_base, globals_base, IsLayout};
ghost use Rattle.sg_copy.specs.declared.gray.Gray.TheVariants.{Whole};
ghost use Rattle.sg_round.specs.Area.{class_of};
ghost use Rattle.sg_copy.specs.State.{slots_in_hand, fresh_copying, move_of, IsKindOf, TakesInHand};

use crate::gray::Gray;
use sg_desc::{Descriptor, Shape};
use sg_space::Space;
use sg_words::{Addr, Layout, Move};
use std::alloc::{AllocError, Global};
use std::marker::Model;

/// A slot in hand, and the plain young object to which it refers, as it was read. Words are given by their numbers.
#[derive(Clone, Copy)]
pub struct Job {
    /// The slot.
    pub slot: u64,
    /// The object's first word.
    pub from: u64,
    pub class: u16,
    pub fields: u32,
}

/// The object in hand, by the number of its first word: its strong fields from the field `from` on are still to be gone through.
#[derive(Clone, Copy)]
pub struct Hand {
    pub at: u64,
    pub kind: Descriptor,
    pub from: u32,
    pub fields: u32,
}

/// Where a worker stands behind a turn: the exchange that it makes next, if one is prepared.
#[derive(Clone, Copy)]
pub enum Stage {
    /// No exchange is prepared.
    Between,
    /// That of a free block's word, which makes it a block of slots for the job's object.
    Taking { job: Job, block: u32 },
    /// The claim of this slot of this block for the job's object.
    Claiming { job: Job, block: u32, slot: u32 },
    /// That of the object's first word, which tells that its copy is at the word `to`.
    Forwarding { job: Job, to: u64 },
    /// That of the object's first word, which pins it, since no slot is left for it.
    Pinning { job: Job },
    /// The taking of this item from the cell in this place among those at which the worker looks.
    Grabbing { cell: u32, item: Gray },
    /// Nothing is left to do.
    Ended,
}

/// A copying worker: its items, what it has in hand, and the objects that it moved and failed.
#[derive(Drop)]
pub struct Copier {
    layout: Layout,
    shapes: Vec<Shape>,
    number: u32,
    team: u32,
    // How many items it had before its first turn.
    most: usize,
    // Its items, the oldest first; those before `taken` it has taken.
    items: Vec<Gray>,
    taken: usize,
    hand: Hand,
    // For each slot size the first word of a claimed slot that it has to spare, or 0.
    spares: [u64; 65],
    // For each slot size how many of the lowest blocks can't take it.
    passed: [u32; 65],
    stage: Stage,
    moves: Vec<Move>,
    fails: Vec<Addr>,
}

impl Model for Copier {
    ghost use Rattle.std.specs.Prelude.{drop, length, vec_capacity};
    ghost use Rattle.sg_copy.specs.State.{Copying, IsSoundCopier};

    ghost Value = { Copying };

    ghost view = { λ c. record {
      layout = c.layout;
      shapes = c.shapes.items;
      number = c.number;
      team = c.team;
      most = c.most;
      queue = drop c.taken c.items.items;
      hand = c.hand;
      spares = c.spares;
      passed = c.passed;
      stage = c.stage;
      moves = c.moves.items;
      fails = c.fails.items;
    } };

    ghost invariant = { λ c. IsSoundCopier c.layout c.hand c.most (length c.moves.items) (length c.fails.items) (length c.items.items) c.taken
        (vec_capacity c.items) (vec_capacity c.moves) (vec_capacity c.fails) };
}

impl Copier {
    /// Worker `number` of a team of `team` with these items, over a space with this layout and these shapes. The list has room for so many
    /// items more as the nursery has words; as much room is taken for the objects that it will move, and for those that it will fail.
    pub fn new(
        alloc: Global,
        space: &Space,
        number: u32,
        team: u32,
        items: Vec<Gray>,
    ) -> Result<Copier, AllocError>
        requires { length items.items + space.now.layout.nursery ≤ vec_capacity items }
        ensures { IfOk result (λ c. c ≡ fresh_copying space.now number team items.items) }
    {
        let layout = space.layout();
        let room = layout.nursery as usize;
        Ok(Copier {
            layout,
            shapes: space.shapes().to_vec(alloc)?,
            number,
            team,
            most: items.len(),
            items,
            taken: 0,
            hand: Hand {
                at: 0,
                kind: Descriptor::PtrFree,
                from: 0,
                fields: 0,
            },
            spares: [0; 65],
            passed: [0; 65],
            stage: Stage::Between,
            moves: Vec::with_capacity(alloc, room)?,
            fails: Vec::with_capacity(alloc, room)?,
        })
    }

    /// Whether nothing is left for it to do.
    pub fn ended(&self) -> bool
        ensures { (result ≡ true) ↔ (self.now.stage ≡ Stage.Ended) }
    {
        matches!(self.stage, Stage::Ended)
    }

    /// The objects that it moved and those that it failed, in the order of their exchanges. Of a moved one it tells for certain where it was.
    pub fn into_told(self) -> (Vec<Move>, Vec<Addr>)
        ensures moves { result.0.items ≡ self.moves }
        ensures fails { result.1.items ≡ self.fails }
    {
        (self.moves, self.fails)
    }

    /// Where it stands.
    #[inline]
    pub(crate) fn stage(&self) -> Stage
        ensures { result ≡ self.now.stage }
    {
        self.stage
    }

    #[inline]
    pub(crate) fn set_stage(&mut self, stage: Stage)
        ensures { self.new ≡ record self.old { stage = stage } }
    {
        self.stage = stage;
    }

    /// Whether no exchange is prepared.
    #[inline]
    pub(crate) fn is_between(&self) -> bool
        ensures { (result ≡ true) ↔ (self.now.stage ≡ Stage.Between) }
    {
        matches!(self.stage, Stage::Between)
    }

    /// The place that it has to spare for this slot size, or 0.
    #[inline]
    pub(crate) fn spare(&self, size: u32) -> u64
        requires { size ≤ 64 }
        ensures { result ≡ slice_index self.now.spares size }
    {
        self.spares[size as usize]
    }

    #[inline]
    pub(crate) fn set_spare(&mut self, size: u32, to: u64)
        requires { size ≤ 64 }
        ensures value { self.new ≡ record self.old { spares = slice_set self.old.spares size to } }
        ensures length { length self.old.spares ≡ 65 }
    {
        self.spares[size as usize] = to;
    }

    /// How many of the lowest blocks can't take this slot size.
    #[inline]
    pub(crate) fn passed(&self, size: u32) -> u32
        requires { size ≤ 64 }
        ensures { result ≡ slice_index self.now.passed size }
    {
        self.passed[size as usize]
    }

    #[inline]
    pub(crate) fn set_passed(&mut self, size: u32, blocks: u32)
        requires { size ≤ 64 }
        ensures value { self.new ≡ record self.old { passed = slice_set self.old.passed size blocks } }
        ensures length { length self.old.passed ≡ 65 }
    {
        self.passed[size as usize] = blocks;
    }

    /// How many blocks there are.
    #[inline]
    pub(crate) fn blocks(&self) -> u32
        ensures { result ≡ self.now.layout.blocks }
    {
        self.layout.blocks
    }

    /// The number of the first word behind the nursery.
    #[inline]
    pub(crate) fn old_word(&self) -> u64
        ensures value { result ≡ old_base self.now.layout }
        ensures layout { IsLayout self.now.layout }
    {
        self.layout.old_word()
    }

    /// The number of the first word behind blocks and pages.
    #[inline]
    pub(crate) fn globals_word(&self) -> u64
        ensures value { result ≡ globals_base self.now.layout }
        ensures layout { IsLayout self.now.layout }
    {
        self.layout.globals_word()
    }

    /// Its place in the team, and how many there are.
    #[inline]
    pub(crate) fn place_in_team(&self) -> (u32, u32)
        ensures { result ≡ (self.now.number, self.now.team) }
    {
        (self.number, self.team)
    }

    /// Its oldest item, which it takes.
    pub(crate) fn take_item(&mut self) -> Option<Gray>
        ensures { MatchOption result ((self.old.queue ≡ []) × (self.new ≡ self.old))
            (λ item. (self.old.queue ≡ item ∷ self.new.queue) × (self.new ≡ record self.old { queue = self.new.queue })) }
    {
        if self.taken == self.items.len() {
            return None;
        }
        let item = self.items[self.taken];
        self.taken += 1;
        Some(item)
    }

    /// Takes the object at this word in hand, which has this first word and so many fields.
    pub(crate) fn take_in_hand(&mut self, at: u64, first: u64, fields: u32)
        requires { at < 2 ^ 37 }
        ensures { TakesInHand self.old at first fields self.new }
    {
        self.hand = Hand {
            at,
            kind: kind_of(self.shapes.as_slice(), first),
            from: 0,
            fields,
        };
    }

    /// The next slot of the object in hand, by its number.
    pub(crate) fn next_slot(&mut self) -> Option<u64>
        ensures same { self.new ≡ record self.old { hand = self.new.hand } }
        ensures next { MatchOption result ((slots_in_hand self.old.hand ≡ []) × (slots_in_hand self.new.hand ≡ []))
            (λ slot. slots_in_hand self.old.hand ≡ slot ∷ slots_in_hand self.new.hand) }
        ensures fewer { IfSome result (λ _. self.new.hand.fields - self.new.hand.from < self.old.hand.fields - self.old.hand.from) }
    {
        let i = self.hand.kind.next_strong(self.hand.from, self.hand.fields);
        if i == self.hand.fields {
            self.hand.from = i;
            return None;
        }
        self.hand.from = i + 1;
        Some(self.hand.at + 2 + i as u64)
    }

    /// The object has moved, and its copy is an item. It takes no memory.
    pub(crate) fn tell_move(&mut self, from: u64, to: u64)
        requires room { length self.old.moves + length self.old.fails < self.old.layout.nursery }
        requires from_above { 512 ≤ from }
        requires from_below { from < 2 ^ 37 }
        requires to_above { 512 ≤ to }
        requires to_below { to < 2 ^ 37 }
        ensures { self.new ≡ record self.old { moves = self.old.moves ++ move_of from to ∷ []; queue = self.old.queue ++ Whole (byte_at to) ∷ [] } }
    {
        self.moves
            .push(Move {
                from: Addr::at_word(from),
                to: Addr::at_word(to),
            })
            .unwrap();
        add_whole(&mut self.items, to);
    }

    /// The object has failed, and is an item. It takes no memory.
    pub(crate) fn tell_fail(&mut self, at: u64)
        requires room { length self.old.moves + length self.old.fails < self.old.layout.nursery }
        requires above { 512 ≤ at }
        requires below { at < 2 ^ 37 }
        ensures { self.new ≡ record self.old { fails = self.old.fails ++ byte_at at ∷ []; queue = self.old.queue ++ Whole (byte_at at) ∷ [] } }
    {
        self.fails.push(Addr::at_word(at)).unwrap();
        add_whole(&mut self.items, at);
    }
}

/// The object at this word is an item more. It takes no memory.
fn add_whole(items: &mut Vec<Gray>, at: u64)
    requires room { length items.old.items < vec_capacity items.old }
    requires above { 512 ≤ at }
    requires below { at < 2 ^ 37 }
    ensures added { items.new.items ≡ items.old.items ++ Whole (byte_at at) ∷ [] }
    ensures room { vec_capacity items.old ≤ vec_capacity items.new }
{
    items
        .push(Gray::Whole {
            at: Addr::at_word(at),
        })
        .unwrap();
}

/// Which fields are strong of an object with this first word, whichever of its low bits are set; none, where no class has it.
fn kind_of(shapes: &[Shape], first: u64) -> Descriptor
    ensures { IsKindOf shapes.now (class_of first) result }
{
    let class = (first / 8).saturating_sub(1);
    if class < shapes.len() as u64 {
        shapes[class as usize].kind
    } else {
        Descriptor::PtrFree
    }
}
