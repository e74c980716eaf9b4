ghost use Rattle.std.specs.Prelude.{◌≡◌, ◌≢◌, ◌-◌, ◌^◌, ◌≤◌, ◌<◌, ◌↔◌, true, None, IfOk, length, slice_index};
ghost use Rattle.sg_program.specs.declared.program.Program.{Program as AnyProgram};
ghost use Rattle.sg_graph.specs.Graph.{Graph};
ghost use Rattle.sg_graph.specs.Book.{Book};
ghost use Rattle.sg_rules.specs.Rules.{Constants};
ghost use Rattle.sg_actor.specs.declared.mutator.Stage.TheVariants.{Within};
ghost use Rattle.sg_actor.specs.State.{actor_of, leave_of};
ghost use Rattle.sg_actor.specs.Turning.{HasClassForNext, TakesTurn};
ghost use Rattle.sg_frag.specs.Plain.{Led};
ghost use Rattle.sg_mutate.specs.Epochs.{IsOpened, IsOver};
ghost use Rattle.sg_mutate.specs.Going.{AreActors, IsOnSpace};

use crate::laws::{ends_are_taken, opens_boarded, turns_are_taken, turns_owe_less};
use sg_actor::Mutator;
use sg_cells::ScheduleDriver;
use sg_frag::PlainPort;
use sg_order::{goes_always, goes_so_far};
use sg_space::Space;
use sg_words::List;
use std::alloc::{AllocError, Global};

/// What an epoch leaves: the space, and its mutators by number.
#[derive(Drop)]
pub struct EpochEnd<'a> {
    pub space: Space,
    pub mutators: List<Mutator<'a>>,
}

/// One epoch: the mutators that haven't ended take turns in the order that the driver gives, each over the lent space, until each
/// has ended, yielded or left with a request. It takes no memory beside what it is given. It takes a turn for each statement that is
/// begun, for each exchange and each claim of a slot, won or lost, two more for each block that a search sweeps, and one for each mutator
/// that ends or yields.
pub fn epoch<'a>(
    alloc: Global,
    space: Space,
    mutators: List<Mutator<'a>>,
    order: &mut ScheduleDriver,
) -> Result<EpochEnd<'a>, AllocError>
    requires opened { (p : AnyProgram) × (g : Graph) × (b : Book) × IsOpened p g b space mutators }
    ensures over { IfOk result (λ end. (p : AnyProgram) (g : Graph) (b : Book) → IsOpened p g b space mutators.entry →
        IsOver p g b space mutators.entry order.old end.space end.mutators order.new) }
{
    let _ = alloc;
    let mut space = space;
    let mut mutators = mutators.into_vec();
    take_turns(&mut space, mutators.as_mut_slice(), order);
    Ok(EpochEnd {
        space,
        mutators: List::from_vec(mutators),
    })
}

/// Gives turns until each mutator has left.
fn take_turns(space: &mut Space, mutators: &mut [Mutator<'_>], order: &mut ScheduleDriver)
    requires opened { (p : AnyProgram) × (g : Graph) × (b : Book) × IsOpened p g b space.old mutators.old }
    ensures over { (p : AnyProgram) (g : Graph) (b : Book) → IsOpened p g b space.old mutators.old →
        IsOver p g b space.old mutators.old order.old space.new mutators.new order.new }
{
    // The laws that it rests on: these calls do nothing.
    goes_so_far();
    goes_always();
    opens_boarded();
    turns_are_taken();
    ends_are_taken();
    turns_owe_less();
    let actors = Actors::of(mutators);
    let all = actors.all();
    order.begin();
    let mut ended: u32 = 0;
    'turns: while ended != all {
        let i = order.next_actor(actors.count, ended);
        let k = actors.number(i);
        if take_turn(&mut mutators[k], space) {
            ended |= 1 << i;
        }
    }
}

/// The mutators that haven't ended as an epoch begins, by number: its actors.
#[derive(Clone, Copy)]
struct Actors {
    numbers: [u32; 16],
    count: u32,
}

impl Actors {
    fn of(mutators: &[Mutator<'_>]) -> Actors
        requires { length mutators.now ≤ 16 }
        ensures { AreActors mutators.now result }
    {
        let mut actors = Actors {
            numbers: [0; 16],
            count: 0,
        };
        for k in 0..mutators.len() {
            if !mutators[k].ended() {
                actors.numbers[actors.count as usize] = k as u32;
                actors.count += 1;
            }
        }
        actors
    }

    /// The number of the mutator that is this actor.
    fn number(&self, i: u32) -> usize
        requires { i < 16 }
        ensures { result ≡ slice_index self.now.numbers i }
    {
        self.numbers[i as usize] as usize
    }

    /// A bit for each actor.
    fn all(&self) -> u32
        requires { self.now.count ≤ 16 }
        ensures { result ≡ 2 ^ self.now.count - 1 }
    {
        (1 << self.count) - 1
    }
}

/// One turn of a mutator, over the lent space. The answer says whether it has left its epoch.
fn take_turn(mutator: &mut Mutator<'_>, space: &mut Space) -> bool
    requires going { leave_of mutator.old.stage ≡ None }
    requires whole { mutator.old.stage ≢ Within }
    requires classed { HasClassForNext mutator.old }
    requires on { (lay : Constants) × IsOnSpace mutator.old.program lay space.old (actor_of mutator.old) }
    ensures turned { (lay : Constants) → IsOnSpace mutator.old.program lay space.old (actor_of mutator.old) →
        TakesTurn lay Led mutator.old space.old mutator.new space.new }
    ensures left { (result ≡ true) ↔ (leave_of mutator.new.stage ≢ None) }
{
    let mut port = PlainPort::new(space);
    turn_over(mutator, &mut port);
    mutator.leave().is_some()
}

/// One turn of a mutator, over the port's space.
fn turn_over(mutator: &mut Mutator<'_>, port: &mut PlainPort<'_>)
    requires going { leave_of mutator.old.stage ≡ None }
    requires whole { mutator.old.stage ≢ Within }
    requires classed { HasClassForNext mutator.old }
    requires on { (lay : Constants) × IsOnSpace mutator.old.program lay port.old.space.now (actor_of mutator.old) }
    ensures same { port.new.space.ghost_name ≡ port.old.space.ghost_name }
    ensures turned { (lay : Constants) → IsOnSpace mutator.old.program lay port.old.space.now (actor_of mutator.old) →
        TakesTurn lay Led mutator.old port.old.space.now mutator.new port.new.space.now }
{
    mutator.turn_on(port);
}
