ghost use Rattle.std.specs.Prelude.{◌≡◌, ◌++◌, ◌⊎◌, [], ◌∷◌, true, false, IfOk, IsErr, OnErr, Some, option_copied};
ghost use Rattle.turn_lock.specs.Histories.{own};
ghost use Rattle.world_steps.specs.Calls.{IsOfJob, IsWholeOfJob, RanOutOfMemory, StepsTo};
ghost use Rattle.world_steps.specs.First.{IsFirst};
ghost use Rattle.world_steps.specs.World.{first_over};
ghost use Rattle.chronicle.specs.History.{IsSafeHistory, TellsMeaning, actor_of, entry, actor_number, outcome_told};
ghost use Rattle.chronicle.specs.Kept.{IsLeftBy};

use crate::beginning::Beginning;
use crate::seat::ActorSeat;
use body_eval::Done;
use disk::{MemDisk, SteadyDisk};
use event_script::Event;
use ids::Outcome;
use serial_meaning::Whole;
use std::alloc::Global;
use std::marker::Model;
use std::snapshot::Snapshot;
use turn_lock::KeepsHistory;
use world_steps::{EventAnswer, FirstDisk, NoMemory, World};

/// An event of the history, and what was told of it.
#[derive(Drop)]
pub struct Entry {
    pub event: Event,
    pub told: EventAnswer,
}

/// What is told of an event that was committed.
#[derive(Clone, Copy)]
pub struct Committed {
    pub told: EventAnswer,
}

impl Committed {
    /// The outcome that the clearinghouse has recorded after the event, if it is one of the
    /// clearinghouse and it has; else none.
    pub fn outcome(&self) -> Option<Outcome>
        ensures { result ≡ outcome_told self.now.told }
    {
        outcome_of(self.told)
    }
}

/// The outcome that is told.
pub(crate) fn outcome_of(told: EventAnswer) -> Option<Outcome>
    ensures { result ≡ outcome_told told }
{
    match told {
        EventAnswer::House(_, _, outcome) => outcome,
        EventAnswer::Unfit
        | EventAnswer::Ignored
        | EventAnswer::Refused(_)
        | EventAnswer::Did(_, _) => None,
    }
}

/// A history, and the world that it reaches. Contracts see both, with the world's job and the disk
/// with which the run began, and whether an event found no memory. The world has a place of its own
/// in memory: so what moves at each turn of the lock is small.
#[derive(Drop)]
pub struct Kept<'a, D: SteadyDisk + Drop = MemDisk> {
    alloc: Global,
    entries: Vec<Entry>,
    world: Box<World<'a, D>>,
    out_of_memory: bool,
    first: Snapshot<D>,
}

impl<'a, D: SteadyDisk + Drop> Model for Kept<'a, D> {
    ghost use Rattle.task_tree.specs.Codes.{program_codes};
    ghost use Rattle.chronicle.specs.Kept.{KeptOf, Reaches};

    ghost Value = { KeptOf };

    ghost coded = { Prim.hlevel program_codes };

    ghost view = { λ k. record {
      on = k.world.value;
      first = D.device k.first.value;
      entries = k.entries.items;
      out_of_memory = k.out_of_memory;
    } };

    ghost invariant = { λ k. Reaches k.world.value.job (D.device k.first.value) k.entries.items k.world.value.world k.out_of_memory };
}

impl<'a, D: SteadyDisk + Drop> KeepsHistory for Kept<'a, D> {
    ghost use Rattle.chronicle.specs.History.{actor_of, beginning};

    type Entry = Entry;

    type Fixed = Beginning<D>;

    ghost history = { λ k. k.entries };

    ghost actor_of = { actor_of };

    ghost fixed = { λ k. beginning k.on.job k.first };
}

impl<'a, D: SteadyDisk + Drop> Kept<'a, D> {
    /// The first world of a job over the disk with which its run begins, with no history. Refused
    /// only when out of memory (E9).
    pub fn new(alloc: Global, first: FirstDisk<'a, D>) -> Result<Kept<'a, D>, NoMemory>
        ensures kept { IfOk result (λ k. (k.on.job ≡ first.entry.job) × (k.entries ≡ []) × (k.out_of_memory ≡ false)) }
        ensures world { IfOk result (λ k. IsFirst first.entry.job (D.device first.entry.disk)
            × (k.on.world ≡ first_over (D.device first.entry.disk))) }
        ensures first { IfOk result (λ k. k.first ≡ D.device first.entry.disk) }
    {
        let _checked = first.job().checked();
        let disk = Snapshot::of(first.disk());
        let over = World::over(alloc, first)?;
        let Ok(world) = Box::new(alloc, over) else {
            return Err(NoMemory);
        };
        Ok(Kept {
            alloc,
            entries: Vec::new(alloc),
            world,
            out_of_memory: false,
            first: disk,
        })
    }

    /// An event of the seat's actor is carried out, an Exec by the turn at hand and a Whole by the
    /// task that was evaluated whole, if it is the ready frame's own. It goes to the end of the
    /// history, which had of the actor just the seat's entries; where what is saved on the first
    /// disk agrees, an outcome that is told is the job's meaning. E9 where there is no memory, also
    /// from then on: the history is as it was, and so is the world, except that a clearinghouse
    /// that was to answer is stopped.
    pub fn enter(
        &mut self,
        seat: &mut ActorSeat<'a, D>,
        event: Event,
        turn: Option<&Done>,
        whole: Option<&Whole>,
    ) -> Result<Committed, NoMemory>
        requires seat { seat.old.taken ≡ Some self.old.entries }
        requires owns { actor_number event ≡ seat.old.actor }
        requires turn { IsOfJob self.old.on.job (option_copied turn) }
        requires whole { IsWholeOfJob self.old.on.job (option_copied whole) }
        ensures seat { seat.new ≡ seat.old }
        ensures own { own actor_of seat.old.actor self.old.entries ≡ seat.old.entries }
        ensures job { self.new.on.job ≡ self.old.on.job }
        ensures first { self.new.first ≡ self.old.first }
        ensures step { IfOk result (λ c. StepsTo self.old.on.job event self.old.on.world self.new.on.world c.told) }
        ensures history { IfOk result (λ c. self.new.entries ≡ self.old.entries ++ entry event c.told ∷ []) }
        ensures outcome { IfOk result (λ c. TellsMeaning self.old.on.job self.old.first c.told) }
        ensures out_of_memory { OnErr result ((self.new.entries ≡ self.old.entries) × (self.new.out_of_memory ≡ true)) }
        ensures left { OnErr result ((self.new.on.world ≡ self.old.on.world)
            ⊎ RanOutOfMemory event self.old.on self.new.on) }
        ensures after { self.old.out_of_memory ≡ true → IsErr result × (self.new ≡ self.old) }
    {
        let _ = seat.actor();
        if self.out_of_memory {
            return Err(NoMemory);
        }
        let Kept {
            alloc,
            entries,
            world,
            out_of_memory,
            first: _,
        } = self;
        if entries.reserve(1).is_err() {
            *out_of_memory = true;
            return Err(NoMemory);
        }
        let Ok(told) = world.step_with(*alloc, &event, turn, whole) else {
            *out_of_memory = true;
            return Err(NoMemory);
        };
        entries.push_reserved(Entry { event, told });
        Ok(Committed { told })
    }

    /// The world.
    pub fn world(&self) -> &World<'a, D>
        ensures { result.now ≡ self.now.on }
    {
        &self.world
    }

    /// Its history, which is a safe one of the job over the disk with which it began, the world's
    /// disk, and whether an event found no memory.
    pub fn into_parts(self) -> (Vec<Entry>, D, bool)
        ensures same { result.0.items ≡ self.entry.entries }
        ensures run { IsSafeHistory self.entry.on.job self.entry.first result.0.items }
        ensures left { IsLeftBy self.entry.on.job self.entry.first result.0.items result.2 (D.device result.1) }
    {
        let Kept {
            entries,
            world,
            out_of_memory,
            ..
        } = self;
        (entries, Box::into_inner(world).into_disk(), out_of_memory)
    }
}
