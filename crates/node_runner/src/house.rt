ghost use Rattle.std.specs.Prelude.{◌≡◌, Some};
ghost use Rattle.ids.specs.declared.outcome.Outcome.{Outcome as OutcomeOf};
ghost use Rattle.serial_meaning.specs.Job.{meaning_of};
ghost use Rattle.world_steps.specs.Agrees.{StoredAgree};
ghost use Rattle.chronicle.specs.History.{outcome_told};
ghost use Rattle.chronicle.specs.Seats.{IsSeatIn};
ghost use Rattle.node_runner.specs.Runs.{TakesOutcomesOf};

use crate::inbox::Inbox;
use crate::saves::Saves;
use crate::shared::{Shared, commit};
use board::Note;
use chronicle::{ActorSeat, Committed, Receiver};
use clearinghouse::HouseError;
use disk::SteadyDisk;
use event_script::{Event, HouseEvent};
use runner_parts::{End, Fates, Gate, Turns, is_beginning, is_to_sleep, rest_idle, wait};
use std::alloc::Global;
use std::marker::Model;
use std::sync::Wait;
use std::thread::yield_now;
use std::time::Clock;
use world_steps::EventAnswer;

/// How many events are committed between two ticks of the clearinghouse, and how far the moment
/// goes with each.
const TICK: u64 = 100;

/// The place of the clearinghouse, from which its fates are drawn: behind those of nodes. Those of
/// Saves are drawn from the next one.
const PLACE: u64 = 64;

/// It rests as a node that is alone in its run.
const ALONE: u8 = 1;

/// What the clearinghouse's thread has in a run: what the actors share, a seat, what it knows of
/// the board, the packets and the values that may come to it, how many events were committed when
/// it ticked last, how often it did, in how many turns in a row it did nothing, and how often its
/// bell had been rung when this turn began. Contracts see the chronicle.
#[derive(Drop)]
struct HouseRun<'r, 's, 'a, G: Gate + Sync, D: SteadyDisk + Drop> {
    alloc: Global,
    shared: &'r Shared<'s, 'a, G, D>,
    seat: ActorSeat<'a, D>,
    note: Note,
    inbox: Inbox,
    saves: Saves,
    ticked: u64,
    ticks: u64,
    idle: u64,
    rung: u64,
}

impl<'r, 's, 'a, G: Gate + Sync, D: SteadyDisk + Drop> Model for HouseRun<'r, 's, 'a, G, D> {
    ghost use Rattle.std.specs.Prelude.{◌≡◌};
    ghost use Rattle.task_tree.specs.Codes.{program_codes};
    ghost use Rattle.chronicle.specs.Seats.{ChronicleOf, IsSeatIn};
    ghost use Rattle.node_runner.specs.Runs.{TakesOutcomesOf};

    ghost Value = { ChronicleOf };

    ghost coded = { Prim.hlevel program_codes };

    ghost view = { λ r. r.shared.now.chronicle.now };

    ghost invariant = { λ r. IsSeatIn r.shared.now.chronicle.now r.seat
        × TakesOutcomesOf r.shared.now.chronicle.now r.shared.now.board.now × (r.note.board ≡ r.shared.now.board.now.board) };
}

/// The clearinghouse's turns, until the run ends. It is opened first.
pub(crate) fn run_house<'a, R: Wait + Clock, G: Gate + Sync, D: SteadyDisk + Drop>(
    rt: &R,
    alloc: Global,
    shared: &Shared<'_, 'a, G, D>,
    seat: ActorSeat<'a, D>,
) -> ActorSeat<'a, D>
    requires seat { IsSeatIn shared.now.chronicle.now seat }
    requires tie { TakesOutcomesOf shared.now.chronicle.now shared.now.board.now }
    ensures { IsSeatIn shared.entry.now.chronicle.now result }
{
    let faults = shared.config.faults();
    let fates = Fates::new(faults.word, PLACE, faults.lose, faults.repeat);
    let fates_of_saves = Fates::new(faults.word, PLACE + 1, faults.lose, faults.repeat);
    let mut run = HouseRun {
        alloc,
        shared,
        seat,
        note: shared.board.note(),
        inbox: Inbox::new(None, Receiver::Clearinghouse, fates),
        saves: Saves::new(alloc, fates_of_saves),
        ticked: 0,
        ticks: 0,
        idle: 0,
        rung: 0,
    };
    let mut turns = Turns::new();
    if run.commit_event(rt, HouseEvent::Restart) {
        for _ in rt.forever() {
            if !shared.counts.take_turn(&mut turns) || !run.turn(rt) {
                break;
            }
        }
    }
    let HouseRun { seat, .. } = run;
    seat
}

impl<'r, 's, 'a, G: Gate + Sync, D: SteadyDisk + Drop> HouseRun<'r, 's, 'a, G, D> {
    /// A turn: the next packet is taken, and afterwards it ticks, if it is time. Whether the run
    /// goes on.
    fn turn<R: Wait + Clock>(&mut self, rt: &R) -> bool
        ensures { self.new ≡ self.old }
    {
        self.rung = self.shared.bells.house_rung();
        let sent = self.shared.chronicle.sent();
        let came = self
            .inbox
            .take(rt, self.alloc, self.shared.chronicle, &mut self.seat);
        self.shared.pace.see(self.inbox.seen());
        match came {
            Ok(Some(delivered)) => {
                self.shared.wake_receivers(sent);
                self.idle = 0;
                self.shared.counts.count_event();
                if !self.follow_up(&delivered.committed) {
                    return false;
                }
            }
            Ok(None) => {
                if !self.save_next(rt) {
                    return false;
                }
            }
            Err(_) => {
                self.shared.counts.end_by(End::Memory);
                return false;
            }
        }
        let events = self.shared.counts.events();
        if events < self.ticked.saturating_add(TICK) {
            return true;
        }
        self.shared
            .gate
            .passed(events, self.shared.chronicle.sent());
        self.ticked = events;
        self.ticks = self.ticks.saturating_add(1);
        let moment = self.ticks.saturating_mul(TICK);
        self.commit_event(rt, HouseEvent::Tick(moment))
    }

    /// Where no other packet came, a value is saved, if it is time; else it rests. Whether the run
    /// goes on.
    fn save_next<R: Wait + Clock>(&mut self, rt: &R) -> bool
        ensures { self.new ≡ self.old }
    {
        let sent = self.shared.chronicle.sent();
        match self.saves.take(rt, self.shared.chronicle, &mut self.seat) {
            Ok(Some(committed)) => {
                self.shared.wake_receivers(sent);
                self.idle = 0;
                self.shared.counts.count_event();
                self.follow_up(&committed)
            }
            Ok(None) => {
                self.rest(rt);
                true
            }
            Err(_) => {
                self.shared.counts.end_by(End::Memory);
                false
            }
        }
    }

    /// It lets others go on.
    fn rest<R: Wait + Clock>(&mut self, rt: &R)
        ensures { self.new ≡ self.old }
    {
        self.idle = self.idle.saturating_add(1);
        let events = self.shared.counts.events();
        if is_beginning(events, self.shared.config.nodes(), self.idle) {
            yield_now();
        } else if is_to_sleep(self.idle) {
            let most = wait(ALONE, false);
            self.shared.bells.sleep_house(rt, self.rung, most);
        } else {
            rest_idle(rt, ALONE, self.idle);
        }
    }

    /// An event of the clearinghouse is committed. Whether the run goes on: not where there is no
    /// memory, nor where `follow_up` ends it.
    fn commit_event<R: Wait>(&mut self, rt: &R, event: HouseEvent) -> bool
        ensures { self.new ≡ self.old }
    {
        let (chronicle, counts) = (self.shared.chronicle, self.shared.counts);
        let sent = chronicle.sent();
        match commit(rt, chronicle, counts, &mut self.seat, Event::AtHouse(event)) {
            Some(committed) => {
                self.shared.wake_receivers(sent);
                self.follow_up(&committed)
            }
            None => false,
        }
    }

    /// What follows from what was told of an event of the clearinghouse. The run goes on, unless an
    /// outcome is told, which is published, or the clearinghouse can't go on with its disk.
    fn follow_up(&mut self, committed: &Committed) -> bool
        requires { StoredAgree self.old.job self.old.first → (o : OutcomeOf)
            → outcome_told committed.now.told ≡ Some o → o ≡ meaning_of self.old.job }
        ensures { self.new ≡ self.old }
    {
        if let Some(outcome) = committed.outcome() {
            if self.shared.board.publish(&mut self.note, outcome).is_err() {
                self.shared.counts.end_by(End::Memory);
            }
            self.shared.bells.wake_nodes();
            return false;
        }
        match refused(committed.told) {
            Some(number) => {
                self.shared.counts.end_by(End::Disk(number));
                false
            }
            None => true,
        }
    }
}

/// The number of a refusal after which the clearinghouse can't go on.
fn refused(told: EventAnswer) -> Option<u8> {
    let EventAnswer::House(Some(error), _, _) = told else {
        return None;
    };
    match error {
        HouseError::Spent
        | HouseError::JobMismatch
        | HouseError::Damaged
        | HouseError::Device
        | HouseError::Version => Some(error.number()),
        HouseError::Bytes(_) | HouseError::RosterFull | HouseError::Memory => None,
    }
}
