ghost use Rattle.std.specs.Prelude.{◌≡◌, IfOk, IfSome, Some};
ghost use Rattle.ids.specs.declared.outcome.Outcome.{Outcome as OutcomeOf};
ghost use Rattle.serial_meaning.specs.Job.{meaning_of};
ghost use Rattle.world_steps.specs.Agrees.{StoredAgree};
ghost use Rattle.chronicle.specs.Deliveries.{delivery};
ghost use Rattle.chronicle.specs.History.{actor_number, outcome_told};
ghost use Rattle.chronicle.specs.Seats.{IsSeatIn};

use chronicle::{ActorSeat, Chronicle, Committed, Delivery, Receiver, delivery_to};
use disk::SteadyDisk;
use event_script::NodePlace;
use runner_parts::{Fate, Fates};
use std::alloc::Global;
use std::sync::Wait;
use world_steps::NoMemory;

/// The packets that come to an actor: where it acts, the node's place or, where there is none, the
/// clearinghouse; whose packets they are; what becomes of them, and of the next one, where that was
/// drawn; from which one on they are still to be looked at; and the one that comes a second time.
#[derive(Drop)]
pub(crate) struct Inbox {
    place: Option<NodePlace>,
    pub(crate) receiver: Receiver,
    fates: Fates,
    fate: Option<Fate>,
    next: u64,
    again: Option<u64>,
}

/// A packet that came: its bytes where it is a roster that came for the first time, and what was
/// told of it.
#[derive(Drop)]
pub(crate) struct Delivered {
    pub(crate) roster: Option<Vec<u8>>,
    pub(crate) committed: Committed,
}

impl Inbox {
    /// None of the packets was looked at.
    pub(crate) fn new(place: Option<NodePlace>, receiver: Receiver, fates: Fates) -> Inbox {
        Inbox {
            place,
            receiver,
            fates,
            fate: None,
            next: 0,
            again: None,
        }
    }

    /// The packet that comes in this turn, if one does: one that comes a second time, or else the
    /// next one that is addressed to the actor, if it isn't lost. Its delivery is committed.
    /// Refused only when out of memory.
    pub(crate) fn take<'a, R: Wait, D: SteadyDisk + Drop>(
        &mut self,
        rt: &R,
        alloc: Global,
        chronicle: &Chronicle<'a, D>,
        seat: &mut ActorSeat<'a, D>,
    ) -> Result<Option<Delivered>, NoMemory>
        requires { IsSeatIn chronicle.now seat.old }
        ensures same { IsSeatIn chronicle.entry.now seat.new }
        ensures outcome { IfOk result (λ d. IfSome d (λ came. StoredAgree chronicle.entry.now.job chronicle.entry.now.first
            → (o : OutcomeOf) → outcome_told came.committed.told ≡ Some o → o ≡ meaning_of chronicle.entry.now.job)) }
    {
        if !seat.owns(&delivery_to(self.place, 0)) {
            return Ok(None);
        }
        if let Some(index) = self.again {
            self.again = None;
            let committed = chronicle.commit(rt, seat, delivery_to(self.place, index))?;
            return Ok(Some(Delivered {
                roster: None,
                committed,
            }));
        }
        let sent = chronicle.sent();
        if chronicle.sent_to(self.receiver) <= self.next {
            self.next = self.next.max(sent);
            return Ok(None);
        }
        match self.next_fate() {
            Fate::Lost => {
                self.lose(rt, chronicle, seat);
                Ok(None)
            }
            fate => self.receive(rt, alloc, chronicle, seat, fate),
        }
    }

    /// How many packets were looked at.
    pub(crate) fn seen(&self) -> u64 {
        self.next
    }

    /// What becomes of the next packet, which is drawn once for each.
    fn next_fate(&mut self) -> Fate
        ensures { self.new.place ≡ self.old.place }
    {
        match self.fate {
            Some(fate) => fate,
            None => {
                let fate = self.fates.next();
                self.fate = Some(fate);
                fate
            }
        }
    }

    /// The next packet is looked for, and passed over.
    fn lose<'a, R: Wait, D: SteadyDisk + Drop>(
        &mut self,
        rt: &R,
        chronicle: &Chronicle<'a, D>,
        seat: &mut ActorSeat<'a, D>,
    )
        requires { IsSeatIn chronicle.now seat.old }
        ensures { seat.new ≡ seat.old }
    {
        match chronicle.packet_for(rt, seat, self.next, self.receiver) {
            Ok(index) => self.pass_by(index),
            Err(seen) => self.next = seen,
        }
    }

    /// The next packet is looked for, and comes in the same turn of the lock.
    fn receive<'a, R: Wait, D: SteadyDisk + Drop>(
        &mut self,
        rt: &R,
        alloc: Global,
        chronicle: &Chronicle<'a, D>,
        seat: &mut ActorSeat<'a, D>,
        fate: Fate,
    ) -> Result<Option<Delivered>, NoMemory>
        requires seat { IsSeatIn chronicle.now seat.old }
        requires owns { actor_number (delivery self.old.place 0) ≡ seat.old.actor }
        ensures same { IsSeatIn chronicle.entry.now seat.new }
        ensures outcome { IfOk result (λ d. IfSome d (λ came. StoredAgree chronicle.entry.now.job chronicle.entry.now.first
            → (o : OutcomeOf) → outcome_told came.committed.told ≡ Some o → o ≡ meaning_of chronicle.entry.now.job)) }
    {
        let place = self.place;
        match chronicle.commit_delivery(rt, alloc, seat, self.next, self.receiver, place)? {
            Delivery::Came(arrived, committed) => {
                self.pass_by(arrived.index);
                if fate == Fate::Twice {
                    self.again = Some(arrived.index);
                }
                Ok(Some(Delivered {
                    roster: arrived.roster,
                    committed,
                }))
            }
            Delivery::Looked(seen) => {
                self.next = seen;
                Ok(None)
            }
        }
    }

    /// A packet was found: the next one is looked for behind it.
    fn pass_by(&mut self, index: u64) {
        self.next = index.saturating_add(1);
        self.fate = None;
    }
}
