ghost use Rattle.std.specs.Prelude.{◌≡◌, ◌^◌, ◌<◌, ◌≤◌, length, false, nat_eq, IsTrue, Some, None, if◌then◌else◌};
ghost use Rattle.std.specs.List.{AllByRecursion, list_all};
ghost use Rattle.ids.specs.Names.{house_of};
ghost use Rattle.ids.specs.Naming.{name_of_member};
ghost use Rattle.ids.specs.Ordered.{AreInOrder};
ghost use Rattle.codec.specs.Rosters.{has_another, names_workers};
ghost use Rattle.packet_fields.specs.Fields as field;
ghost use Rattle.saved_values.specs.Saved.{IsSavedList};
ghost use Rattle.codec.specs.Table as table;

use crate::body::{
    Abort, Beat, Body, Grant, Join, Kind, Leave, OfferAck, Refuse, ResultAck, Roster, Save, Steal,
    TaskResult,
};
use crate::fields::{fields_fit, kind_of};
use ids::{Actor, Address, Epoch, Incarnation, Member, Status};
use packet_fields::fits;
use saved_values::SavedValue;
use std::marker::Model;

/// A packet that can be written, but for its size: the number of its job, whom it goes to and what
/// it says. Contracts see these three.
#[derive(Drop)]
pub struct Packet {
    pub(crate) job: u64,
    pub(crate) to: Address,
    pub(crate) body: Body,
}

impl Model for Packet {
    ghost use Rattle.std.specs.Prelude.{IsTrue};
    ghost use Rattle.codec.specs.Table.{PacketOf, is_packet};

    ghost Value = { PacketOf };

    ghost view = { λ p. record { job = p.job; to = p.to; body = p.body } };

    ghost invariant = { λ p. IsTrue (is_packet (record { job = p.job; to = p.to; body = p.body })) };
}

impl Packet {
    /// The packet of a job with this body to this address; none where the address doesn't suit the
    /// kind (a Join goes to the clearinghouse of any epoch; a Steal and a Result to a worker or to
    /// the clearinghouse in an epoch; a Leave, a Beat and a Save to the clearinghouse in an epoch;
    /// all others to a worker), or where the body has a field that a packet can't hold, as a roster
    /// out of order.
    pub fn of(job: u64, to: Address, body: Body) -> Option<Packet>
        ensures { result ≡ (if table.is_packet (record { job = job; to = to; body = body }) then Some
            (record { job = job; to = to; body = body }) else None) }
    {
        if suits(kind_of(&body), to) && fields_fit(&body) {
            Some(Packet { job, to, body })
        } else {
            None
        }
    }

    /// A worker asks the clearinghouse of any epoch to list it.
    #[tactic(auto, unfolding(crate::specs::Table::join, packet_fields::specs::Fields::worker))]
    pub fn join(job: u64, join: Join) -> Packet
        ensures { result ≡ record { job = job; to = 2 ^ 63; body = Body.Join join } }
    {
        Packet {
            job,
            to: Address::any_house(),
            body: Body::Join(join),
        }
    }

    /// A worker is told who is listed: at most 4,096 members, by rising incarnation, none of which
    /// is its own heir.
    #[tactic(auto, using(crate::proofs::Rosters::members_fit), unfolding(crate::specs::Table::roster, packet_fields::specs::Fields::epoch, packet_fields::specs::Fields::counted))]
    pub fn roster(job: u64, to: Incarnation, roster: Roster) -> Packet
        requires few { length roster.members ≤ 4096 }
        requires rising { AreInOrder name_of_member roster.members }
        requires heirs { AllByRecursion (λ m. IsTrue (has_another m.incarnation m.status)) roster.members }
        ensures { result ≡ record { job = job; to = to; body = Body.Roster roster } }
    {
        see_workers(roster.members.as_slice());
        Packet {
            job,
            to: Address::actor(Actor::worker(to)),
            body: Body::Roster(roster),
        }
    }

    /// A thief asks a worker, or the clearinghouse in an epoch, for work.
    #[tactic(auto, unfolding(crate::specs::Table::steal, packet_fields::specs::Fields::worker, packet_fields::specs::Fields::counted))]
    pub fn steal(job: u64, to: Actor, steal: Steal) -> Packet
        ensures { result ≡ record { job = job; to = to; body = Body.Steal steal } }
    {
        Packet {
            job,
            to: Address::actor(to),
            body: Body::Steal(steal),
        }
    }

    /// The task that answers a request, and values that are saved, by the order of their places.
    #[tactic(auto, using(crate::proofs::Granted::grant_fits), unfolding(packet_fields::specs::Fields::grant, packet_fields::specs::Fields::actor, packet_fields::specs::Fields::counted))]
    pub fn grant(job: u64, to: Incarnation, grant: Grant) -> Packet
        requires thread { grant.task.thread < 64 }
        requires numbers { length grant.task.numbers ≤ 8 }
        requires saved { IsSavedList grant.saved }
        ensures { result ≡ record { job = job; to = to; body = Body.Grant grant } }
    {
        prove!(fits::counted(&grant.seq));
        prove!(fits::grant(&grant.grant));
        prove!(fits::task(&grant.task));
        see_saved(grant.saved.as_slice());
        Packet {
            job,
            to: Address::actor(Actor::worker(to)),
            body: Body::Grant(grant),
        }
    }

    /// The answer to a request where there is no work.
    #[tactic(auto, unfolding(crate::specs::Table::refuse, packet_fields::specs::Fields::counted))]
    pub fn refuse(job: u64, to: Incarnation, refuse: Refuse) -> Packet
        ensures { result ≡ record { job = job; to = to; body = Body.Refuse refuse } }
    {
        Packet {
            job,
            to: Address::actor(Actor::worker(to)),
            body: Body::Refuse(refuse),
        }
    }

    /// The outcome of a granted task, to who minted the grant or holds what waits for it.
    #[tactic(auto, unfolding(crate::specs::Table::task_result, packet_fields::specs::Fields::worker, packet_fields::specs::Fields::grant, packet_fields::specs::Fields::actor, packet_fields::specs::Fields::counted))]
    pub fn result(job: u64, to: Actor, outcome: TaskResult) -> Packet
        ensures { result ≡ record { job = job; to = to; body = Body.Result outcome } }
    {
        prove!(fits::outcome(&outcome.outcome));
        Packet {
            job,
            to: Address::actor(to),
            body: Body::Result(outcome),
        }
    }

    /// The outcome of a grant has come.
    #[tactic(auto, unfolding(crate::specs::Table::result_ack, packet_fields::specs::Fields::grant, packet_fields::specs::Fields::actor, packet_fields::specs::Fields::counted))]
    pub fn result_ack(job: u64, to: Incarnation, ack: ResultAck) -> Packet
        ensures { result ≡ record { job = job; to = to; body = Body.ResultAck ack } }
    {
        Packet {
            job,
            to: Address::actor(Actor::worker(to)),
            body: Body::ResultAck(ack),
        }
    }

    /// An offer at a hop has come, or, at hop 0, a grant.
    #[tactic(auto, unfolding(crate::specs::Table::offer_ack, packet_fields::specs::Fields::worker, packet_fields::specs::Fields::grant, packet_fields::specs::Fields::actor, packet_fields::specs::Fields::counted))]
    pub fn offer_ack(job: u64, to: Incarnation, ack: OfferAck) -> Packet
        ensures { result ≡ record { job = job; to = to; body = Body.OfferAck ack } }
    {
        prove!(fits::hop(&ack.hop));
        Packet {
            job,
            to: Address::actor(Actor::worker(to)),
            body: Body::OfferAck(ack),
        }
    }

    /// The outcome of a grant isn't wanted any more.
    #[tactic(auto, unfolding(crate::specs::Table::abort, packet_fields::specs::Fields::grant, packet_fields::specs::Fields::actor, packet_fields::specs::Fields::counted))]
    pub fn abort(job: u64, to: Incarnation, abort: Abort) -> Packet
        ensures { result ≡ record { job = job; to = to; body = Body.Abort abort } }
    {
        Packet {
            job,
            to: Address::actor(Actor::worker(to)),
            body: Body::Abort(abort),
        }
    }

    /// A worker tells the clearinghouse in an epoch that it lives.
    #[tactic(auto, unfolding(crate::specs::Table::beat, packet_fields::specs::Fields::worker, packet_fields::specs::Fields::counted))]
    pub fn beat(job: u64, epoch: Epoch, beat: Beat) -> Packet
        ensures { result ≡ record { job = job; to = house_of epoch; body = Body.Beat beat } }
    {
        Packet {
            job,
            to: Address::actor(epoch.house()),
            body: Body::Beat(beat),
        }
    }

    /// A worker tells the clearinghouse in its epoch that it has left to an heir, which is another
    /// worker.
    #[tactic(auto, unfolding(crate::specs::Table::leave, packet_fields::specs::Fields::worker))]
    pub fn leave(job: u64, epoch: Epoch, leave: Leave) -> Packet
        requires { nat_eq leave.heir leave.from ≡ false }
        ensures { result ≡ record { job = job; to = house_of epoch; body = Body.Leave leave } }
    {
        Packet {
            job,
            to: Address::actor(epoch.house()),
            body: Body::Leave(leave),
        }
    }

    /// A worker hands a value to the clearinghouse in its epoch.
    #[tactic(auto, unfolding(crate::specs::Table::save, packet_fields::specs::Fields::worker))]
    pub fn save(job: u64, epoch: Epoch, save: Save) -> Packet
        ensures { result ≡ record { job = job; to = house_of epoch; body = Body.Save save } }
    {
        prove!(fits::place(&save.place));
        prove!(fits::value(&save.value));
        Packet {
            job,
            to: Address::actor(epoch.house()),
            body: Body::Save(save),
        }
    }

    /// The number of its job.
    pub fn job(&self) -> u64
        ensures { result ≡ self.now.job }
    {
        self.job
    }

    /// Whom it goes to.
    pub fn to(&self) -> Address
        ensures { result ≡ self.now.to }
    {
        self.to
    }

    /// What it says.
    pub fn body(&self) -> &Body
        ensures body { result.now ≡ self.now.body }
        ensures packet { IsTrue (table.is_packet self.now) }
    {
        &self.body
    }

    /// What it says, taken out.
    pub fn into_body(self) -> Body
        ensures body { result ≡ self.body }
        ensures packet { IsTrue (table.is_packet self) }
    {
        self.body
    }
}

/// The words of members and of their heirs are those of workers, as their types see to it: the
/// prover then has what the types keep. It has no effect, and an optimised build leaves nothing of
/// it.
fn see_workers(members: &[Member])
    ensures { IsTrue (list_all names_workers members.now) }
{
    for member in members {
        let _word = fits::worker(&member.incarnation);
        if let Status::Left(heir) = member.status {
            let _word = fits::worker(&heir);
        }
    }
}

/// Saved values can each be written, as their types see to it: the prover then has what the types
/// keep. It has no effect, and an optimised build leaves nothing of it.
fn see_saved(values: &[SavedValue])
    ensures { IsTrue (list_all (field.saved_value None).fits values.now) }
{
    for value in values {
        let _fits = fits::saved_value(value);
    }
}

/// Whether a kind goes to an address.
pub fn suits(kind: Kind, to: Address) -> bool
    ensures { result ≡ table.suits (table.number_of kind) to }
{
    let word = to.word();
    let any_house = Address::any_house().word();
    match kind {
        Kind::Join => word == any_house,
        Kind::Steal | Kind::Result => word != any_house,
        Kind::Leave | Kind::Beat | Kind::Save => word > any_house,
        _ => word < any_house,
    }
}
