//! A node or a clearinghouse of a host, by one set of calls.
ghost use Rattle.std.specs.Prelude.{◌≡◌, [], length, true};
ghost use Rattle.actors.specs.Called.{HasFile, HouseIsCalled, HouseIsGiven, HouseIsTaken, HouseShows, IsCalled, IsFileHanded, IsHanded, IsTaken, NodeIsCalled, NodeWorks, told_house, told_node, told_outcome, told_value, told_work};

use crate::call::{Call, Seen};
use crate::error::{ActorError, HouseCallError, NodeCallError};
use crate::host_file::FileCalls;
use crate::house_actor::HouseActor;
use crate::node_actor::{NodeActor, Worked};
use disk::Disk;
use ids::{Outcome, Status};
use node_state::State;

/// A node, with the frame that it carried out last by `Call::Work`.
#[derive(Drop)]
pub struct HostNode<'a> {
    pub node: NodeActor<'a>,
    pub last: Option<Worked>,
}

/// A clearinghouse over a host's file, with what waits to be done to it.
#[derive(Drop)]
pub struct HostHouse<'a, D: Disk> {
    pub house: HouseActor<'a, D>,
    pub files: FileCalls,
}

/// An actor of a host, or one that is over.
#[derive(Drop)]
pub enum Actor<'a, D: Disk> {
    Node(HostNode<'a>),
    House(HostHouse<'a, D>),
    Over,
}

impl<'a, D: Disk> Actor<'a, D> {
    /// What is asked of it is done. Of calls that may send: 0, or 1 where it ignored them; of
    /// `Call::Work` 0 where no frame was ready, 1 where one was carried out by its own turn, 2
    /// where by its task's whole value; else what is shown.
    pub fn call(&mut self, call: Call) -> Result<i64, ActorError>
        ensures { IsCalled D.device D.planned call result self.old self.new }
    {
        match self {
            Actor::Node(node) => node.call(call),
            Actor::House(house) => house.call(call),
            Actor::Over => Err(ActorError::NotThis),
        }
    }

    /// What comes in a packet's bytes is done. 0, or 1 where it was ignored.
    pub fn take(&mut self, bytes: &[u8]) -> Result<i64, ActorError>
        ensures { IsTaken D.device D.planned bytes.now result self.old self.new }
    {
        match self {
            Actor::Node(node) => told_of_node(node.node.take(bytes)),
            Actor::House(house) => house.take(bytes),
            Actor::Over => Err(ActorError::NotThis),
        }
    }

    /// Copies the first packet that waits to a buffer that is long enough, and it waits no longer.
    /// How many bytes it has; 0 where none waits. Refused where something waits to be done to the
    /// file.
    pub fn give(&mut self, buffer: &mut [u8]) -> Result<i64, ActorError>
        ensures { IsHanded result buffer.old buffer.new self.old self.new }
    {
        match self {
            Actor::Node(node) => Ok(node.node.give(buffer) as i64),
            Actor::House(house) => house.give(buffer),
            Actor::Over => Err(ActorError::NotThis),
        }
    }

    /// Copies what is to be done next to the file to a buffer that is long enough, as
    /// `FileCalls::give` says, and it waits no longer. How many bytes that has; 0 where nothing
    /// waits.
    pub fn give_file_call(&mut self, buffer: &mut [u8]) -> Result<i64, ActorError>
        ensures length { length buffer.new ≡ length buffer.old }
        ensures handed { IsFileHanded self.old self.new }
        ensures of_house { HasFile self.old result }
    {
        match self {
            Actor::House(house) => Ok(bits(house.files.give(buffer) as u64)),
            Actor::Node(_) | Actor::Over => Err(ActorError::NotThis),
        }
    }
}

/// What is told of a node's call.
fn told_of_node(answer: Result<bool, NodeCallError>) -> Result<i64, ActorError>
    ensures { result ≡ told_node answer }
{
    Ok(i64::from(answer?))
}

/// What is told of a clearinghouse's call.
fn told_of_house(answer: Result<bool, HouseCallError>) -> Result<i64, ActorError>
    ensures { result ≡ told_house answer }
{
    Ok(i64::from(answer?))
}

impl<'a> HostNode<'a> {
    /// What is asked of a node is done.
    fn call(&mut self, call: Call) -> Result<i64, ActorError>
        ensures { NodeIsCalled call result self.old self.new }
    {
        match call {
            Call::Work => self.work(),
            Call::AskHouse => told_of_node(self.node.ask_house()),
            Call::Ask(word) => told_of_node(self.node.ask(word)),
            Call::Resend => told_of_node(self.node.resend()),
            Call::Depart(heir) => told_of_node(self.node.depart(heir)),
            Call::Tick(_) => Err(ActorError::NotThis),
            Call::See(seen) => self.show(seen),
        }
    }

    /// It carries out the ready frame that comes first, which is noted.
    fn work(&mut self) -> Result<i64, ActorError>
        ensures { NodeWorks result self.old self.new }
    {
        let worked = self.node.work()?;
        self.last = worked;
        Ok(told_of_work(&worked))
    }

    /// What it shows of itself.
    fn show(&self, seen: Seen) -> Result<i64, ActorError> {
        match seen {
            Seen::State => Ok(state_of(&self.node)),
            Seen::Ready(count) => match self.node.has_ready(count) {
                Ok(ready) => Ok(i64::from(ready)),
                Err(error) => Err(ActorError::Node(error)),
            },
            Seen::Asked => Ok(i64::from(self.node.node().parts().asker().pending().is_some())),
            Seen::Members => Ok(members(&self.node)),
            Seen::Member(index) => Ok(member(&self.node, index)),
            Seen::Minter | Seen::Grant | Seen::Frame | Seen::Turns => {
                Ok(part_of(&self.last, seen))
            }
            Seen::Outcome | Seen::Value => Err(ActorError::NotThis),
        }
    }
}

/// What is told of a ready frame that was carried out.
fn told_of_work(worked: &Option<Worked>) -> i64
    ensures { result ≡ told_work worked.now }
{
    match worked {
        None => 0,
        Some(worked) => match worked.turns {
            None => 1,
            Some(_) => 2,
        },
    }
}

/// Where a node stands.
fn state_of(node: &NodeActor<'_>) -> i64 {
    match node.node().parts().state() {
        State::Joining => 0,
        State::Member(_) => 1,
        State::Leaving(_, _) => 2,
        State::Ended => 3,
    }
}

/// How many workers a node's roster lists.
fn members(node: &NodeActor<'_>) -> i64 {
    match node.node().parts().state() {
        State::Member(roster) | State::Leaving(roster, _) => bits(roster.members.len() as u64),
        State::Joining | State::Ended => 0,
    }
}

/// One of them, if it is shown live.
fn member(node: &NodeActor<'_>, index: u64) -> i64 {
    let Ok(index) = usize::try_from(index) else {
        return 0;
    };
    match node.node().parts().state() {
        State::Member(roster) | State::Leaving(roster, _) => match roster.members.get(index) {
            Some(member) if member.status == Status::Live => bits(member.incarnation.word()),
            _ => 0,
        },
        State::Joining | State::Ended => 0,
    }
}

/// A number of 64 bits, as a signed one of these bits.
fn bits(number: u64) -> i64 {
    i64::from_le_bytes(number.to_le_bytes())
}

/// A number of the frame that was carried out last.
fn part_of(last: &Option<Worked>, seen: Seen) -> i64 {
    let Some(last) = last else {
        return 0;
    };
    match seen {
        Seen::Minter => bits(last.minter),
        Seen::Grant => bits(last.number),
        Seen::Frame => bits(last.frame),
        _ => bits(last.turns.unwrap_or(0)),
    }
}

impl<'a, D: Disk> HostHouse<'a, D> {
    /// Whether nothing waits for the host.
    fn is_clear(&self) -> bool
        ensures { result ≡ true → self.now.house.waits ≡ [] }
    {
        self.files.is_empty() && self.house.is_clear()
    }

    /// What is asked of a clearinghouse is done.
    fn call(&mut self, call: Call) -> Result<i64, ActorError>
        ensures { HouseIsCalled D.device D.planned call result self.old self.new }
    {
        match call {
            Call::Tick(now) => {
                if !self.is_clear() {
                    return Err(ActorError::Unsent);
                }
                told_of_house(self.house.tick(now))
            }
            Call::See(seen) => self.show(seen),
            _ => Err(ActorError::NotThis),
        }
    }

    /// What comes in a packet's bytes is done.
    fn take(&mut self, bytes: &[u8]) -> Result<i64, ActorError>
        ensures { HouseIsTaken D.device D.planned bytes.now result self.old self.new }
    {
        if !self.is_clear() {
            return Err(ActorError::Unsent);
        }
        told_of_house(self.house.take(bytes))
    }

    /// The first packet that waits is given.
    fn give(&mut self, buffer: &mut [u8]) -> Result<i64, ActorError>
        ensures { HouseIsGiven result buffer.old buffer.new self.old self.new }
    {
        if !self.files.is_empty() {
            return Err(ActorError::Unsent);
        }
        Ok(self.house.give(buffer) as i64)
    }

    /// What it shows of itself.
    fn show(&self, seen: Seen) -> Result<i64, ActorError>
        ensures { HouseShows seen result self.now.house }
    {
        match seen {
            Seen::State => Ok(if self.house.house().outcome().is_ok() {
                4
            } else {
                5
            }),
            Seen::Outcome => match self.house.house().outcome() {
                Ok(outcome) => Ok(told_of_outcome(&outcome)),
                Err(error) => Err(ActorError::House(error)),
            },
            Seen::Value => match self.house.house().outcome() {
                Ok(outcome) => Ok(value_of(&outcome)),
                Err(error) => Err(ActorError::House(error)),
            },
            _ => Err(ActorError::NotThis),
        }
    }
}

/// Whether there is an outcome, and which kind.
fn told_of_outcome(outcome: &Option<Outcome>) -> i64
    ensures { result ≡ told_outcome outcome.now }
{
    match outcome {
        None => 0,
        Some(Outcome::Value(_)) => 1,
        Some(Outcome::TooDeep) => 2,
    }
}

/// The value of an outcome.
fn value_of(outcome: &Option<Outcome>) -> i64
    ensures { result ≡ told_value outcome.now }
{
    match outcome {
        Some(Outcome::Value(value)) => *value,
        Some(Outcome::TooDeep) | None => 0,
    }
}
