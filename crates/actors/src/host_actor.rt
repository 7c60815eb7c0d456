//! An actor of a host that has only numbers and bytes.
ghost use Rattle.std.specs.Prelude.{◌≡◌, IfOk};
ghost use Rattle.jobs.specs.Jobs.{IsJobOf};
ghost use Rattle.actors.specs.Hosted.{IsOpen, IsStarted};
ghost use Rattle.actors.specs.Called.{number};
ghost use Rattle.actors.specs.Numbers.{IsCalledBy, IsGivenBy, IsTakenBy};

use crate::actor::{Actor, HostHouse, HostNode};
use crate::call::{Call, END};
use crate::error::ActorError;
use crate::host_file::HostFile;
use crate::house_actor::HouseActor;
use crate::node_actor::NodeActor;
use checkpoint::format_small;
use disk::{Disk, FileDisk};
use ids::Incarnation;
use jobs::job_of;
use serial_meaning::Job;
use std::alloc::Global;

/// After how many moments of silence a member is taken for dead, as in each run.
const SILENCE: u64 = 500;

/// The numbers of no memory: for a job, a clearinghouse or its file, and for a node.
const NO_MEMORY: u8 = 9;

const NO_MEMORY_NODE: u8 = 63;

/// The number of a start word that is none.
const NO_WORD: u8 = 60;

/// An actor by numbers: of an error an answer has its number, negated.
#[derive(Drop)]
pub struct HostActor {
    actor: Actor<'static, FileDisk<HostFile>>,
}

/// A job that stays until the process ends.
fn kept_job(alloc: Global, text: &[u8], input: &[i64], number: u64) -> Result<&'static Job, u8>
    ensures { IfOk result (λ j. IsJobOf text.now input.now number j.now) }
{
    let Ok(input) = Vec::from_slice(alloc, input) else {
        return Err(NO_MEMORY);
    };
    let job = match job_of(alloc, text, input, number) {
        Ok(job) => job,
        Err(fault) => return Err(fault.number()),
    };
    match Box::new(alloc, job) {
        Ok(kept) => Ok(Box::leak(kept)),
        Err(_) => Err(NO_MEMORY),
    }
}

impl HostActor {
    /// A node that starts, with a start word; it evaluates a task in at most so many turns at once.
    /// Refused by the number of the job's fault (2 to 18, 21, 9), by 60 for a word outside 1 to
    /// 2^63 - 1, and by 63 where there is no memory.
    pub fn node(
        alloc: Global,
        text: &[u8],
        input: &[i64],
        number: u64,
        word: u64,
        most_turns: u64,
    ) -> Result<Box<HostActor>, u8>
        ensures { IfOk result (λ a. IsStarted text.now input.now number word a.value.actor) }
    {
        let Some(incarnation) = Incarnation::worker(word) else {
            return Err(NO_WORD);
        };
        let job = kept_job(alloc, text, input, number)?;
        let actor = match NodeActor::start(alloc, job, incarnation, most_turns) {
            Ok(node) => Actor::Node(HostNode { node, last: None }),
            Err(error) => return Err(error.number()),
        };
        match Box::new(alloc, HostActor { actor }) {
            Ok(actor) => Ok(actor),
            Err(_) => Err(NO_MEMORY_NODE),
        }
    }

    /// The clearinghouse over a file's content; an empty one is made a store first. What is to be
    /// done to the file waits. Refused by the number of the job's fault, and as `House::open` is;
    /// the file is to be left as it is then.
    pub fn house(
        alloc: Global,
        text: &[u8],
        input: &[i64],
        number: u64,
        content: &[u8],
    ) -> Result<Box<HostActor>, u8>
        ensures { IfOk result (λ a. IsOpen ⟦<FileDisk<HostFile> as Disk>⟧.device ⟦<FileDisk<HostFile> as Disk>⟧.planned text.now input.now number a.value.actor) }
    {
        let job = kept_job(alloc, text, input, number)?;
        let Ok((file, files)) = HostFile::new(alloc, content) else {
            return Err(NO_MEMORY);
        };
        let Ok(mut disk) = FileDisk::new(alloc, file) else {
            return Err(NO_MEMORY);
        };
        if content.is_empty() && format_small(&mut disk, number).is_err() {
            return Err(NO_MEMORY);
        }
        let actor = match HouseActor::open(alloc, job, disk, SILENCE) {
            Ok(house) => Actor::House(HostHouse { house, files }),
            Err((error, _)) => return Err(error.number()),
        };
        match Box::new(alloc, HostActor { actor }) {
            Ok(actor) => Ok(actor),
            Err(_) => Err(NO_MEMORY),
        }
    }

    /// What is asked of it by a number, with another one, is done, as `Actor::call` says. The
    /// number 6 ends it.
    pub fn call(&mut self, what: u32, a: u64) -> i64
        ensures { IsCalledBy ⟦<FileDisk<HostFile> as Disk>⟧.device ⟦<FileDisk<HostFile> as Disk>⟧.planned what a result self.old.actor self.new.actor }
    {
        if what == END {
            self.actor = Actor::Over;
            return 0;
        }
        match Call::of(what, a) {
            Some(call) => numbered(self.actor.call(call)),
            None => numbered(Err(ActorError::NotThis)),
        }
    }

    /// What comes in a packet's bytes is done, as `Actor::take` says.
    pub fn take(&mut self, bytes: &[u8]) -> i64
        ensures { IsTakenBy ⟦<FileDisk<HostFile> as Disk>⟧.device ⟦<FileDisk<HostFile> as Disk>⟧.planned bytes.now result self.old.actor self.new.actor }
    {
        numbered(self.actor.take(bytes))
    }

    /// Copies to a buffer what waits for the host: by 0 the next packet, by 1 what is to be done
    /// next to the file, as `Actor::give` and `Actor::give_file_call` say.
    pub fn give(&mut self, what: u32, buffer: &mut [u8]) -> i64
        ensures { IsGivenBy what result buffer.old buffer.new self.old.actor self.new.actor }
    {
        match what {
            0 => numbered(self.actor.give(buffer)),
            1 => numbered(self.actor.give_file_call(buffer)),
            _ => numbered(Err(ActorError::NotThis)),
        }
    }
}

/// An answer as a number.
fn numbered(answer: Result<i64, ActorError>) -> i64
    ensures { result ≡ number answer }
{
    match answer {
        Ok(number) => number,
        Err(error) => -i64::from(error.number()),
    }
}
