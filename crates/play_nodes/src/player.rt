//! A node and its job.
ghost use Rattle.std.specs.Prelude.{◌≡◌, IfOk, IfSome};

use body_eval::Done;
use ids::{FrameNo, GrantId, Incarnation};
use node_core::{Node, NodeError, Step, SubView, Victim, Work};
use play_words::keep;
use serial_meaning::{Flat, Job};
use std::alloc::{AllocError, Global};

/// A frame, by the numbers of its grant and its own, which may name none.
#[derive(Clone, Copy)]
pub struct FrameName {
    pub minter: u64,
    pub number: u64,
    pub frame: u64,
}

/// The grant and the number of a frame.
#[derive(Clone, Copy)]
pub struct FrameOf {
    pub grant: GrantId,
    pub frame: FrameNo,
}

/// What a node is called for.
#[derive(Clone, Copy)]
pub enum Call<'a> {
    /// Bytes come to it.
    Hear(&'a [u8]),
    /// It asks the clearinghouse for work.
    AskHouse,
    /// It asks a worker for work, by its start word, which may be none.
    Ask(u64),
    /// The first frame that it shows as ready runs.
    Run,
    /// A frame runs by its own turn.
    Exec(FrameName),
    /// A frame runs by the turn of a thread on numbers, its own or not.
    ExecBy(FrameOf, u8, &'a [i64]),
    /// A frame runs by such a turn if that is its own, else by its own.
    ExecGiven(FrameName, u8, &'a [i64]),
    /// A frame runs by its whole value, if its task gives one in so many turns.
    Whole(FrameOf, u64),
    /// It leaves to an heir, by its start word, which may be none.
    Depart(u64),
    /// It sends again what isn't answered.
    Resend,
}

/// What a call comes to.
#[derive(Drop)]
pub enum Answer {
    Does(Step),
    Refused(NodeError),
    /// No frame is ready.
    Idle,
    /// The job's program has no such turn.
    NoTurn,
}

/// A node of a job.
#[derive(Drop)]
pub struct Player {
    pub word: u64,
    job: &'static Job,
    node: Node<'static>,
    ghost same: { ∥ node.job ≡ job.now ∥₁ },
}

fn answer_of(answered: Result<Step, NodeError>) -> Answer {
    match answered {
        Ok(step) => Answer::Does(step),
        Err(refused) => Answer::Refused(refused),
    }
}

/// What comes in a packet's bytes is done.
fn hear(alloc: Global, node: &mut Node<'_>, bytes: &[u8]) -> Result<Step, NodeError>
    ensures { node.new.job ≡ node.old.job }
{
    node.on_bytes(alloc, bytes)
}

/// A request of the clearinghouse.
fn ask_house(alloc: Global, node: &mut Node<'_>) -> Result<Step, NodeError>
    ensures { node.new.job ≡ node.old.job }
{
    node.ask(alloc, Victim::House)
}

/// A request of a worker.
fn ask(alloc: Global, node: &mut Node<'_>, word: u64) -> Result<Step, NodeError>
    ensures { node.new.job ≡ node.old.job }
{
    node.ask_named(alloc, word)
}

/// A frame is carried out by its own turn.
fn run(alloc: Global, node: &mut Node<'_>, name: FrameName) -> Result<Step, NodeError>
    ensures { node.new.job ≡ node.old.job }
{
    node.exec_ready_named(alloc, name.minter, name.number, name.frame)
}

/// A frame is carried out by a turn.
fn run_by(alloc: Global, node: &mut Node<'_>, at: FrameOf, done: &Done) -> Result<Step, NodeError>
    requires { done.now.program ≡ node.old.job.program }
    ensures { node.new.job ≡ node.old.job }
{
    node.exec(alloc, at.grant, at.frame, done)
}

/// A frame is carried out by a turn that was evaluated before.
fn run_given(
    alloc: Global,
    node: &mut Node<'_>,
    name: FrameName,
    done: &Done,
) -> Result<Step, NodeError>
    requires { done.now.program ≡ node.old.job.program }
    ensures { node.new.job ≡ node.old.job }
{
    node.exec_turn_named(alloc, name.minter, name.number, name.frame, done)
}

/// A frame is carried out by what its task gives with all that comes of it, in at most so many
/// turns.
fn run_whole(
    alloc: Global,
    node: &mut Node<'_>,
    flat: &Flat,
    at: FrameOf,
    most_turns: u64,
) -> Result<Step, NodeError>
    requires { flat.now.program ≡ node.old.job.program }
    ensures { node.new.job ≡ node.old.job }
{
    node.whole_ready(alloc, flat, at.grant, at.frame, most_turns)
}

/// A node leaves to an heir.
fn depart(alloc: Global, node: &mut Node<'_>, heir: u64) -> Result<Step, NodeError>
    ensures { node.new.job ≡ node.old.job }
{
    node.depart_named(alloc, heir)
}

/// A turn of a job's program; none where it has no such thread, or that takes another count of
/// numbers.
fn evaluated(
    alloc: Global,
    job: &Job,
    thread: u8,
    numbers: &[i64],
) -> Result<Option<Done>, AllocError>
    ensures { IfOk result (λ o. IfSome o (λ d. d.program ≡ job.now.program)) }
{
    let checked = job.checked();
    if usize::from(thread) >= checked.threads()
        || checked.program().thread(thread).numbers.len() != numbers.len()
    {
        return Ok(None);
    }
    let numbers = Vec::from_slice(alloc, numbers)?;
    Ok(Some(Done::of(alloc, checked, thread, numbers)?))
}

impl Player {
    /// A worker starts, with the packet that it sends.
    pub fn start(
        alloc: Global,
        job: &'static Job,
        worker: Incarnation,
    ) -> Result<(Player, Step), NodeError> {
        let (node, step) = Node::start(alloc, job, worker)?;
        let word = worker.word();
        Ok((Player { word, job, node }, step))
    }

    /// The work behind so many others, as the node shows it.
    pub fn ready_at(&self, alloc: Global, index: usize) -> Result<Option<Work>, NodeError> {
        self.node.ready_at(alloc, index)
    }

    /// What it holds.
    pub fn subs(&self, alloc: Global) -> Result<Vec<SubView>, NodeError> {
        Ok(self.node.subs(alloc)?.into_vec())
    }

    /// The first frame that it shows as ready runs.
    fn run_first(&mut self, alloc: Global) -> Answer {
        let work = match self.node.ready_at(alloc, 0) {
            Ok(Some(work)) => work,
            Ok(None) => return Answer::Idle,
            Err(refused) => return Answer::Refused(refused),
        };
        let name = FrameName {
            minter: work.grant.minter().word(),
            number: work.grant.number(),
            frame: u64::from(work.frame.number()),
        };
        keep(work);
        answer_of(run(alloc, &mut self.node, name))
    }

    /// A frame runs by a turn.
    fn run_by(&mut self, alloc: Global, at: FrameOf, thread: u8, numbers: &[i64]) -> Answer {
        match evaluated(alloc, self.job, thread, numbers) {
            Ok(Some(done)) => {
                let answer = answer_of(run_by(alloc, &mut self.node, at, &done));
                keep(done);
                answer
            }
            Ok(None) => Answer::NoTurn,
            Err(_) => Answer::Refused(NodeError::Memory),
        }
    }

    /// A frame runs by a turn if that is its own.
    fn run_given(&mut self, alloc: Global, name: FrameName, thread: u8, numbers: &[i64]) -> Answer {
        match evaluated(alloc, self.job, thread, numbers) {
            Ok(Some(done)) => {
                let answer = answer_of(run_given(alloc, &mut self.node, name, &done));
                keep(done);
                answer
            }
            Ok(None) => Answer::NoTurn,
            Err(_) => Answer::Refused(NodeError::Memory),
        }
    }

    /// A frame runs by its whole value.
    fn run_whole(&mut self, alloc: Global, at: FrameOf, most_turns: u64) -> Answer {
        match Flat::of(alloc, self.job.checked()) {
            Ok(flat) => {
                let answer = answer_of(run_whole(alloc, &mut self.node, &flat, at, most_turns));
                keep(flat);
                answer
            }
            Err(_) => Answer::Refused(NodeError::Memory),
        }
    }

    /// What a call comes to.
    pub fn call(&mut self, alloc: Global, call: &Call<'_>) -> Answer {
        match call {
            Call::Hear(bytes) => answer_of(hear(alloc, &mut self.node, bytes)),
            Call::AskHouse => answer_of(ask_house(alloc, &mut self.node)),
            Call::Ask(word) => answer_of(ask(alloc, &mut self.node, *word)),
            Call::Run => self.run_first(alloc),
            Call::Exec(name) => answer_of(run(alloc, &mut self.node, *name)),
            Call::ExecBy(at, thread, on) => self.run_by(alloc, *at, *thread, on),
            Call::ExecGiven(name, thread, on) => self.run_given(alloc, *name, *thread, on),
            Call::Whole(at, most_turns) => self.run_whole(alloc, *at, *most_turns),
            Call::Depart(heir) => answer_of(depart(alloc, &mut self.node, *heir)),
            Call::Resend => answer_of(self.node.resend(alloc)),
        }
    }
}
