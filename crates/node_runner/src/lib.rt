//! A job on many nodes and a clearinghouse, each on a thread of its own, and on body workers, each
//! on another.
//!
//! **Actors and turns.** Each place of a node has an actor, and so has the clearinghouse. An actor
//! takes turn after turn, until the outcome is known or all turns are taken. In a turn a node takes
//! the next packet that is addressed to it, else it commits a turn that came back from a body
//! worker, else it offers a ready frame to them or takes its turn itself, else it asks the
//! clearinghouse or a live member for work. A node sends again after 16 turns with nothing done,
//! then after twice as many each time, up to 512; and where 100 events were committed since. The
//! clearinghouse takes its packets, and ticks where 100 events were committed since. One whose node
//! has been declared dead starts another, with a new word. A node that sent again holds while
//! another actor is behind it, so that none is taken for dead because its thread is slow.
//!
//! **Body workers.** Each node has as many as the configuration says. A ready frame becomes a
//! ticket, at most two for each worker at once, or eight where the node is alone and tasks are
//! evaluated whole. A worker steals a ticket of its node without
//! waiting, numbers the body, asks the gate until it lets it go, evaluates it outside any lock, and
//! gives the turn back by a queue. A frame that is offered stays ready in the node until its turn
//! is committed, and a thief can have it. Then the turn is stale, and the event refuses it. Before
//! a crash or a departure the node takes its tickets back.
//!
//! **Whole tasks.** Where the configuration allows so many turns, a body worker evaluates the task
//! of its ticket whole, in as many turns as those before it suggest (`grain::TaskSizes`). What it
//! finished below a task that takes more is kept, and frames are carried out by it; the frames of
//! tasks that are known to be large, and those of threads that spawn nothing, take their turns in
//! the node itself (`run_here`). So does the node evaluate a task that is small by those before it,
//! where its body workers have as much as they take, or nothing beside which it could run
//! (`evaluate_here`). What came back, and what needs no evaluation, goes before packets then, up to
//! 16 times in a row, so that no thief is granted what is evaluated already (`go_on`).
//!
//! **Sleep.** An actor that finds nothing for some turns sleeps until its bell is rung
//! (`RunBells`), and some time at most (`resting`): by whom sends it a packet, by a body worker of
//! its own that is done with a ticket, and once there is an outcome.
//!
//! **Faults** are drawn from one word, for each place by itself: packets that are lost and that
//! come twice (`Fates`), and whom a node asks. Crash i comes once 50 i events were committed, on
//! the place i modulo the count of nodes; departure i once 50 i + 25 were, on the i-th place from
//! the end. It leaves to one that doesn't leave itself, and waits while another node leaves to it
//! (`Leavers`).
//!
//! **The disk** is the caller's, and the clearinghouse keeps its record there: in memory, or in a
//! file, which holds the outcome once a run is through. A call of it that fails ends the run.
//! Values that nodes hand in to be saved are taken where there is time (`Saves`), and a later run
//! over the disk goes on with them.
//!
//! **Proved**: an outcome that `run_job` answers is the job's meaning, where what was saved on the
//! disk that was given agrees, as it does on one that was formatted for the job; its trace is a
//! history of the job over this disk which tells the outcome first, and a safe one under the same
//! premise, whatever threads do; and the disk that it gives back keeps the outcome, whatever a
//! crash leaves of it. Packets have the fates that the generator gives.
//!
//! **Not proved**: that an outcome comes, which of its refusals comes when, that the nodes share
//! the work, that each ready frame is offered and body workers evaluate it, and that the crashes
//! and departures come that are asked for.
#![tactic(auto)]

mod crew;
mod error;
mod house;
mod inbox;
mod muster;
mod node;
mod run;
mod saves;
mod shared;
mod worker;

pub use error::RunError;
pub use run::{Ran, run_job};
pub use runner_parts::{Fate, Fates, Faults, Gate, Open, RunConfig};
