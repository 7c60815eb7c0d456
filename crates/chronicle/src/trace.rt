ghost use Rattle.std.specs.Prelude.{◌≡◌, ◌++◌, IfOk, IfSome, Ok};
ghost use Rattle.disk.specs.Device.{Device};
ghost use Rattle.serial_meaning.specs.Job.{JobOf, meaning_of};
ghost use Rattle.event_script.specs.Back.{IsRead};
ghost use Rattle.event_script.specs.Scripts.{script};
ghost use Rattle.event_script.specs.Written.{ended, written};
ghost use Rattle.world_steps.specs.Agrees.{StoredAgree};
ghost use Rattle.chronicle.specs.History.{IsSafeHistory, first_outcome};
ghost use Rattle.chronicle.specs.Texts.{events_of, text_of};

use crate::kept::{Entry, outcome_of};
use event_script::{Event, add_line};
use ids::Outcome;
use std::alloc::{AllocError, Global};
use std::marker::Model;
use world_steps::RunCounts;

/// The first line of a script by which nodes have the places 0 to 63.
const FIRST_LINE: &[u8] = b"# nodes 64\n";

/// All that was committed, and what was counted meanwhile. Contracts see the entries, in the order
/// in which they were committed.
#[derive(Drop)]
pub struct Trace {
    pub(crate) entries: Vec<Entry>,
    pub(crate) counts: RunCounts,
}

impl Model for Trace {
    ghost use Rattle.std.specs.Prelude.{List};
    ghost use Rattle.chronicle.specs.declared.kept.Entry.{Entry as EntryOf};

    ghost Value = { List EntryOf };

    ghost view = { λ t. t.entries.items };
}

impl Trace {
    /// Each event with what was told of it, in the order in which they were committed.
    pub fn entries(&self) -> &[Entry]
        ensures { result.now ≡ self.now }
    {
        self.entries.as_slice()
    }

    /// What was counted. No clause speaks of it.
    pub fn counts(&self) -> &RunCounts {
        &self.counts
    }

    /// Tells how many values that evaluations had kept were used, and how many turns were evaluated
    /// of which nothing was kept.
    pub fn tell_kept(&mut self, used: u64, vain: u64)
        ensures { self.new ≡ self.old }
    {
        self.counts.tell_kept(used, vain);
    }

    /// The outcome that an event of the clearinghouse told first, if one did. It is the job's
    /// meaning, where the trace is a safe history of the job over a disk on which what is saved
    /// agrees.
    pub fn outcome(&self) -> Option<Outcome>
        ensures first { result ≡ first_outcome self.now }
        ensures meant { (job : JobOf) (first : Device) → IsSafeHistory job first self.now → StoredAgree job first
            → IfSome result (λ o. o ≡ meaning_of job) }
    {
        first_outcome(self.entries.as_slice())
    }

    /// Its script: a first line by which nodes have 64 places, and then the line of each event,
    /// each ended by a line feed. It is read as just these events. Refused only when out of memory.
    pub fn script(&self, alloc: Global) -> Result<Vec<u8>, AllocError>
        ensures text { IfOk result (λ t. t.items ≡ text_of (events_of self.now)) }
        ensures read { IfOk result (λ t. script t.items ≡ Ok (events_of self.now)) }
    {
        text(alloc, self.entries.as_slice())
    }
}

/// The outcome that was told first.
fn first_outcome(entries: &[Entry]) -> Option<Outcome>
    ensures { result ≡ first_outcome entries.now }
{
    for entry in entries {
        if let Some(outcome) = outcome_of(entry.told) {
            return Some(outcome);
        }
    }
    None
}

/// The script of events.
fn text(alloc: Global, entries: &[Entry]) -> Result<Vec<u8>, AllocError>
    ensures text { IfOk result (λ t. t.items ≡ text_of (events_of entries.now)) }
    ensures read { IfOk result (λ t. script t.items ≡ Ok (events_of entries.now)) }
{
    let mut text = Vec::from_slice(alloc, FIRST_LINE)?;
    for entry in entries {
        add_ended(&mut text, &entry.event)?;
    }
    Ok(text)
}

/// Adds the line of an event, which is read as this event, with its end.
fn add_ended(text: &mut Vec<u8>, event: &Event) -> Result<(), AllocError>
    ensures written { IfOk result (λ _. text.new.items ≡ text.old.items ++ ended (written event.now)) }
    ensures read { IfOk result (λ _. IsRead event.now) }
{
    add_line(text, event)?;
    text.push(b'\n')?;
    Ok(())
}
