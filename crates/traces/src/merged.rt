//! What was merged.
ghost use Rattle.std.specs.Prelude.{◌≡◌, ◌<◌, ◌^◌, ◌++◌, ◌∷◌, IfOk, Ok, Some, true};
ghost use Rattle.event_script.specs.Back.{plain};
ghost use Rattle.event_script.specs.Scripts.{script};
ghost use Rattle.traces.specs.Names.{named, names_in};
ghost use Rattle.event_script.specs.Written.{ended, spaced};
ghost use Rattle.traces.specs.Texts.{IsRightEntry, events_of, label_at, line_of_entry, sent_of, sent_words};

use crate::label::Label;
use crate::name::PacketName;
use event_script::{Event, add_line};
use itoa::Buffer;
use std::alloc::{AllocError, Global};

/// The first line of a script by which nodes have the places 0 to 63.
const FIRST_LINE: &[u8] = b"# nodes 64\n";

/// What stands in a merged script: an event, or the name of a packet that the event before it sent,
/// by which trace, and in which line of it.
#[derive(Drop)]
pub enum Entry {
    Event(Event),
    Sent(PacketName, usize, u64),
}

/// Traces in one order.
#[derive(Drop)]
pub struct Merged {
    pub entries: Vec<Entry>,
}

impl Merged {
    /// The script: a first line by which nodes have 64 places, the line of each event, and a
    /// comment for each packet, `# sent NAME LABEL LINE`, with the label of the trace that tells
    /// it, `-` where it has none, and the line. It is read as just these events, and these names
    /// are read from it. Refused only when out of memory.
    pub fn script(&self, alloc: Global, labels: &[Label]) -> Result<Vec<u8>, AllocError>
        ensures events { IfOk result (λ t. script t.items ≡ Ok (events_of self.now.entries.items)) }
        ensures names { IfOk result (λ t. names_in t.items ≡ sent_of self.now.entries.items) }
    {
        text_of(alloc, labels, self.entries.as_slice())
    }
}

/// The text of entries.
fn text_of(alloc: Global, labels: &[Label], entries: &[Entry]) -> Result<Vec<u8>, AllocError>
    ensures events { IfOk result (λ t. script t.items ≡ Ok (events_of entries.now)) }
    ensures names { IfOk result (λ t. names_in t.items ≡ sent_of entries.now) }
{
    let mut text = Vec::from_slice(alloc, FIRST_LINE)?;
    for entry in entries {
        add_entry(&mut text, labels, entry)?;
    }
    Ok(text)
}

/// The label of the trace that comes after so many others.
fn label_at(labels: &[Label], trace: usize) -> &[u8]
    ensures same { result.now ≡ label_at labels.now trace }
    ensures plain { plain result.now ≡ true }
{
    match labels.get(trace) {
        Some(label) => label.as_bytes(),
        None => b"-",
    }
}

/// Adds the line of an entry, with its end.
#[tactic(auto, unfolding(crate::specs::Texts::line_of_entry))]
fn add_entry(text: &mut Vec<u8>, labels: &[Label], entry: &Entry) -> Result<(), AllocError>
    ensures text { IfOk result (λ _. text.new.items ≡ text.old.items ++ line_of_entry labels.now entry.now) }
    ensures read { IfOk result (λ _. IsRightEntry labels.now entry.now) }
{
    match entry {
        Entry::Event(event) => {
            add_line(text, event)?;
            text.push(b'\n')?;
            Ok(())
        }
        Entry::Sent(name, trace, line) => add_sent(text, name, label_at(labels, *trace), *line),
    }
}

/// Adds a word behind others.
fn add_word(text: &mut Vec<u8>, word: &[u8]) -> Result<(), AllocError>
    ensures { IfOk result (λ _. text.new.items ≡ text.old.items ++ 32 ∷ word.now) }
{
    text.push(b' ')?;
    text.extend_from_slice(word)
}

/// Adds the comment of a packet that was sent, with its end.
fn add_sent(
    text: &mut Vec<u8>,
    name: &PacketName,
    label: &[u8],
    line: u64,
) -> Result<(), AllocError>
    ensures text { IfOk result (λ _. text.new.items ≡ text.old.items ++ ended (spaced (sent_words name.now label.now line))) }
    ensures named { named name.now ≡ Some name.now }
    ensures plain { plain name.now ≡ true }
    ensures fits { line < 2 ^ 64 }
{
    let digits = name.digits();
    text.extend_from_slice(b"# sent")?;
    add_word(text, digits)?;
    add_word(text, label)?;
    let mut number = Buffer::new();
    add_word(text, number.format(line).as_bytes())?;
    text.push(b'\n')?;
    Ok(())
}
