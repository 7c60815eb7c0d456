//! Names and places.

use ids::{
    Actor, Address, Count, Epoch, FrameNo, GrantId, Hop, Incarnation, Member, Named, Place,
    PlaceError, Status,
};
use play_packets::{grant, steps, write_field, write_place};
use play_words::{Answers, CommandLine, byte};
use std::alloc::Global;

/// A worker's word or a clearinghouse's, and the epoch of the latter.
fn of_actor(actor: Actor) -> (u64, Option<u64>) {
    match (actor.incarnation(), actor.epoch()) {
        (None, Some(epoch)) => (actor.word(), Some(epoch)),
        (Some(worker), None) => (worker.word(), None),
        _ => (0, None),
    }
}

/// A count and the next one.
fn of_count(count: Count) -> (u64, Option<u64>) {
    match count.next() {
        Some(next) => (count.number(), Some(next.number())),
        None => (count.number(), None),
    }
}

/// A hop and the next one.
fn of_hop(hop: Hop) -> (u64, Option<u64>) {
    match hop.next() {
        Some(next) => (u64::from(hop.count()), Some(u64::from(next.count()))),
        None => (u64::from(hop.count()), None),
    }
}

/// The name under which a member that left to itself is kept.
fn of_member(incarnation: Incarnation) -> (u64, Option<u64>) {
    let status = Status::Left(incarnation);
    let member = Member {
        incarnation,
        status,
    };
    let (first, second) = member.name();
    (first, Some(second))
}

/// What the name of a kind tells that numbers make: a number, and for some kinds a second one; none
/// where there is no such name.
fn told(line: &CommandLine<'_>) -> Option<(u64, Option<u64>)> {
    let number = line.number(2)?;
    match line.word(1)? {
        "worker" => Some((Incarnation::worker(number)?.word(), None)),
        "member" => Some(of_member(Incarnation::worker(number)?)),
        "actor" => Some(of_actor(Actor::of(number)?)),
        "house" => Some(of_actor(Actor::house(number)?)),
        "epoch" => {
            let epoch = Epoch::of(number)?;
            Some((epoch.number(), Some(Address::actor(epoch.house()).word())))
        }
        "address" => Some((Address::of(number)?.word(), None)),
        "count" => Some(of_count(Count::of(number)?)),
        "hop" => Some(of_hop(Hop::of(u32::try_from(number).ok()?))),
        "frame" => {
            let frame = FrameNo::of(u32::try_from(number).ok()?);
            Some((u64::from(frame.number()), None))
        }
        "grant" => {
            let grant = GrantId::of(Actor::of(number)?, line.number(3)?)?;
            Some((grant.minter().word(), Some(grant.number())))
        }
        _ => None,
    }
}

/// Plays a command on names.
pub fn play_name(line: &CommandLine<'_>, out: &mut Answers) -> Option<()> {
    let Some((first, second)) = told(line) else {
        out.line("none");
        return Some(());
    };
    write_field(out, "> ", first);
    if let Some(second) = second {
        write_field(out, " ", second);
    }
    out.end();
    Some(())
}

/// Plays a command on the order of grants: whether the first stands before the second.
pub fn play_before(line: &CommandLine<'_>, out: &mut Answers) -> Option<()> {
    let first = grant(line.word(1)?)?;
    let second = grant(line.word(2)?)?;
    out.truth(first.is_before(second));
    Some(())
}

/// The place below another one: of its successor, or of the kid of a hole.
fn below(alloc: Global, place: &Place, hole: Option<u8>) -> Result<Place, PlaceError> {
    match hole {
        Some(hole) if hole < 9 => place.child(alloc, hole),
        _ => place.next(alloc),
    }
}

/// Writes the place below another one.
fn write_below(alloc: Global, place: &Place, hole: Option<u8>, out: &mut Answers) {
    for _ in 0..2 {
        match below(alloc, place, hole) {
            Ok(below) => {
                out.text("> ");
                write_place(out, &below);
                out.end();
                break;
            }
            Err(refused) => {
                out.refusal(&refused);
                if refused == PlaceError::Full {
                    break;
                }
            }
        }
    }
}

/// Writes the level of a place, and how many steps lead to it.
fn write_level(place: &Place, out: &mut Answers) {
    write_field(out, "> level ", u64::from(place.level()));
    write_field(out, ", ", u64::from(place.len()));
    out.text(" steps");
    out.end();
}

/// Writes a step to a place.
fn write_step(step: Option<u8>, out: &mut Answers) {
    match step {
        Some(step) => {
            write_field(out, "> ", u64::from(step));
            out.end();
        }
        None => out.line("none"),
    }
}

/// What a place is asked.
fn write_asked(
    alloc: Global,
    place: &Place,
    line: &CommandLine<'_>,
    out: &mut Answers,
) -> Option<()> {
    let number = byte(line.word(3).unwrap_or(""));
    match (line.word(1)?, number) {
        ("level", None) => write_level(place, out),
        ("step", Some(index)) => write_step(place.step(u16::from(index)), out),
        ("next", None) => write_below(alloc, place, None, out),
        ("child", Some(hole)) if hole < 9 => write_below(alloc, place, Some(hole), out),
        _ => return None,
    }
    Some(())
}

/// Plays a command on a place.
pub fn play_place(alloc: Global, line: &CommandLine<'_>, out: &mut Answers) -> Option<()> {
    let steps = steps(alloc, line.word(2)?, out)?;
    match Place::of(steps) {
        Some(place) => write_asked(alloc, &place, line, out),
        None => {
            out.line("none");
            Some(())
        }
    }
}
