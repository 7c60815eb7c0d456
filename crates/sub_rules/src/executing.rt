ghost use Rattle.std.specs.Prelude.{◌≡◌, ◌<◌, ◌^◌, ◌&&◌, nat_eq, IfOk};
ghost use Rattle.task_tree.specs.declared.tree.Program.{Program};
ghost use Rattle.kind_check.specs.declared.turn.Turn as declared;
ghost use Rattle.frames.specs.Frames.{frame_in};
ghost use Rattle.sub_rules.specs.Carrying as carrying;
ghost use Rattle.sub_rules.specs.Carrying.{IsAnswerTo, ended, is_stale_of, holds_numbers};
ghost use Rattle.sub_rules.specs.Debts.{IsSound};
ghost use Rattle.sub_rules.specs.Resuming.{nothing_known};
ghost use Rattle.sub_rules.specs.Turning.{TurnFew};
ghost use Rattle.sub_rules.specs.Updates.{change_by, IsPreparedFor, MayUpdate};

use crate::arriving::prepare_arrival;
use crate::change::{ContentChange, SubError};
use crate::content::Content;
use crate::resuming::{Knows, NothingKnown, prepare_known_join};
use crate::updates::{Leaver, Prepared};
use body_eval::{Done, Turn};
use ids::{Frame, FrameNo};
use std::alloc::{AllocError, Global};

/// Carries out the frame `number` by a turn that was evaluated. Where the turn sends a value, this
/// fills the slot that awaits it, or is the outcome of the whole. Where it joins, its successor
/// stands in its place with the kids of its holes, numbered from the content's next number on; at a
/// place of 1,024 steps the whole is too deep. Refused as `Stale` (E40) where no frame has that
/// number or the turn is none of it, as `Spent` (E62) where the number that is next after the join
/// would pass 2^32 - 1, and as `Memory` (E9) where there is no memory.
pub fn exec(
    alloc: Global,
    content: Content,
    number: FrameNo,
    done: &Done,
) -> Result<ContentChange, SubError>
    requires sound { IsSound content }
    ensures answer { IsAnswerTo (carrying.exec_content nothing_known done.now number content) result }
    ensures sound { IfOk result (λ change. IsSound change.after) }
{
    let prepared = prepare_exec(alloc, &content, number, done, &NothingKnown)?;
    Ok(carried_out(alloc, content, prepared)?)
}

/// Prepares what `exec` does, with what memory it takes, and changes nothing; but a kid whose value
/// is known isn't made, and the slot that awaits it is given the value. It is refused where `exec`
/// is.
pub fn prepare_exec<K: Knows>(
    alloc: Global,
    content: &Content,
    number: FrameNo,
    done: &Done,
    known: &K,
) -> Result<Prepared, SubError>
    requires sound { IsSound content.now }
    ensures { IsPreparedFor content.now
        (carrying.exec_content (K.known_of known.now) done.now number content.now) result }
{
    law_turn_is_few(done);
    prepare_turn(
        alloc,
        content,
        number,
        done.thread(),
        done.numbers(),
        done.turn(),
        known,
    )
}

/// The same, by the end to which that thread comes on these numbers, whoever found it.
pub fn prepare_turn<K: Knows>(
    alloc: Global,
    content: &Content,
    number: FrameNo,
    thread: u8,
    numbers: &[i64],
    turn: &Turn,
    known: &K,
) -> Result<Prepared, SubError>
    requires sound { IsSound content.now }
    requires few { TurnFew turn.now }
    ensures { (p : Program) → IsPreparedFor content.now (carrying.exec_content (K.known_of known.now)
        (ended p thread numbers.now turn.now) number content.now) result }
{
    let Some(frame) = content.frames.get(number) else {
        return Err(SubError::Stale);
    };
    if !holds(frame, thread, numbers) {
        return Err(SubError::Stale);
    }
    content.frames.law_stand_in_order();
    law_next_is_a_number(content);
    match turn {
        Turn::Sends(value) => {
            let leaver = Leaver::FrameOf(number);
            Ok(prepare_arrival(alloc, content, leaver, frame.returns, *value)?)
        }
        Turn::Joins(thread, slots) => {
            prepare_known_join(alloc, content, frame, *thread, slots.as_slice(), known)
        }
    }
}

/// The change of a content by what is prepared.
pub(crate) fn carried_out(
    alloc: Global,
    content: Content,
    prepared: Prepared,
) -> Result<ContentChange, AllocError>
    requires { MayUpdate prepared.update content }
    ensures { IfOk result (λ change. change ≡ change_by prepared content) }
{
    let mut after = content;
    let dropped = after.update(alloc, prepared.update)?;
    Ok(ContentChange {
        after,
        fill: prepared.fill,
        ready: prepared.ready,
        dropped,
    })
}

/// The number of the next frame is a frame's number. Does nothing.
fn law_next_is_a_number(content: &Content)
    ensures { content.now.next < 2 ^ 32 }
{
    let _ = content.next.number();
}

/// A turn that was evaluated has at most 8 slots, and holes 1 to 8, since its program was accepted.
/// Does nothing.
pub fn law_turn_is_few(done: &Done)
    ensures { TurnFew done.now.turn }
{
    kind_check::accepted_threads_are_few();
    kind_check::joins_have_few_holes();
    let _ = done.turn();
}

/// Whether `exec` would refuse as stale. Takes no memory.
pub fn is_stale(content: &Content, number: FrameNo, done: &Done) -> bool
    ensures { result ≡ is_stale_of done.now (frame_in number content.now.frames) }
{
    is_stale_for(content, number, done.thread(), done.numbers())
}

/// The same of any end to which that thread comes on these numbers.
pub fn is_stale_for(content: &Content, number: FrameNo, thread: u8, numbers: &[i64]) -> bool
    ensures { (p : Program) (turn : declared.Turn) → result ≡ is_stale_of (ended p thread numbers.now turn)
        (frame_in number content.now.frames) }
{
    match content.frames.get(number) {
        Some(frame) => !holds(frame, thread, numbers),
        None => true,
    }
}

/// Whether a frame is of a thread, and its slots are full, of these numbers.
fn holds(frame: &Frame, thread: u8, numbers: &[i64]) -> bool
    ensures { result ≡ (nat_eq frame.now.thread thread && holds_numbers frame.now.slots numbers.now) }
{
    frame.thread == thread && holds_numbers(frame.slots.as_slice(), numbers)
}

/// Whether the slots are full, of these numbers.
fn holds_numbers(slots: &[Option<i64>], numbers: &[i64]) -> bool
    ensures { result ≡ holds_numbers slots.now numbers.now }
{
    match (slots, numbers) {
        ([], []) => true,
        ([Some(value), rest @ ..], [number, others @ ..]) => {
            value == number && holds_numbers(rest, others)
        }
        _ => false,
    }
}
