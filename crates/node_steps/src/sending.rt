//! Packets on their way.
ghost use Rattle.std.specs.Prelude.{◌≡◌, ◌++◌, OnOk, IfOk, true, false, [], map};
ghost use Rattle.node_steps.specs.Moves as moves;
ghost use Rattle.node_steps.specs.Steps.{fills_of};
ghost use Rattle.ids.specs.declared.outcome.Progress.TheVariants.{Active, Finished};
ghost use Rattle.sub_rules.specs.Updates.{dropped_by, left_by};
ghost use Rattle.subcomputation.specs.Told.{updated_sub};

use crate::parts::{Fill, Step};
use codec::{Abort, Datagram, Packet, TaskResult, send};
use ids::{GrantId, Incarnation, Listed, Outcome, Progress};
use recovery::Stopped;
use serial_meaning::Job;
use std::alloc::{AllocError, Global};
use sub_rules::{Filling, Leaver, Replacement, Update};
use subcomputation::Sub;
use victim_records::Records;

/// Adds packets that are made already, in their order.
pub fn send_on(sent: &mut Listed<Datagram>, more: Listed<Datagram>) -> Result<(), AllocError>
    ensures { OnOk result (sent.new ≡ sent.old ++ more) }
{
    if more.is_empty() {
        return Ok(());
    }
    for packet in more.into_vec() {
        sent.push(packet)?;
    }
    Ok(())
}

/// Adds an Abort to the holder of each record that was dropped, by rising grant.
pub fn send_aborts(
    alloc: Global,
    job: &Job,
    sent: &mut Listed<Datagram>,
    dropped: &Records,
) -> Result<(), AllocError>
    ensures { OnOk result (sent.new ≡ sent.old ++ moves.aborts job.now dropped.now) }
{
    for record in dropped.values() {
        let abort = Abort {
            grant: record.grant,
        };
        send(
            alloc,
            sent,
            &Packet::abort(job.number(), record.holder, abort),
        )?;
    }
    Ok(())
}

/// Adds an Abort to each holder that is told to stop, in the order of these.
pub fn send_stops(
    alloc: Global,
    job: &Job,
    sent: &mut Listed<Datagram>,
    stopped: &[Stopped],
) -> Result<(), AllocError>
    ensures { OnOk result (sent.new ≡ sent.old ++ map (moves.stops job.now) stopped.now) }
{
    for stop in stopped {
        let abort = Abort { grant: stop.grant };
        send(
            alloc,
            sent,
            &Packet::abort(job.number(), stop.holder, abort),
        )?;
    }
    Ok(())
}

/// Adds the Result of a subcomputation that is finished, to the host that waits for it.
pub fn send_results(
    alloc: Global,
    job: &Job,
    sent: &mut Listed<Datagram>,
    from: Incarnation,
    sub: &Sub,
) -> Result<(), AllocError>
    ensures { OnOk result (sent.new ≡ sent.old ++ moves.results job.now from sub.now) }
{
    match sub.content().progress {
        Progress::Finished(outcome) => send_outcome(alloc, job, sent, from, sub, outcome),
        Progress::Active => Ok(()),
    }
}

/// Adds the Result of a subcomputation that has an outcome, to the host that waits for it.
fn send_outcome(
    alloc: Global,
    job: &Job,
    sent: &mut Listed<Datagram>,
    from: Incarnation,
    sub: &Sub,
    outcome: Outcome,
) -> Result<(), AllocError>
    ensures { OnOk result (sent.new ≡ sent.old ++ moves.result_by job.now from sub.now (Finished outcome)) }
{
    let result = TaskResult {
        from,
        grant: sub.grant(),
        outcome,
    };
    send(
        alloc,
        sent,
        &Packet::result(job.number(), sub.content().parent, result),
    )
}

/// Adds an Abort to the holder of each record of a subcomputation that a frame or a record leaves,
/// by rising grant.
fn send_dropped(
    alloc: Global,
    job: &Job,
    sent: &mut Listed<Datagram>,
    sub: &Sub,
    leaver: Leaver,
) -> Result<(), AllocError>
    ensures { OnOk result (sent.new ≡ sent.old ++ moves.aborts job.now (left_by leaver sub.now.content).records) }
{
    match leaver {
        Leaver::FrameOf(_) => send_aborts(alloc, job, sent, &sub.content().records),
        Leaver::RecordOf(grant) => {
            let mut left = sub.content().records.clone()?;
            left.close(grant);
            send_aborts(alloc, job, sent, &left)
        }
    }
}

/// Adds what is sent where an update is made of a subcomputation that goes on: nothing unless it
/// ends that; else an Abort to the holder of each record that is dropped, by rising grant, and the
/// Result to the host that waits for it.
pub fn send_end(
    alloc: Global,
    job: &Job,
    sent: &mut Listed<Datagram>,
    from: Incarnation,
    sub: &Sub,
    update: &Update,
) -> Result<(), AllocError>
    requires active { sub.now.content.progress ≡ Active }
    ensures { OnOk result (sent.new ≡ sent.old ++ moves.aborts job.now
        (dropped_by update.now.work (left_by update.now.leaver sub.now.content))
        ++ moves.results job.now from (updated_sub update.now sub.now)) }
{
    let Replacement::Ends(outcome) = &update.work else {
        return Ok(());
    };
    send_dropped(alloc, job, sent, sub, update.leaver)?;
    send_outcome(alloc, job, sent, from, sub, *outcome)
}

/// The values that a change put into slots of a grant's subcomputation: one or none.
pub fn fills_of(
    alloc: Global,
    grant: GrantId,
    fill: Option<Filling>,
) -> Result<Listed<Fill>, AllocError>
    ensures { IfOk result (λ fills. fills ≡ fills_of grant fill) }
{
    let mut fills = Listed::new(alloc);
    if let Some(filling) = fill {
        fills.push(Fill {
            grant,
            frame: filling.frame,
            slot: filling.slot,
            place: filling.place,
            value: filling.value,
        })?;
    }
    Ok(fills)
}

/// Nothing is done, since a packet is ignored.
pub fn ignored(alloc: Global) -> Step
    ensures { result ≡ record { sent = []; fills = []; ignored = true } }
{
    Step {
        sent: Listed::new(alloc),
        fills: Listed::new(alloc),
        ignored: true,
    }
}

/// Nothing is sent, and no slot filled.
pub fn quiet(alloc: Global) -> Step
    ensures { result ≡ record { sent = []; fills = []; ignored = false } }
{
    sends(alloc, Listed::new(alloc))
}

/// Packets are sent, and no slot is filled.
pub fn sends(alloc: Global, sent: Listed<Datagram>) -> Step
    ensures { result ≡ record { sent = sent; fills = []; ignored = false } }
{
    Step {
        sent,
        fills: Listed::new(alloc),
        ignored: false,
    }
}
