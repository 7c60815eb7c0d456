//! Packets on their way.
ghost use Rattle.std.specs.Prelude.{◌≡◌, ◌++◌, OnOk, IfOk, [], ◌∷◌};
ghost use Rattle.codec.specs.declared.body.Body.TheVariants as body;
ghost use Rattle.clearinghouse.specs.Laws.{IsListing};
ghost use Rattle.clearinghouse.specs.Moves as moves;

use crate::book::Book;
use codec::{Abort, Datagram, Packet, alone, send};
use ids::{GrantId, Incarnation, Listed};
use serial_meaning::Job;
use std::alloc::{AllocError, Global};

/// A worker is told who is listed.
#[tactic(auto, using(crate::proofs::Telling::told_rising, crate::proofs::Telling::told_heirs))]
pub fn roster_alone(
    alloc: Global,
    job: &Job,
    book: &Book,
    worker: Incarnation,
) -> Result<Listed<Datagram>, AllocError>
    requires { IsListing book.now.version book.now.workers }
    ensures { IfOk result (λ sent. sent ≡ moves.roster_for job.now worker book.now ∷ []) }
{
    let roster = book.roster(alloc)?;
    alone(alloc, &Packet::roster(job.number(), worker, roster))
}

/// Adds an Abort: a holder of a grant is told to stop.
pub fn send_abort(
    alloc: Global,
    job: &Job,
    sent: &mut Listed<Datagram>,
    holder: Incarnation,
    grant: GrantId,
) -> Result<(), AllocError>
    ensures { OnOk result (sent.new ≡ sent.old ++ moves.packet job.now holder
        (body.Abort (record { grant = grant })) ∷ []) }
{
    send(
        alloc,
        sent,
        &Packet::abort(job.number(), holder, Abort { grant }),
    )
}
