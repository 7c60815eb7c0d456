//! The fields of each kind of packet, listed once, for reading, for writing and for the test of
//! what can be written.
ghost use Rattle.std.specs.Prelude.{◌≡◌, ◌++◌, IfSome, IsNone, OnOk, false};
ghost use Rattle.packet_fields.specs.Format.{Gives, Reads, end_of};
ghost use Rattle.codec.specs.Table as table;

use crate::body::{
    Abort, Beat, Body, Grant, Join, Kind, Leave, Offer, OfferAck, Piece, Refuse, ResultAck, Roster,
    Save, Steal, TaskResult,
};
use packet_fields::{Fault, Input, ReadError, fits, read, skip, write};
use std::alloc::AllocError;

/// The version in which packets of all kinds but Piece, Save and SavedGrant are spelled.
pub const FIRST_VERSION: u8 = 1;

/// The version in which these are spelled.
pub const SECOND_VERSION: u8 = 2;

/// Hands the table of kinds to another macro: a kind's number, the kind, the variant of its bodies,
/// which of these it is where another kind has the rest, their struct, and the fields with their
/// formats in the order of their bytes. A format may depend on fields before it. A Grant that has
/// saved values is a SavedGrant, which so stands before Grant.
macro_rules! each_field {
    ($mode:ident ! $($args:tt)*) => {
        $mode! { [$($args)*]
            1 Join of Join: Join { from: worker }
            2 Roster of Roster: Roster { epoch: epoch, version: counted, members: members }
            3 Steal of Steal: Steal { from: worker, seq: counted }
            15 SavedGrant of Grant if has_saved: Grant { seq: counted, grant: grant, task: task, saved: saved_values }
            4 Grant of Grant: Grant { seq: counted, grant: grant, task: task, saved: no_values }
            5 Refuse of Refuse: Refuse { seq: counted }
            6 Result of Result: TaskResult { from: worker, grant: grant, outcome: outcome }
            7 ResultAck of ResultAck: ResultAck { grant: grant }
            8 Offer of Offer: Offer { from: worker, grant: grant, hop: raised, parent: actor, progress: progress, task: task, next: next_frame, frames: frames(progress, next), records: records(progress, next) }
            9 OfferAck of OfferAck: OfferAck { from: worker, grant: grant, hop: hop }
            10 Leave of Leave: Leave { from: worker, heir: other_worker(from) }
            11 Abort of Abort: Abort { grant: grant }
            12 Beat of Beat: Beat { from: worker, version: counted }
            13 Piece of Piece: Piece { from: worker, grant: grant, hop: raised, pieces: pieces, number: piece_of(pieces), bytes: part(pieces, number) }
            14 Save of Save: Save { from: worker, place: place, value: value }
        }
    };
}

// The kind of a body.
macro_rules! kind_arms {
    ([$body:ident] $($number:literal $kind:ident of $variant:ident $(if $which:ident)?: $struct:ident { $($field:ident: $format:ident $(($($context:ident),*))?),* })*) => {
        match $body {
            $(Body::$variant(_) $(if $which($body))? => Kind::$kind,)*
        }
    };
}

// The number of a kind.
macro_rules! number_arms {
    ([$of:ident] $($number:literal $kind:ident of $variant:ident $(if $which:ident)?: $struct:ident { $($field:ident: $format:ident $(($($context:ident),*))?),* })*) => {
        match $of {
            $(Kind::$kind => $number,)*
        }
    };
}

// The kind with a number.
macro_rules! numbered_arms {
    ([$byte:ident] $($number:literal $kind:ident of $variant:ident $(if $which:ident)?: $struct:ident { $($field:ident: $format:ident $(($($context:ident),*))?),* })*) => {
        match $byte {
            $($number => Some(Kind::$kind),)*
            _ => None,
        }
    };
}

// Reads the fields of a kind, one after the other.
macro_rules! read_arms {
    ([$of:ident $input:ident] $($number:literal $kind:ident of $variant:ident $(if $which:ident)?: $struct:ident { $($field:ident: $format:ident $(($($context:ident),*))?),* })*) => {
        match $of {
            $(Kind::$kind => {
                $(let $field = read::$format($($(&$context,)*)? $input)?;)*
                Ok(Body::$variant($struct { $($field),* }))
            })*
        }
    };
}

// Passes over the fields of a kind, one after the other.
macro_rules! skip_arms {
    ([$of:ident $input:ident] $($number:literal $kind:ident of $variant:ident $(if $which:ident)?: $struct:ident { $($field:ident: $format:ident $(($($context:ident),*))?),* })*) => {
        match $of {
            $(Kind::$kind => {
                $(let $field = skip::$format($($(&$context,)*)? $input)?;)*
                Ok(())
            })*
        }
    };
}

// Writes the fields of a body, one after the other.
macro_rules! write_arms {
    ([$body:ident $out:ident] $($number:literal $kind:ident of $variant:ident $(if $which:ident)?: $struct:ident { $($field:ident: $format:ident $(($($context:ident),*))?),* })*) => {
        match $body {
            $(Body::$variant($struct { $($field),* }) $(if $which($body))? => {
                $(write::$format($out, $field)?;)*
            })*
        }
    };
}

// Whether each field of a body can be written.
macro_rules! fits_arms {
    ([$body:ident] $($number:literal $kind:ident of $variant:ident $(if $which:ident)?: $struct:ident { $($field:ident: $format:ident $(($($context:ident),*))?),* })*) => {
        match $body {
            $(Body::$variant($struct { $($field),* }) $(if $which($body))? => {
                $(fits::$format($($($context,)*)? $field))&&*
            })*
        }
    };
}

impl Kind {
    /// The kind with a number; none where no kind has it.
    pub fn of(number: u8) -> Option<Kind>
        ensures some { IfSome result (λ k. table.number_of k ≡ number) }
        ensures none { IsNone result → table.is_kind number ≡ false }
    {
        each_field!(numbered_arms! number)
    }

    /// The version in which a packet of the kind is spelled: 2 for a Piece, a Save and a
    /// SavedGrant, else 1.
    pub fn version(self) -> u8
        ensures { result ≡ table.version_of (table.number_of self) }
    {
        match self {
            Kind::Piece | Kind::Save | Kind::SavedGrant => SECOND_VERSION,
            _ => FIRST_VERSION,
        }
    }

    /// The number of the kind.
    pub fn number(self) -> u8
        ensures { result ≡ table.number_of self }
    {
        each_field!(number_arms! self)
    }

    /// The kind's name.
    pub fn name(self) -> &'static str {
        match self {
            Kind::Join => "Join",
            Kind::Roster => "Roster",
            Kind::Steal => "Steal",
            Kind::Grant => "Grant",
            Kind::Refuse => "Refuse",
            Kind::Result => "Result",
            Kind::ResultAck => "ResultAck",
            Kind::Offer => "Offer",
            Kind::OfferAck => "OfferAck",
            Kind::Leave => "Leave",
            Kind::Abort => "Abort",
            Kind::Beat => "Beat",
            Kind::Piece => "Piece",
            Kind::Save => "Save",
            Kind::SavedGrant => "SavedGrant",
        }
    }
}

/// Whether a body is a Grant with saved values.
fn has_saved(body: &Body) -> bool
    ensures { result ≡ table.has_saved body.now }
{
    match body {
        Body::Grant(grant) => !grant.saved.is_empty(),
        _ => false,
    }
}

/// The kind of a packet that says this.
pub fn kind_of(body: &Body) -> Kind
    ensures { table.number_of result ≡ table.kind_of body.now }
{
    each_field!(kind_arms! body)
}

/// The fields of a kind.
#[tactic(auto, unfolding(crate::specs::Table::fields, crate::specs::Table::join, crate::specs::Table::roster, crate::specs::Table::steal, crate::specs::Table::granted, crate::specs::Table::saved_grant, crate::specs::Table::refuse, crate::specs::Table::task_result, crate::specs::Table::result_ack, crate::specs::Table::offer, crate::specs::Table::offer_ack, crate::specs::Table::leave, crate::specs::Table::abort, crate::specs::Table::beat, crate::specs::Table::piece, crate::specs::Table::save))]
pub fn read_fields(kind: Kind, input: &mut Input<'_>) -> Result<Body, ReadError>
    ensures { Gives (λ x. (x, input.new)) result ((table.fields (table.number_of kind)).read input.old) }
{
    each_field!(read_arms! kind input)
}

/// Passes over the fields of a kind, or answers their first fault.
#[tactic(auto, unfolding(crate::specs::Table::fields, crate::specs::Table::join, crate::specs::Table::roster, crate::specs::Table::steal, crate::specs::Table::granted, crate::specs::Table::saved_grant, crate::specs::Table::refuse, crate::specs::Table::task_result, crate::specs::Table::result_ack, crate::specs::Table::offer, crate::specs::Table::offer_ack, crate::specs::Table::leave, crate::specs::Table::abort, crate::specs::Table::beat, crate::specs::Table::piece, crate::specs::Table::save))]
pub fn skip_fields(kind: Kind, input: &mut Input<'_>) -> Result<(), Fault>
    ensures { Reads (λ _. input.new) result (end_of ((table.fields (table.number_of kind)).read input.old)) }
{
    each_field!(skip_arms! kind input)
}

/// Adds the fields of a kind to the bytes.
#[tactic(auto, unfolding(crate::specs::Table::join, crate::specs::Table::roster, crate::specs::Table::steal, crate::specs::Table::granted, crate::specs::Table::saved_grant, crate::specs::Table::refuse, crate::specs::Table::task_result, crate::specs::Table::result_ack, crate::specs::Table::offer, crate::specs::Table::offer_ack, crate::specs::Table::leave, crate::specs::Table::abort, crate::specs::Table::beat, crate::specs::Table::piece, crate::specs::Table::save))]
pub fn write_fields(body: &Body, out: &mut Vec<u8>) -> Result<(), AllocError>
    ensures { OnOk result (out.new.items ≡ out.old.items ++ table.write_body body.now) }
{
    each_field!(write_arms! body out);
    Ok(())
}

/// Whether the fields can be written.
#[tactic(auto, unfolding(crate::specs::Table::join, crate::specs::Table::roster, crate::specs::Table::steal, crate::specs::Table::granted, crate::specs::Table::saved_grant, crate::specs::Table::refuse, crate::specs::Table::task_result, crate::specs::Table::result_ack, crate::specs::Table::offer, crate::specs::Table::offer_ack, crate::specs::Table::leave, crate::specs::Table::abort, crate::specs::Table::beat, crate::specs::Table::piece, crate::specs::Table::save))]
pub fn fields_fit(body: &Body) -> bool
    ensures { result ≡ table.fits_body body.now }
{
    each_field!(fits_arms! body)
}
