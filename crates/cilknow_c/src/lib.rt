//! The actors for a host program in C, by opaque pointers. `machines/cilknow.h` says what each call
//! does, and what the host owes.
//!
//! **Proved**: of each call by an actor's pointer, that an actor is there before it and behind it,
//! and what the call comes to: the case of the protocol, as the clauses of `HostActor` say it.
//! **Not proved**: that a host in C keeps what the header asks of it, and that its declarations are
//! those of these functions.
#![tactic(auto)]

ghost use Rattle.std.specs.Prelude.{length};
ghost use Rattle.std.specs.Borrow.{full_share, sem};
ghost use Rattle.std.specs.Ptr.{lies_at};
ghost use Rattle.actors.specs.contracts.host_actor.HostActor.{the_row};
ghost use Rattle.cilknow_c.specs.Hosts.{CallComes, GiveComes, TakeComes};

use actors::HostActor;
use job_line::line_of;
use jobs::job_of;
use sha2::{Digest, Sha256};
use std::alloc::Global;

/// What C sees of an actor: that it is there.
pub struct CilknowActor {
    pub opaque: u8,
}

/// How an answer tells that a buffer is too short.
const TOO_SHORT: i32 = -102;

/// No memory for a job.
const NO_MEMORY: i32 = -9;

unsafe fn handle(made: Box<HostActor>) -> *mut CilknowActor {
    Box::into_raw(made) as *mut CilknowActor
}

fn told(made: Result<Box<HostActor>, u8>, actor: &mut *mut CilknowActor) -> i32 {
    match made {
        Ok(made) => {
            *actor = unsafe { handle(made) };
            0
        }
        Err(number) => -i32::from(number),
    }
}

/// A node that starts: `HostActor::node`.
#[unsafe(no_mangle)]
pub extern "C" fn cilknow_node(
    alloc: Global,
    text: &[u8],
    input: &[i64],
    job: u64,
    word: u64,
    most_turns: u64,
    actor: &mut *mut CilknowActor,
) -> i32 {
    told(
        HostActor::node(alloc, text, input, job, word, most_turns),
        actor,
    )
}

/// The clearinghouse over a file's content: `HostActor::house`.
#[unsafe(no_mangle)]
pub extern "C" fn cilknow_house(
    alloc: Global,
    text: &[u8],
    input: &[i64],
    job: u64,
    content: &[u8],
    actor: &mut *mut CilknowActor,
) -> i32 {
    told(HostActor::house(alloc, text, input, job, content), actor)
}

/// What is asked of it by numbers: `HostActor::call`.
#[unsafe(no_mangle)]
pub unsafe extern "C" fn cilknow_call(actor: *mut CilknowActor, what: u32, a: u64) -> i64
    ghost before: { HostActor }
    requires* { sem 𝓛 (lies_at the_row full_share actor before) }
    ensures* { ∃ₛ (λ (after : HostActor). sem 𝓛 (lies_at the_row full_share actor after) ∗ ⌜ CallComes what a result before after ⌝) }
{
    let held = &mut *(actor as *mut HostActor);
    held.call(what, a)
}

/// What comes in a packet's bytes: `HostActor::take`.
#[unsafe(no_mangle)]
pub unsafe extern "C" fn cilknow_take(actor: *mut CilknowActor, bytes: &[u8]) -> i64
    ghost before: { HostActor }
    requires* { sem 𝓛 (lies_at the_row full_share actor before) }
    ensures* { ∃ₛ (λ (after : HostActor). sem 𝓛 (lies_at the_row full_share actor after) ∗ ⌜ TakeComes bytes.now result before after ⌝) }
{
    let held = &mut *(actor as *mut HostActor);
    held.take(bytes)
}

/// What waits for the host: `HostActor::give`.
#[unsafe(no_mangle)]
pub unsafe extern "C" fn cilknow_give(actor: *mut CilknowActor, what: u32, buffer: &mut [u8]) -> i64
    ghost before: { HostActor }
    requires* { sem 𝓛 (lies_at the_row full_share actor before) }
    ensures* { ∃ₛ (λ (after : HostActor). sem 𝓛 (lies_at the_row full_share actor after) ∗ ⌜ GiveComes what result buffer.old buffer.new before after ⌝) }
{
    let held = &mut *(actor as *mut HostActor);
    held.give(what, buffer)
}

/// The digest of bytes by SHA-256, in a buffer's first 32 bytes. 0, or -102 where it is shorter.
#[unsafe(no_mangle)]
pub extern "C" fn cilknow_digest(bytes: &[u8], digest: &mut [u8]) -> i32 {
    if digest.len() < 32 {
        return TOO_SHORT;
    }
    let own: [u8; 32] = Sha256::digest(bytes);
    for at in 0..32 {
        digest[at] = own[at];
    }
    0
}

/// The line that names a program and an input, in a buffer's first bytes. How many it has, 79; else
/// the number of the job's fault, negated, or -102 where the buffer is shorter.
#[unsafe(no_mangle)]
pub extern "C" fn cilknow_job_line(
    alloc: Global,
    text: &[u8],
    input: &[i64],
    line: &mut [u8],
) -> i32 {
    let Ok(input) = Vec::from_slice(alloc, input) else {
        return NO_MEMORY;
    };
    let job = match job_of(alloc, text, input, 0) {
        Ok(job) => job,
        Err(fault) => return -i32::from(fault.number()),
    };
    let Ok(own) = line_of(alloc, &job, text) else {
        return NO_MEMORY;
    };
    if line.len() < own.len() {
        return TOO_SHORT;
    }
    line[..own.len()].copy_from_slice(own.as_slice());
    79
}
