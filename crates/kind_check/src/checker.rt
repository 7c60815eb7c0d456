ghost use Rattle.std.specs.Prelude.{◌≡◌, [], IfOk, IfErr, OnOk};
ghost use Rattle.kind_check.specs.Faults.{faults};
ghost use Rattle.kind_check.specs.Refused.{RefusedFor};

use crate::checked::{Checked, KindError};
use crate::resolve;
use crate::walk::least_fault;
use std::alloc::Global;
use task_tree::Program;

/// Accepts a program with no kind fault, else answers its least fault: by its offset, then by its
/// number. It takes memory for the names in scope and for the bodies by places, and a nesting of
/// blocks and operators is walked by recursion.
///
/// # Errors
/// The least fault and its offset; `Memory` only when out of memory.
pub fn check(alloc: Global, program: Program) -> Result<Checked, KindError>
    ensures accepted { IfOk result (λ c. c ≡ program) }
    ensures faultless { OnOk result (faults program ≡ []) }
    ensures refused { IfErr result (RefusedFor (faults program)) }
{
    let Ok(least) = least_fault(alloc, &program) else {
        return Err(KindError::Memory);
    };
    match least.fault() {
        None => match resolve::program(alloc, &program) {
            Ok(bodies) => Ok(Checked::new(program, bodies)),
            Err(_) => Err(KindError::Memory),
        },
        Some((offset, fault)) => Err(KindError::Fault(fault, offset)),
    }
}
