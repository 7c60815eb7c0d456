ghost use Rattle.std.specs.Prelude.{◌≡◌, ◌<◌, [], length};
ghost use Rattle.kind_check.specs.Code.{Follows, IsBody};
ghost use Rattle.kind_check.specs.Total.{IsTotal};
ghost use Rattle.kind_check.specs.Holes.{HolesUsedOnce};
ghost use Rattle.kind_check.specs.Faults.{faults};

use crate::code::BlockCode;
use ids::Listed;
use std::marker::Model;
use task_tree::Program;
use thiserror::Error;

/// What is wrong with the kinds of a program. Of all faults the one at the smallest offset is
/// answered, at one offset the one that stands first here.
#[derive(Clone, Copy, PartialEq, Eq, Debug)]
pub enum KindFault {
    /// E10: no thread `main`; at the text's length.
    NoMain,
    /// E11: a thread, parameter, `let` or hole of a name that is already there; at the second name.
    NameTwice,
    /// E12: a spawned thread isn't there; at its name.
    UnknownThread,
    /// E13: a name that isn't in scope; at the name.
    UnknownName,
    /// E14: a wrong count of arguments, the first thread of that name counting; at the spawned
    /// name.
    Arity,
    /// E15: a number where a continuation stands, or the reverse; at the name.
    KindMismatch,
    /// E16: a hole that isn't used; at the closing brace of its block.
    ContUnused,
    /// E17: a hole used again, or the own continuation used after `spawn_next` took it; at the
    /// second use.
    ContTwice,
    /// E18: the 65th thread or the 9th number parameter; at its name.
    Limit,
}

impl KindFault {
    ghost use Rattle.kind_check.specs.Faults.{number_of_fault};

    /// The number of the refusal, 10 to 18.
    pub fn number(self) -> u8
        ensures { result ≡ number_of_fault self }
    {
        match self {
            KindFault::NoMain => ids::error_numbers::NO_MAIN,
            KindFault::NameTwice => ids::error_numbers::NAME_TWICE,
            KindFault::UnknownThread => ids::error_numbers::UNKNOWN_THREAD,
            KindFault::UnknownName => ids::error_numbers::UNKNOWN_NAME,
            KindFault::Arity => ids::error_numbers::ARITY,
            KindFault::KindMismatch => ids::error_numbers::KIND_MISMATCH,
            KindFault::ContUnused => ids::error_numbers::CONT_UNUSED,
            KindFault::ContTwice => ids::error_numbers::CONT_TWICE,
            KindFault::Limit => ids::error_numbers::LIMIT,
        }
    }
}

/// Why a program isn't accepted.
#[derive(Clone, Copy, Debug, PartialEq, Eq, Error)]
pub enum KindError {
    /// The least kind fault of the program, and its byte offset in the text.
    #[error("E{number} at {1}", number = self.number())]
    Fault(KindFault, u32),
    /// E9: there is no memory.
    #[error("E{number}", number = self.number())]
    Memory,
}

impl KindError {
    ghost use Rattle.kind_check.specs.Refused.{number_of_error};

    /// The number of the refusal: 9, or 10 to 18.
    pub fn number(self) -> u8
        ensures { result ≡ number_of_error self }
    {
        match self {
            KindError::Fault(fault, _) => fault.number(),
            KindError::Memory => ids::error_numbers::MEMORY,
        }
    }
}

/// An accepted program: no kind is wrong, and so every body reaches an end on any numbers.
#[derive(Drop)]
pub struct Checked {
    program: Program,
    bodies: Listed<BlockCode>,
}

impl Model for Checked {
    ghost use Rattle.task_tree.specs.Codes.{program_codes};
    ghost use Rattle.task_tree.specs.declared.tree.Program.{Program};

    ghost Value = { Program };

    ghost coded = { Prim.hlevel program_codes };

    ghost use Rattle.kind_check.specs.Total.{IsAccepted};
    ghost use Rattle.kind_check.specs.Code.{Follows};

    ghost view = { λ c. c.program };

    ghost invariant = { λ c. IsAccepted c.program × Follows c.program c.bodies };
}

impl Checked {
    /// A program that has no kind fault, and the bodies of its threads by places.
    pub(crate) fn new(program: Program, bodies: Listed<BlockCode>) -> Checked
        requires faultless { faults program ≡ [] }
        requires follow { Follows program bodies }
        ensures { result ≡ program }
    {
        Checked { program, bodies }
    }

    /// The body of a thread that is there, where each name stands as its place among the names in
    /// scope.
    #[tactic(auto, using(crate::proofs::Resolving::body_at))]
    pub fn body(&self, thread: u8) -> &BlockCode
        requires { thread < length self.now.threads }
        ensures { IsBody self.now thread result.now }
    {
        &self.bodies.as_slice()[thread as usize]
    }

    /// The program's tree.
    #[tactic(auto, using(crate::proofs::Once::holes_once))]
    pub fn program(&self) -> &Program
        ensures same { result.now ≡ self.now }
        ensures accepted { faults self.now ≡ [] }
        ensures total { IsTotal self.now }
        ensures once { HolesUsedOnce self.now }
    {
        &self.program
    }

    /// How many threads the program has, at most 64. It takes no memory.
    pub fn threads(&self) -> usize
        ensures count { result ≡ length self.now.threads }
        ensures few { result < 65 }
    {
        self.program.threads.len()
    }
}
