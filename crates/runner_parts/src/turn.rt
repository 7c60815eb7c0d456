//! What comes back from body workers.
ghost use Rattle.std.specs.Prelude.{◌≡◌, IfSome};
ghost use Rattle.runner_parts.specs.Turns.{IsEvaluatedOf};

use body_eval::Done;
use event_script::FrameOf;
use grain::Left;
use kind_check::Checked;
use local_pool::Stamped;
use serial_meaning::Whole;
use std::marker::Model;
use std::snapshot::Snapshot;

/// What a body worker found for a ready frame: its turn, or what its task gives with all that comes
/// of it.
#[derive(Drop)]
pub enum Found {
    Turn(Done),
    Whole(Whole),
}

/// What a body worker evaluated: the number of the ticket, its frame, and what was found; and what
/// is left where its task wasn't evaluated to its end.
#[derive(Drop)]
pub struct Evaluated {
    pub ticket: u64,
    pub frame: FrameOf,
    pub found: Found,
    pub left: Left,
}

/// What comes back from body workers, all of one program. The first one has nothing, and stands for
/// the program. Contracts see both.
#[derive(Drop)]
pub struct Finished {
    // It has no bytes.
    program: Snapshot<Checked>,
    evaluated: Option<Evaluated>,
}

impl Model for Finished {
    ghost use Rattle.task_tree.specs.Codes.{program_codes};
    ghost use Rattle.runner_parts.specs.Turns.{FinishedOf, IsFinished};

    ghost Value = { FinishedOf };

    ghost coded = { Prim.hlevel program_codes };

    ghost view = { λ f. record { program = f.program.value; evaluated = f.evaluated } };

    ghost invariant = { λ f. IsFinished (record { program = f.program.value; evaluated = f.evaluated }) };
}

impl Stamped for Finished {
    type Stamp = Snapshot<Checked>;

    ghost use Rattle.runner_parts.specs.Turns.{stamp_of};

    ghost stamp = { stamp_of };
}

impl Finished {
    /// The first one of a program.
    pub fn first(checked: &Checked) -> Finished
        ensures { result.program ≡ checked.now }
    {
        Finished {
            program: Snapshot::of(checked),
            evaluated: None,
        }
    }

    /// What was evaluated of a program.
    pub fn of(checked: &Checked, evaluated: Evaluated) -> Finished
        requires { IsEvaluatedOf checked.now evaluated }
        ensures { result.program ≡ checked.now }
    {
        Finished {
            program: Snapshot::of(checked),
            evaluated: Some(evaluated),
        }
    }

    /// What was evaluated, if something was.
    pub fn into_evaluated(self) -> Option<Evaluated>
        ensures { IfSome result (IsEvaluatedOf self.program) }
    {
        self.evaluated
    }
}
