ghost use Rattle.std.specs.Prelude.{◌≡◌, length, IfOk};
ghost use Rattle.kind_check.specs.Total.{Takes};

use crate::body;
use ids::Numbers;
use kind_check::{Checked, Turn};
use std::alloc::{AllocError, Global};
use std::marker::Model;
use std::snapshot::Snapshot;

/// A turn that was evaluated: the thread, its numbers and the end that it reached. It keeps what
/// makes it a turn of its accepted program, wherever it is passed, also to another thread. Which
/// program that is, only contracts see.
#[derive(Drop)]
pub struct Done {
    // It has no bytes. `of` takes it from the program itself, and nothing else makes a `Done`.
    program: Snapshot<Checked>,
    thread: u8,
    numbers: Numbers,
    turn: Turn,
}

impl Model for Done {
    ghost use Rattle.task_tree.specs.Codes.{program_codes};
    ghost use Rattle.body_eval.specs.Done.{DoneOf};

    ghost Value = { DoneOf };

    ghost coded = { Prim.hlevel program_codes };

    ghost use Rattle.body_eval.specs.Done.{IsEvaluated};

    ghost view = { λ d. record { program = d.program.value; thread = d.thread; numbers = d.numbers; turn = d.turn } };

    ghost invariant = { λ d. IsEvaluated (record { program = d.program.value; thread = d.thread; numbers = d.numbers; turn = d.turn }) };
}

impl Done {
    ghost use Rattle.body_eval.specs.Done.{IsEvaluated};

    /// Evaluates a turn, and keeps the numbers with it; refused only when out of memory.
    pub fn of(
        alloc: Global,
        checked: &Checked,
        thread: u8,
        numbers: Vec<i64>,
    ) -> Result<Done, AllocError>
        requires { Takes checked.now thread (length numbers.items) }
        ensures same { IfOk result (λ d. (d.program ≡ checked.now) × (d.thread ≡ thread)
            × (d.numbers ≡ numbers.items)) }
        ensures evaluated { IfOk result IsEvaluated }
    {
        Done::on(alloc, checked, thread, Numbers::from_vec(numbers))
    }

    /// Evaluates a turn, as `of` does, on a short list of numbers.
    pub fn on(
        alloc: Global,
        checked: &Checked,
        thread: u8,
        numbers: Numbers,
    ) -> Result<Done, AllocError>
        requires { Takes checked.now thread (length numbers) }
        ensures same { IfOk result (λ d. (d.program ≡ checked.now) × (d.thread ≡ thread) × (d.numbers ≡ numbers)) }
        ensures evaluated { IfOk result IsEvaluated }
    {
        let _program = checked.program();
        let turn = body::turn(alloc, checked, thread, numbers.as_slice())?;
        Ok(Done {
            program: Snapshot::of(checked),
            thread,
            numbers,
            turn,
        })
    }

    /// The number of the thread.
    pub fn thread(&self) -> u8
        ensures same { result ≡ self.now.thread }
        ensures evaluated { IsEvaluated self.now }
    {
        self.thread
    }

    /// The numbers that the thread ran on.
    pub fn numbers(&self) -> &[i64]
        ensures same { result.now ≡ self.now.numbers }
        ensures evaluated { IsEvaluated self.now }
    {
        self.numbers.as_slice()
    }

    /// The end that the thread reached.
    pub fn turn(&self) -> &Turn
        ensures same { result.now ≡ self.now.turn }
        ensures evaluated { IsEvaluated self.now }
    {
        &self.turn
    }

    /// The end that the thread reached, without the rest.
    pub fn into_turn(self) -> Turn
        ensures same { result ≡ self.turn }
        ensures evaluated { IsEvaluated self }
    {
        self.turn
    }
}
