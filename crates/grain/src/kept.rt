//! Values that evaluations kept of tasks below one that took too many turns.
ghost use Rattle.std.specs.Prelude.{◌≡◌, IfSome};
ghost use Rattle.serial_meaning.specs.Whole.{AreWholesOf};

use kind_check::Checked;
use node_steps::Work;
use serial_meaning::Whole;
use std::alloc::Global;
use std::marker::Model;
use std::snapshot::Snapshot;

/// From how many values on older ones are forgotten.
const MOST_KEPT: usize = 2_048;

/// Values of tasks of one program. Contracts see the program alone.
#[derive(Drop)]
pub struct KeptValues {
    // It has no bytes.
    program: Snapshot<Checked>,
    values: Vec<Whole>,
}

impl Model for KeptValues {
    ghost use Rattle.task_tree.specs.Codes.{program_codes};
    ghost use Rattle.task_tree.specs.declared.tree.Program.{Program};
    ghost use Rattle.serial_meaning.specs.Whole.{AreWholesOf};

    ghost Value = { Program };

    ghost coded = { Prim.hlevel program_codes };

    ghost view = { λ k. k.program.value };

    ghost invariant = { λ k. AreWholesOf k.program.value k.values.items };
}

impl KeptValues {
    /// None is kept yet.
    pub fn new(alloc: Global, checked: &Checked) -> KeptValues
        ensures { result ≡ checked.now }
    {
        KeptValues {
            program: Snapshot::of(checked),
            values: Vec::new(alloc),
        }
    }

    /// The value of a ready frame's task, if it is kept. It isn't any more.
    pub fn take(&mut self, work: &Work) -> Option<Whole>
        ensures same { self.new ≡ self.old }
        ensures own { IfSome result (λ w. w.program ≡ self.old) }
    {
        let index = self
            .values
            .iter()
            .position(|value| is_value_of(value, work))?;
        Some(self.values.swap_remove(index))
    }

    /// Values are kept, as far as there is memory.
    pub fn add(&mut self, mut values: Vec<Whole>)
        requires { AreWholesOf self.old values.items }
        ensures { self.new ≡ self.old }
    {
        self.make_room();
        let _ = self.values.append(&mut values);
    }

    /// A value is kept, if there is memory.
    pub fn keep(&mut self, value: Whole)
        requires { value.program ≡ self.old }
        ensures { self.new ≡ self.old }
    {
        self.make_room();
        let _ = self.values.push(value);
    }

    /// None is kept any more where there were as many as are kept.
    fn make_room(&mut self)
        ensures { self.new ≡ self.old }
    {
        if self.values.len() >= MOST_KEPT {
            self.clear();
        }
    }

    /// None is kept any more.
    pub fn clear(&mut self)
        ensures { self.new ≡ self.old }
    {
        self.values.clear();
    }
}

/// Whether a value is that of a ready frame's task, as far as its thread, its numbers and its room
/// say so.
fn is_value_of(value: &Whole, work: &Work) -> bool {
    value.thread() == work.thread
        && value.room() == work.room
        && value.numbers() == work.numbers.as_slice()
}
