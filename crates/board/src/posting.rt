ghost use Rattle.std.specs.Prelude.{◌≡◌, [], IfErr, None, OnOk, Some};
ghost use Rattle.board.specs.Boards.{Agree, IsMeant, StaysKnown};

use crate::notes::Note;
use once_cell::race::OnceBox;
use saved_values::SavedTable;
use serial_meaning::{Job, Outcome};
use std::alloc::Global;
use std::marker::Model;
use std::snapshot::Snapshot;

/// Where the outcome of a job stands once it is known. Threads share it by reference. Contracts see
/// which board it is, its job, and the saved values with which that goes on.
#[derive(Drop)]
pub struct Board {
    cell: OnceBox<Outcome>,
    alloc: Global,
    job: Snapshot<Job>,
    saved: Snapshot<SavedTable>,
}

impl Model for Board {
    ghost use Rattle.once_cell.specs.Once.{cell_name};
    ghost use Rattle.task_tree.specs.Codes.{program_codes};
    ghost use Rattle.board.specs.Boards.{BoardOf};

    ghost Value = { BoardOf };

    ghost coded = { Prim.hlevel program_codes };

    ghost view = { λ b. record { board = cell_name b.cell; job = b.job.value; saved = b.saved.value } };
}

impl Board {
    /// An empty board for a job; takes no memory.
    pub fn new(alloc: Global, job: &Job) -> Board
        ensures job { result.job ≡ job.now }
        ensures saved { result.saved ≡ [] }
    {
        Board::over(alloc, job, &SavedTable::new())
    }

    /// An empty board for a job that goes on with saved values; takes no memory.
    pub fn over(alloc: Global, job: &Job, saved: &SavedTable) -> Board
        ensures job { result.job ≡ job.now }
        ensures saved { result.saved ≡ saved.now }
    {
        Board {
            cell: OnceBox::new(alloc),
            alloc,
            job: Snapshot::of(job),
            saved: Snapshot::of(saved),
        }
    }

    /// A note that knows nothing yet; takes no memory.
    pub fn note(&self) -> Note
        ensures { (result.board ≡ self.now.board) × (result.known ≡ None) }
    {
        Note {
            note: self.cell.note(),
        }
    }

    /// Sets the outcome, which has to be the meaning of the board's job, if the saved values agree
    /// with which that goes on. Where one is set already, or without memory, it comes back.
    pub fn publish(&self, note: &mut Note, outcome: Outcome) -> Result<(), Outcome>
        requires board { note.old.board ≡ self.now.board }
        requires meaning { IsMeant self.now.job self.now.saved outcome }
        ensures board { note.new.board ≡ note.old.board }
        ensures ok { OnOk result ((note.old.known ≡ None) × (note.new.known ≡ Some outcome)) }
        ensures err { IfErr result (λ o. o ≡ outcome) }
        ensures known { StaysKnown note.old.known note.new.known }
    {
        let Ok(value) = Box::new(self.alloc, outcome) else {
            return Err(outcome);
        };
        match self.cell.set_as(value, &mut note.note) {
            Ok(()) => Ok(()),
            Err(_) => Err(outcome),
        }
    }

    /// The outcome, if it is set: a load, without memory. A note that knows an outcome reads that
    /// one.
    pub fn read(&self, note: &mut Note) -> Option<Outcome>
        requires { note.old.board ≡ self.now.board }
        ensures board { note.new.board ≡ note.old.board }
        ensures read { note.new.known ≡ result }
        ensures known { StaysKnown note.old.known result }
    {
        self.cell.get_as(&mut note.note).copied()
    }

    /// Two notes of one board that know an outcome know the same one.
    pub fn compare(one: &mut Note, other: &mut Note)
        requires { one.old.board ≡ other.old.board }
        ensures same { (one.new ≡ one.old) × (other.new ≡ other.old) }
        ensures agree { Agree one.old.known other.old.known }
    {
        one.note.compare(other.note.again());
    }
}
