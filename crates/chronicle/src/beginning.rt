ghost use Rattle.std.specs.Prelude.{◌≡◌};
ghost use Rattle.chronicle.specs.History.{beginning};

use disk::{MemDisk, SteadyDisk};
use serial_meaning::Job;
use std::marker::Model;
use std::snapshot::Snapshot;
use world_steps::FirstDisk;

/// With what a history begins, as contracts see it: its job, and the device over which its
/// clearinghouse stands. It takes no bytes.
#[derive(Drop)]
pub struct Beginning<D: SteadyDisk + Drop = MemDisk> {
    job: Snapshot<Job>,
    disk: Snapshot<D>,
}

impl<D: SteadyDisk + Drop> Model for Beginning<D> {
    ghost use Rattle.task_tree.specs.Codes.{program_codes};
    ghost use Rattle.chronicle.specs.History.{BeginningOf, beginning};

    ghost Value = { BeginningOf };

    ghost coded = { Prim.hlevel program_codes };

    ghost view = { λ b. beginning b.job.value (D.device b.disk.value) };
}

impl<D: SteadyDisk + Drop> Beginning<D> {
    /// That of a run over a disk with which it begins.
    pub(crate) fn of(first: &FirstDisk<'_, D>) -> Beginning<D>
        ensures { result ≡ beginning first.now.job (D.device first.now.disk) }
    {
        Beginning {
            job: Snapshot::of(first.job()),
            disk: Snapshot::of(first.disk()),
        }
    }
}
