ghost use Rattle.std.specs.Prelude.{◌<◌, ◌≤◌, ℕ, IsTrue, length};
ghost use Rattle.ids.specs.Names.{Grant};
ghost use Rattle.ids.specs.declared.work.Task.{Task};
ghost use Rattle.task_tree.specs.declared.tree.Program.{Program};
ghost use Rattle.kind_check.specs.Total.{IsAccepted};
ghost use Rattle.sub_rules.specs.declared.content.Content.{Content};
ghost use Rattle.sub_rules.specs.Changes.{with_parent, with_thief};
ghost use Rattle.subcomputation.specs.Fitting.{Fits, task_fits};

/// A task that fits an accepted program can be put into a packet: its thread's number is below 64,
/// and it has at most 8 numbers. Does nothing.
pub fn fitting_tasks_are_few()
    ensures thread { (p : Program) (t : Task) → IsAccepted p → IsTrue (task_fits p t) → t.thread < 64 }
    ensures numbers { (p : Program) (t : Task) → IsAccepted p → IsTrue (task_fits p t) → length t.numbers ≤ 8 }
{
    kind_check::accepted_threads_are_few();
}

/// A content that fits a program still fits when another host waits for its outcome, and when
/// another worker holds a stolen frame. Does nothing.
pub fn renaming_keeps_fitting()
    ensures parent { (p : Program) (host : ℕ) (c : Content) → Fits p c → Fits p (with_parent host c) }
    ensures thief { (p : Program) (g : Grant) (holder : ℕ) (c : Content) → Fits p c → Fits p (with_thief g holder c) }
{}
