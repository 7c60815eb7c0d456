ghost use Rattle.std.specs.Prelude.{◌≡◌, ◌≤◌, ℕ, ℤ, List, [], Some, length};
ghost use Rattle.ids.specs.Names.{Grant};
ghost use Rattle.ids.specs.Naming.{name_of_frame};
ghost use Rattle.ids.specs.Ordered.{AreInOrder};
ghost use Rattle.ids.specs.Slots.{numbers_in};
ghost use Rattle.ids.specs.declared.outcome.Outcome.{Outcome};
ghost use Rattle.ids.specs.declared.outcome.Progress.TheVariants.{Finished};
ghost use Rattle.ids.specs.declared.work.Frame.{Frame};
ghost use Rattle.ids.specs.declared.work.Record.{Record};
ghost use Rattle.ids.specs.declared.work.Task.{Task};
ghost use Rattle.kind_check.specs.Total.{IsAccepted};
ghost use Rattle.kind_check.specs.Turns.{turn_of};
ghost use Rattle.kind_check.specs.declared.turn.Turn.{Turn};
ghost use Rattle.kind_check.specs.declared.turn.Turn.TheVariants.{Sends};
ghost use Rattle.serial_meaning.specs.Serial.{serial};
ghost use Rattle.saved_values.specs.Places.{stripped};
ghost use Rattle.saved_values.specs.Saved.{known_by, put_saved, saved_under};
ghost use Rattle.saved_values.specs.declared.value.SavedValue.{SavedValue};
ghost use Rattle.serial_meaning.specs.Places.{Call, room, root, outcome_at, task_at, value_at};
ghost use Rattle.serial_meaning.specs.Job.{JobOf, IsJob, meaning_of};
ghost use Rattle.frames.specs.Frames.{frame_in};
ghost use Rattle.victim_records.specs.Records.{record_in};
ghost use Rattle.sub_rules.specs.declared.content.Content.{Content};
ghost use Rattle.sub_rules.specs.Content.{Ready, ready_in, task_of, granted_content};
ghost use Rattle.sub_rules.specs.Changes.{turned, closed, granted_out, redone, with_parent, with_thief};
ghost use Rattle.sub_rules.specs.Debts.{IsSound};
ghost use Rattle.sub_rules.specs.Resuming.{Known, resumed};
ghost use Rattle.agreement_laws.specs.Agreement.{AllSavedAgree, TaskAgrees, ContentAgrees, FillAgrees, IsSavedOf, KnownAgrees};

/// The first task of a job agrees with it. Does nothing.
pub fn root_content_agrees()
    ensures { (job : JobOf) (call : Call)
        → IsJob job
        → root job.program job.input ≡ Some call
        → TaskAgrees job (record { place = []; thread = call.thread; numbers = call.numbers }) }
{}

/// The content with which a task begins agrees where the task does. Does nothing.
pub fn granted_content_agrees()
    ensures { (job : JobOf) (host : ℕ) (task : Task)
        → TaskAgrees job task
        → ContentAgrees job (granted_content host task) }
{}

/// The turn of a ready frame, carried out by what is known of the values of its kids, keeps the
/// agreement of a sound content, where what is known agrees; and a value that it puts into a slot
/// is the one that the slot receives. Does nothing.
pub fn turn_keeps_agreement()
    ensures content { (job : JobOf) (known : Known) (c : Content) (f : Frame) (numbers : List ℤ) (turn : Turn)
        → IsAccepted job.program
        → KnownAgrees job known
        → IsSound c
        → AreInOrder name_of_frame c.frames
        → ContentAgrees job c
        → frame_in f.number c.frames ≡ Some f
        → numbers_in f.slots ≡ Some numbers
        → turn_of job.program f.thread numbers ≡ Some turn
        → ContentAgrees job (turned f (resumed known f.place turn) c).after }
    ensures fill { (job : JobOf) (known : Known) (c : Content) (f : Frame) (numbers : List ℤ) (turn : Turn)
        → IsAccepted job.program
        → KnownAgrees job known
        → IsSound c
        → AreInOrder name_of_frame c.frames
        → ContentAgrees job c
        → frame_in f.number c.frames ≡ Some f
        → numbers_in f.slots ≡ Some numbers
        → turn_of job.program f.thread numbers ≡ Some turn
        → FillAgrees job (turned f (resumed known f.place turn) c).fill }
{}

/// A ready frame that sends what its thread gives on its numbers, with all that comes of it in the
/// room below its place, keeps the agreement of a sound content, and the value that it puts into a
/// slot is the one that the slot receives. Does nothing.
pub fn whole_keeps_agreement()
    ensures content { (job : JobOf) (c : Content) (f : Frame) (numbers : List ℤ) (v : ℤ)
        → IsSound c
        → AreInOrder name_of_frame c.frames
        → ContentAgrees job c
        → frame_in f.number c.frames ≡ Some f
        → numbers_in f.slots ≡ Some numbers
        → serial job.program (room f.place) f.thread numbers ≡ Some v
        → ContentAgrees job (turned f (Sends v) c).after }
    ensures fill { (job : JobOf) (c : Content) (f : Frame) (numbers : List ℤ) (v : ℤ)
        → IsSound c
        → AreInOrder name_of_frame c.frames
        → ContentAgrees job c
        → frame_in f.number c.frames ≡ Some f
        → numbers_in f.slots ≡ Some numbers
        → serial job.program (room f.place) f.thread numbers ≡ Some v
        → FillAgrees job (turned f (Sends v) c).fill }
{}

/// The outcome of a record's grant, if it is that of the record's task, keeps agreement when it
/// comes, and a value that it puts into a slot is the one that the slot receives. Does nothing.
pub fn result_keeps_agreement()
    ensures content { (job : JobOf) (c : Content) (r : Record) (o : Outcome)
        → ContentAgrees job c
        → record_in r.grant c.records ≡ Some r
        → o ≡ outcome_at job.program job.input r.task.place
        → ContentAgrees job (closed r o c).after }
    ensures fill { (job : JobOf) (c : Content) (r : Record) (o : Outcome)
        → ContentAgrees job c
        → record_in r.grant c.records ≡ Some r
        → o ≡ outcome_at job.program job.input r.task.place
        → FillAgrees job (closed r o c).fill }
{}

/// The task of a ready frame agrees, and so does a sound content that the frame is granted away
/// from. Does nothing.
pub fn grant_keeps_agreement()
    ensures task { (job : JobOf) (c : Content) (n : ℕ) (r : Ready)
        → ContentAgrees job c
        → ready_in n c ≡ Some r
        → TaskAgrees job (task_of r) }
    ensures content { (job : JobOf) (c : Content) (n : ℕ) (g : Grant) (thief : ℕ) (r : Ready)
        → IsSound c
        → AreInOrder name_of_frame c.frames
        → ContentAgrees job c
        → ready_in n c ≡ Some r
        → ContentAgrees job (granted_out g thief r c) }
{}

/// A sound content that agrees does so when a record is closed without an outcome and its frame is
/// there again. Does nothing.
pub fn redoing_keeps_agreement()
    ensures { (job : JobOf) (c : Content) (r : Record)
        → IsSound c
        → ContentAgrees job c
        → record_in r.grant c.records ≡ Some r
        → ContentAgrees job (redone r c) }
{}

/// A content that agrees does so when another host waits for its outcome, or another worker holds a
/// stolen frame. Does nothing.
pub fn renaming_keeps_agreement()
    ensures parent { (job : JobOf) (host : ℕ) (c : Content)
        → ContentAgrees job c
        → ContentAgrees job (with_parent host c) }
    ensures thief { (job : JobOf) (g : Grant) (holder : ℕ) (c : Content)
        → ContentAgrees job c
        → ContentAgrees job (with_thief g holder c) }
{}

/// The outcome of a content whose task stands at the root is what the job means. Does nothing.
pub fn finished_roots_mean()
    ensures { (job : JobOf) (c : Content) (o : Outcome)
        → ContentAgrees job c
        → c.task.place ≡ []
        → c.progress ≡ Finished o
        → o ≡ meaning_of job }
{}

/// Of saved values that agree: what is known by them agrees, and so do those below a place, and
/// with one more that agrees. And the value of a task whose last steps go to successors is that of
/// its place without these steps. Does nothing.
pub fn saved_values_agree()
    ensures known { (job : JobOf) (saved : List SavedValue) → AllSavedAgree job saved → KnownAgrees job (known_by saved) }
    ensures below { (job : JobOf) (root : List ℕ) (saved : List SavedValue) → AllSavedAgree job saved
        → AllSavedAgree job (saved_under root saved) }
    ensures put { (job : JobOf) (x : SavedValue) (saved : List SavedValue) → IsSavedOf job x → AllSavedAgree job saved
        → AllSavedAgree job (put_saved x saved) }
    ensures stripped { (job : JobOf) (place : List ℕ) (task : Call) → length place ≤ 1024
        → task_at job.program job.input place ≡ Some task
        → value_at job.program job.input (stripped place) ≡ value_at job.program job.input place }
{}
