ghost use Rattle.std.specs.Prelude.{◌≡◌, ℕ, ℤ, List, [], ◌∷◌, Some, None, Ok};
ghost use Rattle.ids.specs.Names.{Grant};
ghost use Rattle.ids.specs.Slots.{numbers_in};
ghost use Rattle.ids.specs.declared.outcome.Outcome.{Outcome};
ghost use Rattle.ids.specs.declared.work.Frame.{Frame};
ghost use Rattle.ids.specs.declared.work.Record.{Record};
ghost use Rattle.ids.specs.declared.work.Task.{Task};
ghost use Rattle.task_tree.specs.declared.tree.Program.{Program};
ghost use Rattle.kind_check.specs.Turns.{turn_of};
ghost use Rattle.kind_check.specs.declared.turn.Turn.{Turn};
ghost use Rattle.kind_check.specs.declared.turn.Turn.TheVariants.{Sends};
ghost use Rattle.body_eval.specs.Done.{DoneOf, IsEvaluated};
ghost use Rattle.serial_meaning.specs.Serial.{serial};
ghost use Rattle.serial_meaning.specs.Places.{Call, room, root, value_at};
ghost use Rattle.frames.specs.Frames.{frame_in};
ghost use Rattle.victim_records.specs.Records.{record_in};
ghost use Rattle.sub_rules.specs.declared.change.ContentChange.{ContentChange};
ghost use Rattle.sub_rules.specs.declared.content.Content.{Content};
ghost use Rattle.sub_rules.specs.Carrying.{exec_content};
ghost use Rattle.sub_rules.specs.Resuming.{Known, resumed};
ghost use Rattle.sub_rules.specs.Content.{Ready, ready_in, granted_content};
ghost use Rattle.sub_rules.specs.Changes.{turned, closed, granted_out, redone, with_parent, with_thief};
ghost use Rattle.table_laws.specs.Tables.{◌∈◌};
ghost use Rattle.table_laws.specs.Content.{Content as Tables, given, rehost};
ghost use Rattle.table_laws.specs.View.{Roster, Sub, View};
ghost use Rattle.table_laws.specs.Facts.{Live, Resolves, RecordOf, result_to};
ghost use Rattle.table_laws.specs.Guards.{MayAnswer};
ghost use Rattle.table_laws.specs.Meaning.{Meaning, FitsMeaning};
ghost use Rattle.table_laws.specs.Program.{program_meaning};
ghost use Rattle.table_laws.specs.Moves.{alter};
ghost use Rattle.table_laws.specs.Acts.{Act};
ghost use Rattle.content_laws.specs.Shown.{outcome_number, Shows};
ghost use Rattle.content_laws.specs.Moved.{IsKept, IsMove, BeginsTask, IsGrantMove, IsContentEnd, next_grant, grants_of_records};

/// The turn of a ready frame is a move of a run of its program, however it ends: a number that it
/// sends fills a slot or is the outcome, a join has its successor and its kids in the frame's
/// place, and a join that is too deep ends the whole. Where the value of a kid is known, and is the
/// one of its place, the successor has it instead of the kid. Does nothing.
pub fn turns_are_moves()
    ensures turned { (p : Program) (input : List ℤ) (known : Known) (v : View) (i : ℕ) (g : Grant) (s : Sub) (c : Content)
        (f : Frame) (numbers : List ℤ) (turn : Turn)
        → ((place : List ℕ) (x : ℤ) → known place ≡ Some x → value_at p input place ≡ Some x)
        → Live v i g s
        → IsKept c
        → Shows s.content c
        → frame_in f.number c.frames ≡ Some f
        → numbers_in f.slots ≡ Some numbers
        → turn_of p f.thread numbers ≡ Some turn
        → IsMove (program_meaning p input) v i g s (turned f (resumed known f.place turn) c).after
        (turned f (resumed known f.place turn) c).fill
        (grants_of_records (turned f (resumed known f.place turn) c).dropped) }
    ensures whole { (p : Program) (input : List ℤ) (v : View) (i : ℕ) (g : Grant) (s : Sub) (c : Content)
        (f : Frame) (numbers : List ℤ) (x : ℤ)
        → Live v i g s
        → IsKept c
        → Shows s.content c
        → frame_in f.number c.frames ≡ Some f
        → numbers_in f.slots ≡ Some numbers
        → serial p (room f.place) f.thread numbers ≡ Some x
        → IsMove (program_meaning p input) v i g s (turned f (Sends x) c).after (turned f (Sends x) c).fill
        (grants_of_records (turned f (Sends x) c).dropped) }
    ensures executed { (input : List ℤ) (known : Known) (v : View) (i : ℕ) (g : Grant) (s : Sub) (c : Content)
        (d : DoneOf) (n : ℕ) (change : ContentChange)
        → ((place : List ℕ) (x : ℤ) → known place ≡ Some x → value_at d.program input place ≡ Some x)
        → Live v i g s
        → IsKept c
        → Shows s.content c
        → IsEvaluated d
        → exec_content known d n c ≡ Ok change
        → IsMove (program_meaning d.program input) v i g s change.after change.fill (grants_of_records change.dropped) }
{}

/// An outcome that comes for a record is a move, where a Result told it: the record is settled, and
/// so are those that go where the whole ends. Does nothing.
pub fn results_are_moves()
    ensures { (m : Meaning) (v : View) (i : ℕ) (g : Grant) (s : Sub) (c : Content) (r : Record) (o : Outcome)
        → Live v i g s
        → IsKept c
        → Shows s.content c
        → record_in r.grant c.records ≡ Some r
        → result_to r.grant i (outcome_number o) ∈ v.results
        → IsMove m v i g s (closed r o c).after (closed r o c).fill
        (r.grant ∷ grants_of_records (closed r o c).dropped) }
{}

/// A record that is closed without an outcome, so that its frame is done again, is a move, which
/// settles it. Does nothing.
pub fn frames_done_again_are_moves()
    ensures { (m : Meaning) (v : View) (i : ℕ) (g : Grant) (s : Sub) (c : Content) (r : Record)
        → Live v i g s
        → IsKept c
        → Shows s.content c
        → record_in r.grant c.records ≡ Some r
        → IsMove m v i g s (redone r c) None (r.grant ∷ []) }
{}

/// A ready frame that is granted away, under the next grant that its holder mints, is a move, where
/// the thief's request may be answered. Does nothing.
pub fn grants_are_moves()
    ensures { (v : View) (i : ℕ) (g : Grant) (s : Sub) (thief seq n : ℕ) (c : Content) (r : Ready)
        → Live v i g s
        → MayAnswer v i thief seq
        → Shows s.content c
        → ready_in n c ≡ Some r
        → record_in (next_grant v i) c.records ≡ None
        → IsGrantMove v i g s thief seq r (granted_out (next_grant v i) thief r c) }
{}

/// There are tables with which a granted task begins, as a Grant sends them and its thief takes
/// them. The first task of a program on an input is the one that a house grants in a run. Does
/// nothing.
pub fn tasks_begin()
    ensures begun { (host : ℕ) (task : Task) → BeginsTask host task }
    ensures first { (p : Program) (input : List ℤ) (call : Call)
        → root p input ≡ Some call
        → FitsMeaning (program_meaning p input) [] call.thread (λ j. given call.numbers j) }
{}

/// A content whose parent host is renamed is shown after the move that renames it; who holds a
/// record's grant isn't in the tables. Does nothing.
pub fn renames_are_moves()
    ensures parent { (t : Tables) (c : Content) (host : ℕ) → Shows t c → Shows (rehost t host) (with_parent host c) }
    ensures renamed { (v : View) (i : ℕ) (g : Grant) (s : Sub) (c : Content) (roster : Roster) (host : ℕ)
        → Live v i g s
        → Shows s.content c
        → roster ∈ v.rosters
        → Resolves roster c.parent host
        → Act v (alter v i g s (rehost s.content host) None [] []) }
    ensures thief { (t : Tables) (c : Content) (g : Grant) (holder : ℕ)
        → Shows t c
        → Shows t (with_thief g holder c) }
{}

/// A content that stays as it is and tells its outcome again, if it has one, is a move. Does
/// nothing.
pub fn results_told_again_are_moves()
    ensures { (m : Meaning) (v : View) (i : ℕ) (g : Grant) (s : Sub) (c : Content)
        → Live v i g s
        → Shows s.content c
        → IsMove m v i g s c None [] }
{}

/// A content that ends, with whatever outcome, is shown by tables in which nothing is left. Does
/// nothing.
pub fn ends_leave_nothing()
    ensures { (g : Grant) (t : Tables) (c : Content) (o : Outcome) → IsKept c → Shows t c → IsContentEnd g t c o }
{}

/// What the holder of a content keeps of it stays so at each change, and holds of the content with
/// which a task begins. Does nothing.
pub fn changes_keep_contents()
    ensures begun { (host : ℕ) (task : Task) → IsKept (granted_content host task) }
    ensures turned { (c : Content) (f : Frame) (numbers : List ℤ) (turn : Turn)
        → IsKept c
        → frame_in f.number c.frames ≡ Some f
        → numbers_in f.slots ≡ Some numbers
        → IsKept (turned f turn c).after }
    ensures executed { (known : Known) (c : Content) (d : DoneOf) (n : ℕ) (change : ContentChange)
        → IsKept c
        → exec_content known d n c ≡ Ok change
        → IsKept change.after }
    ensures closed { (c : Content) (r : Record) (o : Outcome)
        → IsKept c
        → record_in r.grant c.records ≡ Some r
        → IsKept (closed r o c).after }
    ensures redone { (c : Content) (r : Record)
        → IsKept c
        → record_in r.grant c.records ≡ Some r
        → IsKept (redone r c) }
    ensures granted { (c : Content) (g : Grant) (thief n : ℕ) (r : Ready)
        → IsKept c
        → ready_in n c ≡ Some r
        → record_in g c.records ≡ None
        → IsKept (granted_out g thief r c) }
    ensures parent { (c : Content) (host : ℕ) → IsKept c → IsKept (with_parent host c) }
    ensures thief { (c : Content) (g : Grant) (holder : ℕ) → IsKept c → IsKept (with_thief g holder c) }
{}

/// Each content that is kept is shown by some tables. Does nothing.
pub fn contents_are_shown()
    ensures { (c : Content) → IsKept c → (t : Tables) × Shows t c }
{}

/// The records of a content that is shown are those of its tables, one by one and in lists of their
/// grants. Does nothing.
pub fn records_are_shown()
    ensures there { (t : Tables) (c : Content) (g : Grant) (r : Record)
        → Shows t c
        → record_in g c.records ≡ Some r
        → RecordOf t g }
    ensures only { (t : Tables) (c : Content) (g : Grant)
        → IsKept c
        → Shows t c
        → RecordOf t g
        → (r : Record) × (record_in g c.records ≡ Some r) }
    ensures listed { (t : Tables) (c : Content) (g : Grant)
        → IsKept c
        → Shows t c
        → g ∈ grants_of_records c.records
        → RecordOf t g }
{}
