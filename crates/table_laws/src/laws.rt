ghost use Rattle.std.specs.Prelude.{◌≡◌, ◌<◌, ℕ, ℤ, List, [], ◌⊎◌, Option, Some, None};
ghost use Rattle.ids.specs.Names.{house_of, Grant};
ghost use Rattle.task_tree.specs.declared.tree.Program.{Program};
ghost use Rattle.serial_meaning.specs.Places.{outcome_of, meaning};
ghost use Rattle.table_laws.specs.Tables.{◌∈◌};
ghost use Rattle.table_laws.specs.Content.{Content, HoldsTask, SameWork, Fill, Changes};
ghost use Rattle.table_laws.specs.View.{Unlisted, Dead, Left, Live as Listed, Transfer, Result, Leave, Roster, Reply, House, Works, Sub, View};
ghost use Rattle.table_laws.specs.Facts.{Said, SentTo, Granted, Live, Cont, Lost};
ghost use Rattle.table_laws.specs.Names.{Names};
ghost use Rattle.table_laws.specs.Fills.{Once, Fills};
ghost use Rattle.table_laws.specs.Leavers.{Leavers};
ghost use Rattle.table_laws.specs.Homes.{Homes};
ghost use Rattle.table_laws.specs.Rooted.{Rooted};
ghost use Rattle.table_laws.specs.Kin.{Kin};
ghost use Rattle.table_laws.specs.Requests.{Requests};
ghost use Rattle.table_laws.specs.Cases.{Cases};
ghost use Rattle.table_laws.specs.Rosters.{Rosters};
ghost use Rattle.table_laws.specs.Known.{Known};
ghost use Rattle.table_laws.specs.Later.{Later};
ghost use Rattle.table_laws.specs.Tasks.{Tasks};
ghost use Rattle.table_laws.specs.Values.{Values};
ghost use Rattle.table_laws.specs.Epochs.{Epochs};
ghost use Rattle.table_laws.specs.Heirs.{EndsIn, Heirs};
ghost use Rattle.table_laws.specs.Acts.{ReachedInTables};
ghost use Rattle.table_laws.specs.Recovery.{Comes};
ghost use Rattle.table_laws.specs.Meaning.{Meaning, IsSerial};
ghost use Rattle.table_laws.specs.Program.{program_meaning};
ghost use Rattle.table_laws.specs.Causes.{Cause};
ghost use Rattle.table_laws.specs.Runs.{Run, Leads};
ghost use Rattle.table_laws.specs.Work.{ReadyInTables, Wanted, HasHolder, Working};

/// The groups of clauses hold in each view that moves lead to, and Values in each of a run, which
/// is a list of moves: what the other laws are made of. Does nothing.
pub fn what_is_kept()
    ensures names { (v : View) → ReachedInTables v → Names v }
    ensures fills { (v : View) → ReachedInTables v → Fills v }
    ensures leavers { (v : View) → ReachedInTables v → Leavers v }
    ensures homes { (v : View) → ReachedInTables v → Homes v }
    ensures rooted { (v : View) → ReachedInTables v → Rooted v }
    ensures kin { (v : View) → ReachedInTables v → Kin v }
    ensures requests { (v : View) → ReachedInTables v → Requests v }
    ensures cases { (v : View) → ReachedInTables v → Cases v }
    ensures rosters { (v : View) → ReachedInTables v → Rosters v }
    ensures known { (v : View) → ReachedInTables v → Known v }
    ensures later { (v : View) → ReachedInTables v → Later v }
    ensures tasks { (v : View) → ReachedInTables v → Tasks v }
    ensures epochs { (v : View) → ReachedInTables v → Epochs v }
    ensures heirs { (v : View) → ReachedInTables v → Heirs v }
    ensures values { (m : Meaning) (v : View) → IsSerial m → Run m v → Values m v }
    ensures reached { (m : Meaning) (v : View) → Run m v → ReachedInTables v }
{}

/// A grant of which anything was sent was sent by a Grant first: a transfer that is no Offer. Does
/// nothing.
pub fn each_transfer_comes_of_a_grant()
    ensures { (v : View) (g : Grant)
        → ReachedInTables v
        → Granted v.transfers g
        → (i : ℕ) × (SentTo v.transfers g 0 i) }
{}

/// Whatever moves were made, no grant has two live holders. Does nothing.
pub fn no_two_live_holders()
    ensures { (v : View) (i j : ℕ) (g : Grant) (s t : Sub)
        → ReachedInTables v
        → Live v i g s
        → Live v j g t
        → i ≡ j }
{}

/// Whatever moves were made, no two of all fills so far are of one slot. Does nothing.
pub fn no_slot_filled_twice()
    ensures { (v : View) → ReachedInTables v → Once v.fills }
{}

/// Whatever moves were made, the work of a grant is one task, wherever it was sent and whoever
/// holds it; a record holds the very task that its grant was sent with. Does nothing.
pub fn a_grant_is_one_task()
    ensures everywhere { (v : View) (g : Grant) (c d : Content)
        → ReachedInTables v
        → Cont v g c
        → Cont v g d
        → c.task ≡ d.task }
    ensures record { (v : View) (g k : Grant) (c d : Content) (n : ℕ)
        → ReachedInTables v
        → Cont v g c
        → c.granted n ≡ Some k
        → Cont v k d
        → HoldsTask c n d.task }
{}

/// A change of a content that has its cause, a turn, an outcome that came or a redo, is what a move
/// asks: it keeps each empty slot's one debtor, what was closed stays closed, and it fills only
/// what wasn't; and it makes no record, and leaves those that stay as they were. Does nothing.
pub fn each_cause_is_a_change()
    ensures records { (m : Meaning) (v : View) (i : ℕ) (g k : Grant) (c d : Content) (fill : Option Fill) (n : ℕ)
        → Cause m v i g c d fill
        → d.granted n ≡ Some k
        → (c.granted n ≡ Some k) × SameWork c d n }
    ensures slots { (m : Meaning) (v : View) (i : ℕ) (g : Grant) (c d : Content) (fill : Option Fill)
        → Cause m v i g c d fill
        → Changes g c d fill }
{}

/// The meaning of a program on an input has what the theorems on values use of it. Does nothing.
pub fn a_programs_meaning_is_serial()
    ensures { (p : Program) (input : List ℤ) → IsSerial (program_meaning p input) }
{}

/// In every run of a job's program, each fill that was ever made is of the value that the serial
/// meaning gives its slot. Does nothing.
pub fn every_fill_is_the_serial_value()
    ensures { (m : Meaning) (v : View) (x : Fill)
        → IsSerial m
        → Run m v
        → x ∈ v.fills
        → m.slot x.place x.slot ≡ Some (Some x.value) }
{}

/// In every run of a job's program, each Result that was ever sent tells the outcome of the task
/// that its grant was sent with: its value, or none for one that is too deep. Does nothing.
pub fn every_result_is_its_tasks_outcome()
    ensures granted { (v : View) (x : Result)
        → ReachedInTables v
        → x ∈ v.results
        → Granted v.transfers x.grant }
    ensures outcome { (m : Meaning) (v : View) (x : Result) (t : Transfer)
        → IsSerial m
        → Run m v
        → x ∈ v.results
        → t ∈ v.transfers
        → t.grant ≡ x.grant
        → x.outcome ≡ m.value t.content.task.place }
{}

/// In every run of a job's program, the outcome that a house has recorded is the job's meaning; and
/// while the root record is there, none is recorded. Does nothing.
pub fn every_recorded_outcome_is_the_meaning()
    ensures meaning { (m : Meaning) (v : View) (o : Option ℤ)
        → IsSerial m
        → Run m v
        → v.stored ≡ Some o
        → o ≡ m.value [] }
    ensures program { (p : Program) (input : List ℤ) (v : View) (o : Option ℤ)
        → Run (program_meaning p input) v
        → v.stored ≡ Some o
        → outcome_of o ≡ meaning p input }
    ensures once { (v : View) (k : Grant)
        → ReachedInTables v
        → v.root ≡ Some k
        → v.stored ≡ None }
{}

/// An outcome that was recorded stays, whatever moves follow, also where the house is down and
/// opens again. Does nothing.
pub fn a_recorded_outcome_stays()
    ensures { (v w : View) (o : Option ℤ)
        → ReachedInTables v
        → Leads v w
        → v.stored ≡ Some o
        → w.stored ≡ Some o }
{}

/// Whatever moves were made, while a house is open the work of each open record of a live sub, and
/// that of the root record, can still come: from a live holder, from a thief that waits for it,
/// from one that departs and holds it frozen, or by a redo, since somebody is cut off to whom it
/// was sent, or the grant that has its record. Does nothing.
pub fn nothing_lost()
    ensures open_record { (v : View) (house : Roster) (i : ℕ) (g k : Grant) (s : Sub) (n : ℕ)
        → ReachedInTables v
        → v.house ≡ Some house
        → Live v i g s
        → s.content.granted n ≡ Some k
        → Comes v house g k }
    ensures root_record { (v : View) (house : Roster) (k : Grant)
        → ReachedInTables v
        → v.house ≡ Some house
        → v.root ≡ Some k
        → Comes v house k k }
{}

/// Where every wanted grant, the root record's and those of the records of its subs and so on, has
/// a live holder, one of these has a ready frame or has finished: so not all can wait for each
/// other. Does nothing.
pub fn some_holder_has_work()
    ensures { (v : View) (k : Grant)
        → ReachedInTables v
        → v.root ≡ Some k
        → ((g : Grant) → Wanted v g → HasHolder v g)
        → Working v }
{}

/// While a house is open, whom a kept roster shows dead is lost to the house, or who keeps it is.
/// Does nothing.
pub fn a_verdict_tells_of_a_loss()
    ensures { (v : View) (house r : Roster) (i judged : ℕ)
        → ReachedInTables v
        → v.house ≡ Some house
        → v.roster i ≡ Some r
        → r.status judged ≡ Dead
        → Lost v house judged ⊎ Lost v house i }
{}

/// The open house is that of the recorded epoch; and what names an epoch after the recorded one is
/// new: the name of its house, its rosters, and the Leaves that go to it. So a house that opens in
/// the next epoch takes over nothing. Does nothing.
pub fn a_later_epoch_is_new()
    ensures now { (v : View) (house : Roster)
        → ReachedInTables v
        → v.house ≡ Some house
        → house.epoch ≡ v.epoch }
    ensures name { (v : View) (epoch : ℕ)
        → ReachedInTables v
        → v.epoch < epoch
        → (house_of epoch ∈ v.used)
        → ⊥ }
    ensures rosters { (v : View) (r : Roster) (epoch : ℕ)
        → ReachedInTables v
        → v.epoch < epoch
        → r ∈ v.rosters
        → r.epoch < epoch }
    ensures leaves { (v : View) (l : Leave) (epoch : ℕ)
        → ReachedInTables v
        → v.epoch < epoch
        → l ∈ v.leaves
        → l.epoch < epoch }
{}

/// From each member that a roster lists, following its heirs leads to one who is live or dead, in
/// at most as many steps as it shows members left. So heirs go in no circle. Does nothing.
pub fn heirs_lead_somewhere()
    ensures { (v : View) (r : Roster) (i : ℕ)
        → ReachedInTables v
        → r ∈ v.rosters
        → (r.status i ≡ Unlisted → ⊥)
        → EndsIn r r.left i }
{}

/// While a house is open: a thief that a worker has answered, and that isn't live in its roster, is
/// lost to the house, or the worker is, or the thief said Leave. So one that departs needs to wait
/// for no thief but the live ones. Does nothing.
pub fn only_live_thieves_are_awaited()
    ensures { (v : View) (house r : Roster) (i thief : ℕ) (reply : Reply)
        → ReachedInTables v
        → v.house ≡ Some house
        → Works (v.mode i)
        → (v.mode i ≡ House → ⊥)
        → v.roster i ≡ Some r
        → v.kept i thief ≡ Some reply
        → (r.status thief ≡ Listed → ⊥)
        → (Lost v house thief ⊎ Lost v house i) ⊎ Said v.leaves thief }
{}

/// Moves lead to a view in which a kid was stolen, finished by its thief, and its value has filled
/// a slot of its parent. Does nothing.
pub fn a_stolen_kid_comes_back()
    ensures { (v : View) × (ReachedInTables v) × (x : Fill) × (x ∈ v.fills) × (v.root ≡ Some x.grant) }
{}

/// A run of a job, whose kid is stolen, ends with the outcome recorded; there are such jobs, with
/// the laws of the serial meaning. Does nothing.
pub fn a_run_ends_with_its_outcome()
    ensures { (m : Meaning)
        × (IsSerial m)
        × (v : View)
        × (Run m v)
        × (x : Fill)
        × (x ∈ v.fills)
        × (o : ℤ)
        × (v.stored ≡ Some (Some o)) }
{}

/// Moves lead to a view in which a sub that filled a slot has gone over to an heir, and the house
/// shows who held it as left. Does nothing.
pub fn a_departed_sub_lives_on()
    ensures { (v : View)
        × (ReachedInTables v)
        × (x : Fill)
        × (x ∈ v.fills)
        × (house : Roster)
        × (v.house ≡ Some house)
        × (leaver : ℕ)
        × (heir : ℕ)
        × (house.status leaver ≡ Left heir)
        × (s : Sub)
        × (Live v heir x.grant s) }
{}

/// Moves lead to a view in which a thief has failed, its grant is settled, and the frame that it
/// stole is ready again at the holder of the root. Does nothing.
pub fn a_lost_kid_is_redone()
    ensures { (v : View)
        × (ReachedInTables v)
        × (k : Grant)
        × (k ∈ v.settled)
        × (g : Grant)
        × (v.root ≡ Some g)
        × (i : ℕ)
        × (s : Sub)
        × (Live v i g s)
        × (ReadyInTables s.content) }
{}

/// No group of clauses holds of every view: for each there is a made-up one that breaks a clause of
/// it, so a list of moves never leads there. Does nothing.
pub fn no_group_holds_of_all_views()
    ensures names { (v : View) × (Names v → ⊥) }
    ensures fills { (v : View) × (Fills v → ⊥) }
    ensures leavers { (v : View) × (Leavers v → ⊥) }
    ensures homes { (v : View) × (Homes v → ⊥) }
    ensures rooted { (v : View) × (Rooted v → ⊥) }
    ensures kin { (v : View) × (Kin v → ⊥) }
    ensures requests { (v : View) × (Requests v → ⊥) }
    ensures cases { (v : View) × (Cases v → ⊥) }
    ensures rosters { (v : View) × (Rosters v → ⊥) }
    ensures known { (v : View) × (Known v → ⊥) }
    ensures later { (v : View) × (Later v → ⊥) }
    ensures tasks { (v : View) × (Tasks v → ⊥) }
    ensures epochs { (v : View) × (Epochs v → ⊥) }
    ensures heirs { (v : View) × (Heirs v → ⊥) }
    ensures values { (m : Meaning) → (v : View) × (Values m v → ⊥) }
{}
