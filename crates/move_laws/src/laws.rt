ghost use Rattle.std.specs.Prelude.{◌≡◌, ℕ, List, Some, None};
ghost use Rattle.ids.specs.Members.{resolve};
ghost use Rattle.ids.specs.declared.member.Member.{Member};
ghost use Rattle.table_laws.specs.View.{Dead, Roster, House, Works, View};
ghost use Rattle.table_laws.specs.Facts.{Resolves};
ghost use Rattle.table_laws.specs.Heirs.{AllEnd};
ghost use Rattle.table_laws.specs.Meaning.{Meaning};
ghost use Rattle.table_laws.specs.Acts.{ReachedInTables};
ghost use Rattle.table_laws.specs.Runs.{Run};
ghost use Rattle.move_laws.specs.Beside.{SameAt, SameHouse, KeepsSent, MovedBy};
ghost use Rattle.move_laws.specs.Listed.{ShowsMembers, DeadEnd, MarkedLost};

/// Moves of one worker leave what every other name has, and the clearinghouse, as they were. Does
/// nothing.
pub fn others_stay_as_they_were()
    ensures others { (m : Meaning) (i j : ℕ) (v w : View)
        → MovedBy m i v w
        → (j ≡ i → ⊥)
        → SameAt v w j }
    ensures house { (m : Meaning) (i : ℕ) (v w : View) → MovedBy m i v w → SameHouse v w }
    ensures names { (m : Meaning) (i : ℕ) (v w : View) → MovedBy m i v w → w.used ≡ v.used }
{}

/// What was sent stays sent, and a run goes on by moves of one worker. Does nothing.
pub fn what_was_sent_stays_sent()
    ensures keeps { (m : Meaning) (i : ℕ) (v w : View) → MovedBy m i v w → KeepsSent v w }
    ensures run { (m : Meaning) (i : ℕ) (v w : View) → Run m v → MovedBy m i v w → Run m w }
{}

/// Who has the work of a member by a packet's list of members has it by the roster of tables that
/// shows them; and where nobody has it, its heirs lead to one who is dead. Does nothing.
pub fn heirs_of_members_are_those_of_tables()
    ensures resolved { (r : Roster) (members : List Member) (i h : ℕ)
        → ShowsMembers r members
        → resolve members i ≡ Some h
        → Resolves r i h }
    ensures dead_end { (r : Roster) (members : List Member) (i : ℕ)
        → ShowsMembers r members
        → AllEnd r
        → resolve members i ≡ None
        → DeadEnd r i }
{}

/// Where a worker that is up keeps a roster that shows somebody dead, a move may mark one of the
/// two as lost. Does nothing.
pub fn a_verdict_can_be_marked_as_a_loss()
    ensures { (v : View) (i dead : ℕ) (r : Roster)
        → ReachedInTables v
        → Works (v.mode i)
        → (v.mode i ≡ House → ⊥)
        → v.roster i ≡ Some r
        → r.status dead ≡ Dead
        → MarkedLost v i dead }
{}
