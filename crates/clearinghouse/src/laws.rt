ghost use Rattle.std.specs.Prelude.{◌≡◌, ◌<◌, ◌≤◌, ◌^◌, ℕ, List, length, [], None, Err};
ghost use Rattle.ids.specs.Members.{status_in};
ghost use Rattle.codec.specs.Table.{PacketOf};
ghost use Rattle.serial_meaning.specs.Job.{JobOf};
ghost use Rattle.clearinghouse.specs.Calls.{on_bytes, outcome, passes, state_after, tick};
ghost use Rattle.clearinghouse.specs.Cases.{on_packet};
ghost use Rattle.clearinghouse.specs.Errors.{error_of_stop};
ghost use Rattle.clearinghouse.specs.House.{HouseOf, Kept, Stopped, members_of, opened};
ghost use Rattle.clearinghouse.specs.Laws.{IsDue, IsHouse, KeepsHouse, join};
ghost use Rattle.clearinghouse.specs.Moves.{lists, tells};
ghost use Rattle.clearinghouse.specs.Steps.{HouseStepOf, Refused, Does, sends};
ghost use Rattle.clearinghouse.specs.declared.error.HouseError.{HouseError};
ghost use Rattle.clearinghouse.specs.declared.parts.Stop.{Stop as StopOf};

/// By each packet and each moment an outcome stays, what changes of what the checkpoint keeps is
/// committed, and the roster stays one that can be told.
pub fn each_step()
    ensures opened { (limit : ℕ) (k : Kept) → IsHouse (opened limit k) }
    ensures packet { (job : JobOf) (p : PacketOf) (h : HouseOf) (s : HouseStepOf) → on_packet job p h ≡ Does s
        → KeepsHouse h s }
    ensures moment { (job : JobOf) (now : ℕ) (h : HouseOf) → KeepsHouse h (passes job now h) }
{}

/// A packet that is one is refused at a limit alone: E80 where 4,096 members are listed, E62 where
/// the grants or the commits are spent.
pub fn refusals()
    ensures { (job : JobOf) (p : PacketOf) (h : HouseOf) (e : HouseError) → on_packet job p h ≡ Refused e → IsDue h e }
{}

/// The versions of a roster are never spent.
pub fn few_versions()
    ensures { (h : HouseOf) → IsHouse h → h.version < 2 ^ 64 }
{}

/// A worker that isn't listed is, where fewer than 4,096 are; else it is refused by E80.
pub fn full_roster()
    ensures room { (job : JobOf) (i : ℕ) (h : HouseOf) → status_in i (members_of h) ≡ None
        → length h.workers < 4096 → on_packet job (join job i) h ≡ Does (tells job i (lists i h)) }
    ensures full { (job : JobOf) (i : ℕ) (h : HouseOf) → status_in i (members_of h) ≡ None
        → 4096 ≤ length h.workers → on_packet job (join job i) h ≡ Refused HouseError.RosterFull }
{}

/// A moment that is no later than the last one changes nothing.
pub fn late_moment()
    ensures { (job : JobOf) (now : ℕ) (h : HouseOf) → now ≤ h.moment → passes job now h ≡ sends [] h }
{}

/// A stopped clearinghouse refuses each call by what stopped it, and stays so.
pub fn stopped()
    ensures bytes { (job : JobOf) (bytes : List ℕ) (s : StopOf)
        → on_bytes job bytes (Stopped s) ≡ Refused (error_of_stop s) }
    ensures moment { (job : JobOf) (now : ℕ) (s : StopOf) → tick job now (Stopped s) ≡ Refused (error_of_stop s) }
    ensures outcome { (s : StopOf) → outcome (Stopped s) ≡ Err (error_of_stop s) }
    ensures stays { (s : StopOf) → state_after (Refused (error_of_stop s)) (Stopped s) ≡ Stopped s }
{}
