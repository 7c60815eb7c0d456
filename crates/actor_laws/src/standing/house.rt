//! What the clearinghouse does.
ghost use Rattle.std.specs.Prelude.{ℕ};
ghost use Rattle.codec.specs.Table.{PacketOf};
ghost use Rattle.serial_meaning.specs.Job.{JobOf};
ghost use Rattle.clearinghouse.specs.Calls.{open_over, passes};
ghost use Rattle.clearinghouse.specs.Cases.{on_packet};
ghost use Rattle.clearinghouse.specs.House.{HouseOf, Kept};
ghost use Rattle.actor_laws.specs.standing.Root.{HouseAnswerStands, RootStands};

/// By its own members the holder of the root's grant is live: so it is after each packet and each
/// moment, and when the clearinghouse opens. Does nothing.
pub fn what_the_clearinghouse_does_stands()
    ensures packets { (job : JobOf) (h : HouseOf) (p : PacketOf) → RootStands h → HouseAnswerStands (on_packet job p h) }
    ensures moments { (job : JobOf) (h : HouseOf) (now : ℕ) → RootStands h → RootStands (passes job now h).after }
    ensures opening { (limit : ℕ) (k : Kept) → HouseAnswerStands (open_over limit k) }
{}
