ghost use Rattle.std.specs.Prelude.{ℕ};
ghost use Rattle.codec.specs.Table.{PacketOf};
ghost use Rattle.serial_meaning.specs.Job.{JobOf};
ghost use Rattle.clearinghouse.specs.Calls.{passes};
ghost use Rattle.clearinghouse.specs.Cases.{on_packet};
ghost use Rattle.clearinghouse.specs.House.{HouseOf};
ghost use Rattle.clearinghouse.specs.Laws.{IsHouse};
ghost use Rattle.table_laws.specs.View.{View};
ghost use Rattle.table_laws.specs.Runs.{Run};
ghost use Rattle.actor_laws.specs.node_moves.Shows.{PacketShown};
ghost use Rattle.actor_laws.specs.house_moves.Shows.{OpenShown};
ghost use Rattle.actor_laws.specs.house_moves.Steps.{HouseStepShown, HouseAnswerShown, tables_meaning};

/// What an open clearinghouse answers to a packet that was sent, and what it does at a moment, is
/// shown by right moves of it. Does nothing.
pub fn what_the_house_does_is_moves()
    ensures packets { (job : JobOf) (v : View) (h : HouseOf) (p : PacketOf)
        → Run (tables_meaning job) v
        → OpenShown v h
        → IsHouse h
        → PacketShown v p
        → HouseAnswerShown job v h (on_packet job p h) }
    ensures moments { (job : JobOf) (v : View) (h : HouseOf) (now : ℕ)
        → Run (tables_meaning job) v
        → OpenShown v h
        → HouseStepShown job v h (passes job now h) }
{}
