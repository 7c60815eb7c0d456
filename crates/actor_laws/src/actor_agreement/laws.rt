ghost use Rattle.std.specs.Prelude.{ℕ, Option};
ghost use Rattle.ids.specs.Names.{Grant};
ghost use Rattle.codec.specs.Table.{PacketOf};
ghost use Rattle.serial_meaning.specs.Job.{JobOf, IsJob};
ghost use Rattle.node_state.specs.Node.{NodeOf};
ghost use Rattle.node_steps.specs.Calls as calls;
ghost use Rattle.node_steps.specs.Cases.{Candidate, on_packet};
ghost use Rattle.node_steps.specs.declared.parts.Victim.{Victim};
ghost use Rattle.clearinghouse.specs.Calls as house_calls;
ghost use Rattle.clearinghouse.specs.Cases as house_cases;
ghost use Rattle.clearinghouse.specs.House.{HouseOf};
ghost use Rattle.actor_laws.specs.actor_agreement.Values.{AnswerIsRight, HouseAnswerIsRight, HouseIsRight, HouseStepIsRight, NextGrantIsFresh, BodyMayCome, NodeIsRight, SaveIsRight, StepIsRight};

/// A node that agrees does so after each packet that agrees, of whatever kind and wherever it
/// stands, where nothing that it holds has a record of the next grant that it mints; and after its
/// own calls; and so does what it sends and puts into slots, and a node that starts. A departure
/// and a Resend stand here as they would be if each Offer went whole, however long its bytes are.
/// Does nothing.
pub fn what_a_node_does_agrees()
    ensures packets { (job : JobOf) (n : NodeOf) (choice : Option Candidate) (p : PacketOf)
        → NodeIsRight job n
        → NextGrantIsFresh n
        → BodyMayCome job n p.body
        → AnswerIsRight job (on_packet job choice p n) }
    ensures exec_ready { (job : JobOf) (n : NodeOf) (g : Grant) (f : ℕ)
        → IsJob job
        → NodeIsRight job n
        → AnswerIsRight job (calls.exec_ready job g f n) }
    ensures whole_ready { (job : JobOf) (n : NodeOf) (most : ℕ) (g : Grant) (f : ℕ)
        → IsJob job
        → NodeIsRight job n
        → AnswerIsRight job (calls.whole_ready job most g f n) }
    ensures ask { (job : JobOf) (n : NodeOf) (victim : Victim) → NodeIsRight job n
        → AnswerIsRight job (calls.ask job victim n) }
    ensures resend { (job : JobOf) (n : NodeOf) → NodeIsRight job n → AnswerIsRight job (calls.whole_resend job n) }
    ensures depart { (job : JobOf) (n : NodeOf) (heir : ℕ) → NodeIsRight job n
        → AnswerIsRight job (calls.whole_depart job heir n) }
    ensures start { (job : JobOf) (word : ℕ) → StepIsRight job (calls.start job word) }
{}

/// What an open clearinghouse sends agrees, whatever packet or moment comes, where its last answers
/// and the values that are saved do, and a value that comes to be saved; and these do after it.
/// Does nothing.
pub fn what_the_house_does_agrees()
    ensures packets { (job : JobOf) (h : HouseOf) (p : PacketOf)
        → IsJob job
        → HouseIsRight job h
        → SaveIsRight job p.body
        → HouseAnswerIsRight job (house_cases.on_packet job p h) }
    ensures moments { (job : JobOf) (h : HouseOf) (now : ℕ)
        → HouseIsRight job h
        → HouseStepIsRight job (house_calls.passes job now h) }
{}
