//! What a node does.
ghost use Rattle.std.specs.Prelude.{ℕ, List, Option};
ghost use Rattle.ids.specs.Names.{Grant};
ghost use Rattle.ids.specs.Ordered.{AreInOrder};
ghost use Rattle.ids.specs.declared.member.Member.{Member as Listed};
ghost use Rattle.body_eval.specs.Done.{DoneOf};
ghost use Rattle.codec.specs.Table.{PacketOf};
ghost use Rattle.serial_meaning.specs.Job.{JobOf};
ghost use Rattle.subcomputation.specs.Subs.{SubOf, grants_of_subs, name_of_sub};
ghost use Rattle.subcomputation.specs.Recovering.{recovered};
ghost use Rattle.node_state.specs.Node.{NodeOf};
ghost use Rattle.node_steps.specs.Calls as calls;
ghost use Rattle.node_steps.specs.Cases.{Candidate, on_packet};
ghost use Rattle.node_steps.specs.declared.parts.Victim.{Victim};
ghost use Rattle.actor_laws.specs.standing.Lasting.{AnswerLasts, NodeLasts};
ghost use Rattle.actor_laws.specs.standing.Standing.{AllStand, AnswerStands, BodyIsApart, HaveOneHost, NodeStands};

/// No member waits for somebody whom its own roster shows gone: so it is after each packet, of
/// whatever kind and wherever the node stands, after each of its own calls, and when it starts.
/// Does nothing.
pub fn what_a_node_does_stands()
    ensures recovered { (members : List Listed) (subs : List SubOf)
        → AreInOrder name_of_sub subs
        → HaveOneHost subs
        → AllStand members (recovered members (grants_of_subs subs) subs).subs }
    ensures packets { (job : JobOf) (n : NodeOf) (choice : Option Candidate) (p : PacketOf)
        → NodeStands n
        → AreInOrder name_of_sub n.subs
        → BodyIsApart job n p.body
        → AnswerStands (on_packet job choice p n) }
    ensures exec { (job : JobOf) (n : NodeOf) (d : DoneOf) (g : Grant) (f : ℕ)
        → NodeStands n
        → AnswerStands (calls.exec job d g f n) }
    ensures exec_ready { (job : JobOf) (n : NodeOf) (g : Grant) (f : ℕ)
        → NodeStands n
        → AnswerStands (calls.exec_ready job g f n) }
    ensures whole_ready { (job : JobOf) (n : NodeOf) (most : ℕ) (g : Grant) (f : ℕ)
        → NodeStands n
        → AnswerStands (calls.whole_ready job most g f n) }
    ensures ask { (job : JobOf) (n : NodeOf) (victim : Victim)
        → NodeStands n
        → AnswerStands (calls.ask job victim n) }
    ensures resend { (job : JobOf) (n : NodeOf) → NodeStands n → AnswerStands (calls.resend job n) }
    ensures depart { (job : JobOf) (n : NodeOf) (heir : ℕ) → NodeStands n → AnswerStands (calls.depart job heir n) }
    ensures start { (job : JobOf) (word : ℕ) → NodeStands (calls.start job word).after }
{}

/// Who goes on is live by its own roster, and a leaver that holds something has a live heir: so it
/// is after each packet, after each of its own calls, and when it starts. Does nothing.
pub fn what_a_node_does_lasts()
    ensures packets { (job : JobOf) (n : NodeOf) (choice : Option Candidate) (p : PacketOf)
        → NodeLasts n
        → AnswerLasts (on_packet job choice p n) }
    ensures exec { (job : JobOf) (n : NodeOf) (d : DoneOf) (g : Grant) (f : ℕ)
        → NodeLasts n
        → AnswerLasts (calls.exec job d g f n) }
    ensures exec_ready { (job : JobOf) (n : NodeOf) (g : Grant) (f : ℕ)
        → NodeLasts n
        → AnswerLasts (calls.exec_ready job g f n) }
    ensures whole_ready { (job : JobOf) (n : NodeOf) (most : ℕ) (g : Grant) (f : ℕ)
        → NodeLasts n
        → AnswerLasts (calls.whole_ready job most g f n) }
    ensures ask { (job : JobOf) (n : NodeOf) (victim : Victim)
        → NodeLasts n
        → AnswerLasts (calls.ask job victim n) }
    ensures resend { (job : JobOf) (n : NodeOf) → NodeLasts n → AnswerLasts (calls.resend job n) }
    ensures depart { (job : JobOf) (n : NodeOf) (heir : ℕ) → NodeLasts n → AnswerLasts (calls.depart job heir n) }
    ensures start { (job : JobOf) (word : ℕ) → NodeLasts (calls.start job word).after }
{}
