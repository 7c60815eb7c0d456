ghost use Rattle.std.specs.Prelude.{◌≡◌, ℕ, Option, Some};
ghost use Rattle.ids.specs.Names.{Grant};
ghost use Rattle.kind_check.specs.Turns.{turn_of};
ghost use Rattle.body_eval.specs.Done.{DoneOf};
ghost use Rattle.codec.specs.Table.{PacketOf};
ghost use Rattle.serial_meaning.specs.Job.{JobOf};
ghost use Rattle.agreement_laws.specs.Agreement.{AllSavedAgree};
ghost use Rattle.subcomputation.specs.Subs.{SubOf, sub_in};
ghost use Rattle.node_state.specs.Node.{NodeOf};
ghost use Rattle.node_steps.specs.Calls as calls;
ghost use Rattle.node_steps.specs.Cases.{Candidate, on_packet};
ghost use Rattle.node_steps.specs.declared.parts.Victim.{Victim};
ghost use Rattle.table_laws.specs.View.{View};
ghost use Rattle.table_laws.specs.Meaning.{Meaning};
ghost use Rattle.table_laws.specs.Program.{program_meaning};
ghost use Rattle.table_laws.specs.Runs.{Run};
ghost use Rattle.actor_laws.specs.node_moves.Shows.{PacketShown, NodeShown};
ghost use Rattle.actor_laws.specs.node_moves.Steps.{AnswerShown};

/// What a node answers to a packet that was sent, of whatever kind and wherever it stands, and to
/// its own calls, is shown by right moves of it. A departure and a Resend stand here as they would
/// be if each Offer went whole, however long its bytes are: `whole_offers` leads those that are cut
/// back to these. Does nothing.
pub fn what_a_node_does_is_moves()
    ensures packets { (m : Meaning) (job : JobOf) (v : View) (n : NodeOf) (choice : Option Candidate) (p : PacketOf)
        → Run m v
        → NodeShown v n
        → PacketShown v p
        → AnswerShown m job.number v n (on_packet job choice p n) }
    ensures exec { (job : JobOf) (v : View) (n : NodeOf) (d : DoneOf) (g : Grant) (f : ℕ)
        → Run (program_meaning job.program job.input) v
        → NodeShown v n
        → ((s : SubOf) → sub_in g n.subs ≡ Some s → AllSavedAgree job s.saved)
        → turn_of job.program d.thread d.numbers ≡ Some d.turn
        → AnswerShown (program_meaning job.program job.input) job.number v n (calls.exec job d g f n) }
    ensures exec_ready { (job : JobOf) (v : View) (n : NodeOf) (g : Grant) (f : ℕ)
        → Run (program_meaning job.program job.input) v
        → NodeShown v n
        → ((s : SubOf) → sub_in g n.subs ≡ Some s → AllSavedAgree job s.saved)
        → AnswerShown (program_meaning job.program job.input) job.number v n (calls.exec_ready job g f n) }
    ensures whole_ready { (job : JobOf) (v : View) (n : NodeOf) (most : ℕ) (g : Grant) (f : ℕ)
        → Run (program_meaning job.program job.input) v
        → NodeShown v n
        → ((s : SubOf) → sub_in g n.subs ≡ Some s → AllSavedAgree job s.saved)
        → AnswerShown (program_meaning job.program job.input) job.number v n (calls.whole_ready job most g f n) }
    ensures ask { (m : Meaning) (job : JobOf) (v : View) (n : NodeOf) (victim : Victim)
        → Run m v
        → NodeShown v n
        → AnswerShown m job.number v n (calls.ask job victim n) }
    ensures resend { (m : Meaning) (job : JobOf) (v : View) (n : NodeOf)
        → Run m v
        → NodeShown v n
        → AnswerShown m job.number v n (calls.whole_resend job n) }
    ensures depart { (m : Meaning) (job : JobOf) (v : View) (n : NodeOf) (heir : ℕ)
        → Run m v
        → NodeShown v n
        → AnswerShown m job.number v n (calls.whole_depart job heir n) }
{}
