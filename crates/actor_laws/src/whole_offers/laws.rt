ghost use Rattle.std.specs.Prelude.{◌≡◌, ◌++◌, ◌⊎◌, ℕ, List, Option};
ghost use Rattle.ids.specs.Names.{Grant};
ghost use Rattle.body_eval.specs.Done.{DoneOf};
ghost use Rattle.codec.specs.Pieces.{cut_all};
ghost use Rattle.codec.specs.Table.{PacketOf};
ghost use Rattle.codec.specs.declared.body.Body.TheVariants as body;
ghost use Rattle.codec.specs.declared.body.Piece.{Piece};
ghost use Rattle.serial_meaning.specs.Job.{JobOf};
ghost use Rattle.node_state.specs.Node.{NodeOf, starting};
ghost use Rattle.node_steps.specs.Calls as calls;
ghost use Rattle.node_steps.specs.Cases.{Candidate, on_packet};
ghost use Rattle.node_steps.specs.declared.parts.Victim.{Victim};
ghost use Rattle.table_laws.specs.Meaning.{Meaning};
ghost use Rattle.table_laws.specs.Runs.{Run};
ghost use Rattle.table_laws.specs.Tables.{◌∈◌};
ghost use Rattle.table_laws.specs.View.{View};
ghost use Rattle.actor_laws.specs.node_moves.Shows.{NodeShown};
ghost use Rattle.actor_laws.specs.node_moves.Steps.{AllShown, AnswerShown};
ghost use Rattle.actor_laws.specs.actor_agreement.Values.{AllRight, AnswerIsRight, NodeIsRight};
ghost use Rattle.actor_laws.specs.whole_offers.Kept.{AnswerKept, NodeKept};
ghost use Rattle.actor_laws.specs.whole_offers.Plain.{ArePlain, IsPlainNode};
ghost use Rattle.actor_laws.specs.whole_offers.Whole.{IsPieceOf, OneOffer, Went, cut_answer};

/// What goes over the wire is one of the whole packets or a piece of one; of each whole packet it
/// goes, or its first piece; and packets that are no Offers are not cut. Does nothing.
pub fn what_goes_is_whole()
    ensures arrives { (wholes : List PacketOf) (p : PacketOf) → p ∈ cut_all wholes → (p ∈ wholes) ⊎ IsPieceOf wholes p }
    ensures goes { (wholes : List PacketOf) (p : PacketOf) → p ∈ wholes → Went (cut_all wholes) p }
    ensures uncut { (packets : List PacketOf) → ArePlain packets → cut_all packets ≡ packets }
{}

/// Whatever comes over the wire to a node that is shown, what it answers is shown by right moves of
/// it, where the whole packets are shown as sent and each grant and hop has one Offer among them.
/// Does nothing.
pub fn wires_lead_to_moves()
    ensures { (m : Meaning) (job : JobOf) (v : View) (n : NodeOf) (wholes : List PacketOf) (choice : Option Candidate)
        (p : PacketOf)
        → Run m v
        → NodeShown v n
        → AllShown v wholes
        → OneOffer wholes
        → NodeKept job.number wholes n
        → p ∈ cut_all wholes
        → AnswerShown m job.number v n (on_packet job choice p n) }
{}

/// A Piece that comes over the wire to a node that agrees leads to what agrees, where the whole
/// packets agree. Does nothing.
pub fn wires_agree()
    ensures { (job : JobOf) (v : View) (n : NodeOf) (wholes : List PacketOf) (choice : Option Candidate) (p : PacketOf)
        (b : Piece)
        → AllShown v wholes
        → OneOffer wholes
        → NodeKept job.number wholes n
        → NodeIsRight job n
        → AllRight job wholes
        → p ∈ cut_all wholes
        → p.body ≡ body.Piece b
        → AnswerIsRight job (on_packet job choice p n) }
{}

/// Each grant and hop has one Offer after each step of a node that is shown, with what it sends;
/// and what is kept of it stays so, and of all others, whatever is sent besides; a node that starts
/// begins so. Does nothing.
pub fn offers_stay_one()
    ensures packets { (m : Meaning) (job : JobOf) (v : View) (n : NodeOf) (wholes : List PacketOf) (choice : Option Candidate)
        (p : PacketOf)
        → Run m v
        → NodeShown v n
        → OneOffer wholes
        → NodeKept job.number wholes n
        → p ∈ cut_all wholes
        → AnswerKept job.number wholes (on_packet job choice p n) }
    ensures exec { (m : Meaning) (job : JobOf) (v : View) (n : NodeOf) (wholes : List PacketOf) (d : DoneOf) (g : Grant)
        (f : ℕ)
        → Run m v
        → NodeShown v n
        → OneOffer wholes
        → NodeKept job.number wholes n
        → AnswerKept job.number wholes (calls.exec job d g f n) }
    ensures exec_ready { (m : Meaning) (job : JobOf) (v : View) (n : NodeOf) (wholes : List PacketOf) (g : Grant) (f : ℕ)
        → Run m v
        → NodeShown v n
        → OneOffer wholes
        → NodeKept job.number wholes n
        → AnswerKept job.number wholes (calls.exec_ready job g f n) }
    ensures whole_ready { (m : Meaning) (job : JobOf) (v : View) (n : NodeOf) (wholes : List PacketOf) (most : ℕ) (g : Grant)
        (f : ℕ)
        → Run m v
        → NodeShown v n
        → OneOffer wholes
        → NodeKept job.number wholes n
        → AnswerKept job.number wholes (calls.whole_ready job most g f n) }
    ensures ask { (m : Meaning) (job : JobOf) (v : View) (n : NodeOf) (wholes : List PacketOf) (victim : Victim)
        → Run m v
        → NodeShown v n
        → OneOffer wholes
        → NodeKept job.number wholes n
        → AnswerKept job.number wholes (calls.ask job victim n) }
    ensures resend { (m : Meaning) (job : JobOf) (v : View) (n : NodeOf) (wholes : List PacketOf)
        → Run m v
        → NodeShown v n
        → OneOffer wholes
        → NodeKept job.number wholes n
        → AnswerKept job.number wholes (calls.whole_resend job n) }
    ensures depart { (m : Meaning) (job : JobOf) (v : View) (n : NodeOf) (wholes : List PacketOf) (heir : ℕ)
        → Run m v
        → NodeShown v n
        → AllShown v wholes
        → OneOffer wholes
        → NodeKept job.number wholes n
        → AnswerKept job.number wholes (calls.whole_depart job heir n) }
    ensures start { (job : ℕ) (wholes : List PacketOf) (word : ℕ) → NodeKept job wholes (starting word) }
    ensures others { (job : ℕ) (wholes more : List PacketOf) (n : NodeOf) → NodeKept job wholes n
        → NodeKept job (wholes ++ more) n }
{}

/// What goes over the wire of what a node answers: large Offers go in their pieces, and all else as
/// it is, where its last answers are no Offers and it waits for nothing while it leaves. Does
/// nothing.
pub fn what_is_sent_goes_cut()
    ensures packets { (job : JobOf) (n : NodeOf) (choice : Option Candidate) (p : PacketOf) → IsPlainNode n
        → cut_answer (on_packet job choice p n) ≡ on_packet job choice p n }
    ensures exec_ready { (job : JobOf) (n : NodeOf) (g : Grant) (f : ℕ) → IsPlainNode n
        → cut_answer (calls.exec_ready job g f n) ≡ calls.exec_ready job g f n }
    ensures whole_ready { (job : JobOf) (n : NodeOf) (most : ℕ) (g : Grant) (f : ℕ) → IsPlainNode n
        → cut_answer (calls.whole_ready job most g f n) ≡ calls.whole_ready job most g f n }
    ensures ask { (job : JobOf) (n : NodeOf) (victim : Victim) → IsPlainNode n
        → cut_answer (calls.ask job victim n) ≡ calls.ask job victim n }
    ensures depart { (job : JobOf) (n : NodeOf) (heir : ℕ) → IsPlainNode n
        → cut_answer (calls.whole_depart job heir n) ≡ calls.depart job heir n }
    ensures resend { (job : JobOf) (n : NodeOf) → IsPlainNode n
        → cut_answer (calls.whole_resend job n) ≡ calls.resend job n }
{}
