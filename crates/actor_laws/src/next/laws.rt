ghost use Rattle.std.specs.Prelude.{◌≡◌, ℕ, true, None, Some};
ghost use Rattle.ids.specs.Names.{Grant};
ghost use Rattle.ids.specs.Ordered.{AreInOrder};
ghost use Rattle.codec.specs.declared.body.Offer.{Offer};
ghost use Rattle.codec.specs.declared.body.Roster.{Roster};
ghost use Rattle.codec.specs.declared.body.TaskResult.{TaskResult};
ghost use Rattle.departure.specs.Offers.{offered};
ghost use Rattle.serial_meaning.specs.Job.{JobOf, IsJob};
ghost use Rattle.sub_rules.specs.Content.{Ready, ready_in};
ghost use Rattle.subcomputation.specs.Subs.{SubOf, name_of_sub, sub_in};
ghost use Rattle.node_state.specs.Node.{NodeOf, hop_in};
ghost use Rattle.node_state.specs.declared.parts.State.TheVariants.{Member};
ghost use Rattle.node_steps.specs.Calls.{exec_ready};
ghost use Rattle.node_steps.specs.Cases.{is_above, returned};
ghost use Rattle.actor_laws.specs.actor_agreement.Values.{IsRight};
ghost use Rattle.actor_laws.specs.standing.Standing.{HaveOneHost};
ghost use Rattle.actor_laws.specs.next.Taking.{AnswerCarries, AnswerCloses, AreForeign, TakesOffer};

/// A member takes an Offer that agrees, whose hop is above the greatest one with which its grant
/// was taken there, where nothing of that grant is held and none of its records was minted or is
/// open there. Does nothing.
pub fn what_fits_is_taken()
    ensures { (job : JobOf) (r : Roster) (o : Offer) (n : NodeOf)
        → is_above o.hop (hop_in o.grant n.seen) ≡ true
        → sub_in o.grant n.subs ≡ None
        → AreInOrder name_of_sub n.subs
        → IsRight job (offered o).content
        → AreForeign n.incarnation n.subs (offered o).content
        → TakesOffer job r o n }
{}

/// Once a Result came to a member, none of its subcomputations has an open record of its grant.
/// Does nothing.
pub fn a_result_closes_its_record()
    ensures { (job : JobOf) (r : Roster) (b : TaskResult) (n : NodeOf)
        → AreInOrder name_of_sub n.subs
        → HaveOneHost n.subs
        → AnswerCloses b.grant (returned job r b n) }
{}

/// A ready frame of a member is carried out by one call: no frame of its number is there then, or
/// the numbers of frames are spent (E62). Does nothing.
pub fn a_ready_frame_is_carried_out()
    ensures { (job : JobOf) (r : Roster) (n : NodeOf) (g : Grant) (f : ℕ) (s : SubOf) (x : Ready)
        → IsJob job
        → n.state ≡ Member r
        → sub_in g n.subs ≡ Some s
        → IsRight job s.content
        → ready_in f s.content ≡ Some x
        → AnswerCarries g f (exec_ready job g f n) }
{}
