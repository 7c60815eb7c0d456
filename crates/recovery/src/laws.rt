ghost use Rattle.std.specs.Prelude.{◌≡◌, List, [], ◌∷◌, None, Some};
ghost use Rattle.ids.specs.Names.{Grant};
ghost use Rattle.ids.specs.declared.member.Member.{Member};
ghost use Rattle.subcomputation.specs.Recovering.{recovered};
ghost use Rattle.subcomputation.specs.Subs.{SubOf, grants_of_subs, put_sub, sub_in};
ghost use Rattle.recovery.specs.Told.{AreForeign, AreWhole, IsLeft, beside};

/// Of each subcomputation that a recovery leaves is told which frames became ready in it; it was
/// held before, under its grant, has no new record, and fits what it fitted. Does nothing.
pub fn law_recoveries_are_told()
    ensures { (members : List Member) (subs : List SubOf)
        → AreWhole subs
        → (g : Grant) (s : SubOf)
        → sub_in g (recovered members (grants_of_subs subs) subs).subs ≡ Some s
        → IsLeft g subs s (recovered members (grants_of_subs subs) subs).again }
{}

/// A subcomputation whose records nobody else has recovers among others as it does alone. Does
/// nothing.
pub fn recovery_alone_is_recovery_beside()
    ensures { (members : List Member) (s : SubOf) (subs : List SubOf)
        → sub_in s.grant subs ≡ None
        → AreForeign s.content.records subs
        → recovered members (s.grant ∷ []) (put_sub s subs) ≡ beside (recovered members (s.grant ∷ []) (s ∷ [])) subs }
{}
