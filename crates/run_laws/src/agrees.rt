ghost use Rattle.std.specs.Prelude.{◌≡◌, ℕ, Some, slice_get};
ghost use Rattle.serial_meaning.specs.Job.{JobOf};
ghost use Rattle.agreement_laws.specs.Agreement.{IsReceived};
ghost use Rattle.node_steps.specs.declared.parts.Fill.{Fill};
ghost use Rattle.world_steps.specs.Agrees.{Agrees};
ghost use Rattle.world_steps.specs.Safe.{filling_of};
ghost use Rattle.world_steps.specs.World.{WorldOf};
ghost use Rattle.run_laws.specs.Sound.{IsSound};

/// A sound world agrees with the serial meaning: its packets, Results and Pieces among them, what
/// is held and not frozen, and the parts of Offers that nodes keep; and each value that was put
/// into a slot is the one that the slot receives. Does nothing.
pub fn worlds_agree()
    ensures agrees { (job : JobOf) (w : WorldOf) → IsSound job w → Agrees job w }
    ensures values { (job : JobOf) (w : WorldOf) (i : ℕ) (f : Fill)
        → IsSound job w
        → slice_get w.fills i ≡ Some f
        → IsReceived job (filling_of f) }
{}
