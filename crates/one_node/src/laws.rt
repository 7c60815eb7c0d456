ghost use Rattle.std.specs.Prelude.{◌≡◌, ℕ};
ghost use Rattle.ids.specs.declared.outcome.Outcome.{Outcome};
ghost use Rattle.serial_meaning.specs.Job.{JobOf};
ghost use Rattle.one_node.specs.Outcomes.{IsRunEnd, IsShort};

/// A run that has ended takes no further turn: so it has one outcome, after one number of turns,
/// and a run that needs more turns than some hasn't ended within these. Does nothing.
pub fn runs_end_once()
    ensures outcome { (job : JobOf) (m n : ℕ) (o u : Outcome)
        → IsRunEnd job m o
        → IsRunEnd job n u
        → o ≡ u }
    ensures turns { (job : JobOf) (m n : ℕ) (o u : Outcome)
        → (a : IsRunEnd job m o)
        → (b : IsRunEnd job n u)
        → a.n ≡ b.n }
    ensures short { (job : JobOf) (turns : ℕ) (o : Outcome)
        → IsRunEnd job turns o
        → IsShort job turns
        → ⊥ }
{}
