ghost use Rattle.std.specs.Prelude.{◌≡◌, ◌<◌, ◌≤◌, ℕ, ℤ, List, Some};
ghost use Rattle.std.specs.List.{AllByRecursion};
ghost use Rattle.task_tree.specs.declared.tree.Program.{Program};
ghost use Rattle.task_tree.specs.Equal.{EqualProgram};
ghost use Rattle.kind_check.specs.declared.turn.Slot.{Slot};
ghost use Rattle.kind_check.specs.declared.turn.Turn.TheVariants.{Joins};
ghost use Rattle.kind_check.specs.Turns.{turn_of};
ghost use Rattle.kind_check.specs.Total.{HoleFits, IsAccepted, Takes};
ghost use Rattle.kind_check.specs.Faults.{faults};

/// Programs that are the same but for where their parts lie in memory have the same faults, and
/// their threads the same turns. Does nothing.
pub fn equal_programs_are_alike()
    ensures faults { (p q : Program) → EqualProgram p q → faults p ≡ faults q }
    ensures turns { (p q : Program) → EqualProgram p q → (t : ℕ) (numbers : List ℤ)
        → turn_of p t numbers ≡ turn_of q t numbers }
    ensures takes { (p q : Program) → EqualProgram p q → (t count : ℕ) → Takes p t count → Takes q t count }
{}

/// In an accepted program a thread's number is below 64, and it takes at most 8 numbers. Does
/// nothing.
pub fn accepted_threads_are_few()
    ensures { (p : Program) (t count : ℕ) → IsAccepted p → Takes p t count → (t < 64) × (count ≤ 8) }
{}

/// The holes of a join are numbered from 1 to 8. Does nothing.
pub fn joins_have_few_holes()
    ensures { (p : Program) (t : ℕ) (numbers : List ℤ) (s : ℕ) (slots : List Slot)
        → turn_of p t numbers ≡ Some (Joins s slots) → AllByRecursion HoleFits slots }
{}
