ghost use Rattle.std.specs.Prelude.{◌≡◌, ℕ, List, ◌∷◌, Some};
ghost use Rattle.ids.specs.Names.{Grant};
ghost use Rattle.ids.specs.declared.outcome.Outcome.{Outcome};
ghost use Rattle.disk.specs.Device.{Device};
ghost use Rattle.serial_meaning.specs.Job.{JobOf, IsJob, meaning_of};
ghost use Rattle.event_script.specs.declared.event.Event.{Event};
ghost use Rattle.table_laws.specs.Tables.{◌∈◌};
ghost use Rattle.world_steps.specs.Answers.{StepResult};
ghost use Rattle.world_steps.specs.Runs.{CanBegin, Entry, Runs};
ghost use Rattle.world_steps.specs.Safe.{FilledOnce, Stays};
ghost use Rattle.world_steps.specs.Steps.{Step};
ghost use Rattle.world_steps.specs.World.{Holder, WorldOf, first_over, recorded};
ghost use Rattle.run_laws.specs.Sound.{IsSound, SoundSince};

/// The first world over a disk on which a run of a job can begin is sound: it is cut from a world
/// of whole packets that tables show. Each step, of whatever event, leads from such a world to such
/// a world: the tables after it come of those before by moves that may be made. So each world of a
/// run is one. Does nothing.
pub fn steps_are_moves()
    ensures first { (job : JobOf) (d : Device) → CanBegin job d → IsSound job (first_over d) }
    ensures step { (job : JobOf) (w : WorldOf) (e : Event) (o : StepResult) → (sound : IsSound job w)
        → IsJob job
        → Step job e w o
        → SoundSince job sound.tied.view o.world }
    ensures runs { (job : JobOf) (d : Device) (entries : List Entry) (worlds : List WorldOf) (v : WorldOf)
        → IsJob job
        → CanBegin job d
        → Runs job (first_over d) entries worlds
        → v ∈ worlds
        → IsSound job v }
{}

/// In a sound world no grant has two live holders, no slot was filled twice, and a recorded outcome
/// is the job's meaning. Does nothing.
pub fn sound_worlds_are_safe()
    ensures holder { (job : JobOf) (w : WorldOf) (g : Grant) (a b : ℕ) → IsSound job w → Holder w a g
        → Holder w b g → a ≡ b }
    ensures once { (job : JobOf) (w : WorldOf) → IsSound job w → FilledOnce w.fills }
    ensures outcome { (job : JobOf) (w : WorldOf) (o : Outcome) → IsSound job w → recorded w ≡ Some o
        → o ≡ meaning_of job }
{}

/// The same of each world of a run, whatever its events: packets that are lost, late, doubled or
/// out of order, nodes that start, leave and crash, a clearinghouse that is down, and Cuts of its
/// disk. And once an outcome is recorded, it is so in each later world whose clearinghouse is open.
/// Does nothing.
pub fn worlds_of_runs_are_safe()
    ensures holder { (job : JobOf) (d : Device) (entries : List Entry) (worlds : List WorldOf) (v : WorldOf)
        (g : Grant) (a b : ℕ)
        → IsJob job
        → CanBegin job d
        → Runs job (first_over d) entries worlds
        → v ∈ worlds
        → Holder v a g
        → Holder v b g
        → a ≡ b }
    ensures once { (job : JobOf) (d : Device) (entries : List Entry) (worlds : List WorldOf) (v : WorldOf)
        → IsJob job
        → CanBegin job d
        → Runs job (first_over d) entries worlds
        → v ∈ worlds
        → FilledOnce v.fills }
    ensures outcome { (job : JobOf) (d : Device) (entries : List Entry) (worlds : List WorldOf) (v : WorldOf)
        (o : Outcome)
        → IsJob job
        → CanBegin job d
        → Runs job (first_over d) entries worlds
        → v ∈ worlds
        → recorded v ≡ Some o
        → o ≡ meaning_of job }
    ensures stays { (job : JobOf) (d : Device) (entries : List Entry) (worlds : List WorldOf)
        → IsJob job
        → CanBegin job d
        → Runs job (first_over d) entries worlds
        → Stays (first_over d ∷ worlds) }
{}
