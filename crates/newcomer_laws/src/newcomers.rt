ghost use Rattle.std.specs.Prelude.{◌≡◌, ◌≤◌, ◌+◌, ◌<◌, ◌^◌, ℕ, ℤ, true, List, Some, None};
ghost use Rattle.ids.specs.declared.outcome.Outcome.TheVariants.{Value};
ghost use Rattle.disk.specs.Device.{Device};
ghost use Rattle.serial_meaning.specs.Job.{JobOf, IsJob, meaning_of};
ghost use Rattle.clearinghouse.specs.House.{HouseOf};
ghost use Rattle.clearinghouse.specs.declared.parts.RootGrant.{RootGrant};
ghost use Rattle.event_script.specs.declared.event.Event.{Event};
ghost use Rattle.event_script.specs.declared.event.Event.TheVariants.{AtHouse};
ghost use Rattle.event_script.specs.declared.event.HouseEvent.TheVariants.{Restart, Tick};
ghost use Rattle.table_laws.specs.Tables.{◌∈◌};
ghost use Rattle.world_steps.specs.Answers.{StepResult};
ghost use Rattle.world_steps.specs.Nodes.{can_start};
ghost use Rattle.world_steps.specs.Runs.{CanBegin, Entry, Runs};
ghost use Rattle.world_steps.specs.Steps.{CarriedOut};
ghost use Rattle.world_steps.specs.World.{WorldOf, first_over, open_house, recorded};
ghost use Rattle.run_laws.specs.Next.{IsSilent};
ghost use Rattle.newcomer_laws.specs.Newcomers.{AllCarriedOut, CanCome, IsReady, newcomers, turns_of};

/// In a world of a run whose clearinghouse is open, has no outcome and doesn't grant the root,
/// where a start, a place on its list, a grant and a commit are left (clause `now`): once the eight
/// events of a worker that is new there are carried out, one after another, the job's value is
/// recorded. So it is where one event of whatever kind led there (clause `later`). Does nothing.
pub fn a_newcomer_alone_finishes()
    ensures now { (job : JobOf) (d : Device) (entries : List Entry) (worlds : List WorldOf) (w : WorldOf)
        (a word most : ℕ) (v : ℤ) (last : WorldOf)
        → IsJob job
        → CanBegin job d
        → Runs job (first_over d) entries worlds
        → w ∈ worlds
        → (ready : IsReady w a word)
        → meaning_of job ≡ Value v
        → turns_of job ≤ most
        → AllCarriedOut job (newcomers a word most ready.house w) w last
        → recorded last ≡ Some (Value v) }
    ensures later { (job : JobOf) (d : Device) (entries : List Entry) (worlds : List WorldOf) (w : WorldOf)
        (e : Event) (o : StepResult) (a word most : ℕ) (v : ℤ) (last : WorldOf)
        → IsJob job
        → CanBegin job d
        → Runs job (first_over d) entries worlds
        → w ∈ worlds
        → CarriedOut job e w o
        → (ready : IsReady o.world a word)
        → meaning_of job ≡ Value v
        → turns_of job ≤ most
        → AllCarriedOut job (newcomers a word most ready.house o.world) o.world last
        → recorded last ≡ Some (Value v) }
{}

/// Where a newcomer can do so: behind a moment at which the holder of the root's grant was silent
/// for too long (clause `moment`), and where a clearinghouse that wasn't open was opened, and has
/// no outcome (clause `opening`). Does nothing.
pub fn a_newcomer_can_come()
    ensures moment { (job : JobOf) (d : Device) (entries : List Entry) (worlds : List WorldOf) (w : WorldOf)
        (h : HouseOf) (root : RootGrant) (now a word : ℕ) (o : StepResult)
        → IsJob job
        → CanBegin job d
        → Runs job (first_over d) entries worlds
        → w ∈ worlds
        → open_house w.house ≡ Some h
        → h.root ≡ Some root
        → IsSilent h root.holder now
        → h.moment < now
        → h.outcome ≡ None
        → h.minted + 1 < 2 ^ 64
        → h.sequence + 1 < 2 ^ 64
        → CanCome w h a word
        → CarriedOut job (AtHouse (Tick now)) w o
        → IsReady o.world a word }
    ensures opening { (job : JobOf) (w : WorldOf) (h : HouseOf) (a word : ℕ) (o : StepResult)
        → open_house w.house ≡ None
        → can_start a word w ≡ true
        → CarriedOut job (AtHouse Restart) w o
        → open_house o.world.house ≡ Some h
        → h.outcome ≡ None
        → h.sequence + 1 < 2 ^ 64
        → IsReady o.world a word }
{}
