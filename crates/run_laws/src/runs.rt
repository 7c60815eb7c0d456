ghost use Rattle.std.specs.Prelude.{◌≡◌, List, ◌∷◌};
ghost use Rattle.table_laws.specs.Tables.{◌∈◌};
ghost use Rattle.disk.specs.Device.{Device, Unarmed};
ghost use Rattle.serial_meaning.specs.Job.{JobOf, IsJob};
ghost use Rattle.world_steps.specs.Runs.{CanBegin, Entry, Runs};
ghost use Rattle.world_steps.specs.World.{WorldOf, first_over};
ghost use Rattle.run_laws.specs.Openings.{OpeningFinds};
ghost use Rattle.run_laws.specs.Promises.{AllSafe};

/// Every run of a job from a disk on which it can begin is safe, and each of its worlds agrees with
/// the serial meaning and has lost nothing: whatever packets are lost, late, doubled or out of
/// order, whichever nodes start, leave and crash, whenever the clearinghouse is down, and wherever
/// its disk is cut off. Does nothing.
pub fn runs_are_safe()
    ensures { (job : JobOf) (d : Device) (entries : List Entry) (worlds : List WorldOf)
        → IsJob job
        → CanBegin job d
        → Runs job (first_over d) entries worlds
        → AllSafe job (first_over d ∷ worlds) }
{}

/// No opening of such a run is refused because of what its disk keeps: it is never that of another
/// job (E70), no store at all (E71), or a store of another version (E73). So it is of a Cut of an
/// opening. Does nothing.
pub fn openings_find_their_store()
    ensures { (job : JobOf) (d : Device) (entries : List Entry) (worlds : List WorldOf) (x : Entry)
        → IsJob job
        → CanBegin job d
        → Runs job (first_over d) entries worlds
        → x ∈ entries
        → OpeningFinds x.event x.answer }
{}

/// What a run leaves of its disk, wherever it ends, is a disk on which another run of the job can
/// begin, once it isn't armed. Does nothing.
pub fn disks_go_on()
    ensures { (job : JobOf) (d : Device) (entries : List Entry) (worlds : List WorldOf) (v : WorldOf)
        → IsJob job
        → CanBegin job d
        → Runs job (first_over d) entries worlds
        → v ∈ worlds
        → v.disk.arming ≡ Unarmed
        → CanBegin job v.disk }
{}
