ghost use Rattle.serial_meaning.specs.Job.{JobOf};
ghost use Rattle.world_steps.specs.Lost.{NothingLost};
ghost use Rattle.world_steps.specs.World.{WorldOf};
ghost use Rattle.run_laws.specs.Sound.{IsSound};

/// In a sound world the work of each wanted grant is somewhere, or is cut off. Does nothing.
pub fn nothing_is_lost()
    ensures { (job : JobOf) (w : WorldOf) → IsSound job w → NothingLost w }
{}
