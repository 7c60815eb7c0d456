ghost use Rattle.disk.specs.Device.{Device};
ghost use Rattle.event_script.specs.declared.event.Event.{Event};
ghost use Rattle.serial_meaning.specs.Job.{JobOf};
ghost use Rattle.world_steps.specs.Answers.{StepResult};
ghost use Rattle.world_steps.specs.Steps.{Step};
ghost use Rattle.world_steps.specs.World.{WorldOf, first_over};
ghost use Rattle.run_laws.specs.Sound.{IsSound};
ghost use Rattle.run_laws.specs.Standing.{WorldStands};

/// By its own roster nobody waits for somebody who is gone: so it is in a first world, and behind
/// each step from a sound world in which it is. Does nothing.
pub fn worlds_stand()
    ensures first { (d : Device) → WorldStands (first_over d) }
    ensures step { (job : JobOf) (w : WorldOf) (e : Event) (o : StepResult)
        → IsSound job w
        → WorldStands w
        → Step job e w o
        → WorldStands o.world }
{}
