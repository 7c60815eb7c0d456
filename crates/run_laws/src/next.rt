ghost use Rattle.serial_meaning.specs.Job.{JobOf, IsJob};
ghost use Rattle.world_steps.specs.World.{WorldOf};
ghost use Rattle.run_laws.specs.Next.{NextSteps};
ghost use Rattle.run_laws.specs.Sound.{IsSound};
ghost use Rattle.run_laws.specs.Standing.{WorldStands};

/// In a sound world in which nobody waits for somebody who is gone, a ready frame is carried out by
/// its turn, work that is awaited or was offered, and the Result of a grant, are taken if they come
/// now, and each Resend tells what isn't answered; and the root of a silent holder is free behind a
/// moment, and granted to who asks then. Does nothing.
pub fn what_comes_now_is_taken()
    ensures { (job : JobOf) (w : WorldOf) → IsJob job → IsSound job w → WorldStands w → NextSteps job w }
{}
