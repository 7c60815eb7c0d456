ghost use Rattle.std.specs.Prelude.{◌≡◌, IfErr, IfSome};
ghost use Rattle.runner_parts.specs.Lines.{IsLineOf};
ghost use Rattle.runner_parts.specs.Turns.{IsEvaluatedOf};

use crate::turn::{Evaluated, Finished};
use kind_check::Checked;
use local_pool::{TurnPass, TurnQueue};
use std::alloc::Global;
use std::sync::{Arc, Wait};

/// An end of the queue by which turns come back to a node, for one thread.
#[derive(Drop)]
pub struct Line {
    pub queue: Arc<TurnQueue<Finished>, Global>,
    pub pass: TurnPass<Finished>,
}

impl Line {
    /// Puts a turn behind all others. It comes back where there is no room.
    pub fn put<R: Wait>(
        &mut self,
        rt: &R,
        checked: &Checked,
        finished: Finished,
    ) -> Result<(), Finished>
        requires line { IsLineOf checked.now self.old }
        requires own { finished.program ≡ checked.now }
        ensures line { IsLineOf checked.now self.new }
        ensures back { IfErr result (λ f. f ≡ finished) }
    {
        self.queue.put(rt, &mut self.pass, finished)
    }

    /// Takes the first turn, if there is one.
    pub fn take<R: Wait>(&mut self, rt: &R, checked: &Checked) -> Option<Evaluated>
        requires { IsLineOf checked.now self.old }
        ensures line { IsLineOf checked.now self.new }
        ensures own { IfSome result (IsEvaluatedOf checked.now) }
    {
        let _ = checked;
        let finished = self.queue.take(rt, &mut self.pass)?;
        finished.into_evaluated()
    }
}
