ghost use Rattle.std.specs.Prelude.{◌≡◌, ◌++◌, IfOk, IfSome, map, [], ◌∷◌};
ghost use Rattle.task_tree.specs.declared.tree.Program.{Program};
ghost use Rattle.sub_rules.specs.Changes.{readied_in};
ghost use Rattle.subcomputation.specs.Fitting.{Fits};
ghost use Rattle.subcomputation.specs.Recovering.{recovered};
ghost use Rattle.subcomputation.specs.Subs.{ready_frames};
ghost use Rattle.subcomputation.specs.Told.{HasNoOthers};
ghost use Rattle.recovery.specs.Plans.{stop_of};
ghost use Rattle.recovery.specs.Told.{ComesTold, IsWhole, all_in, those};

use crate::plan::{Stopped, make_plan};
use frames::is_full;
use ids::{Listed, Member, Named, SortedMap};
use std::alloc::{AllocError, Global};
use sub_rules::Readied;
use subcomputation::{ReadiedOf, Sub};

/// What comes of a subcomputation that an Offer hands on: it, or nothing where its host is dead;
/// the holders that are told to stop; and its ready frames, those with which it came first.
#[derive(Drop)]
pub struct Alone {
    pub after: Option<Sub>,
    pub stopped: Listed<Stopped>,
    pub ready: Listed<Readied>,
}

/// Recovers a subcomputation that comes by a roster; refused only when out of memory.
pub fn recover_alone(alloc: Global, members: &[Member], sub: Sub) -> Result<Alone, AllocError>
    ensures after { IfOk result (λ a. those a.after ≡ (recovered members.now (sub.grant ∷ []) (sub ∷ [])).subs) }
    ensures named { IfOk result (λ a. IfSome a.after (λ s. s.grant ≡ sub.grant)) }
    ensures stopped { IfOk result (λ a. a.stopped ≡ map stop_of
        (recovered members.now (sub.grant ∷ []) (sub ∷ [])).stopped) }
    ensures ready { IfOk result (λ a. all_in sub.grant a.ready ≡ ready_frames sub
        ++ (recovered members.now (sub.grant ∷ []) (sub ∷ [])).again) }
    ensures told { IfOk result (λ a. IfSome a.after (λ s. ComesTold s a.ready)) }
    ensures records { IfOk result (λ a. IfSome a.after (λ s. HasNoOthers sub.content.records s.content.records)) }
    ensures fits { (p : Program) → Fits p sub.content → IfOk result (λ a. IfSome a.after (λ s. Fits p s.content)) }
{
    law_is_whole(&sub);
    let first = ready_of(alloc, &sub)?;
    let name = sub.name();
    let mut subs = SortedMap::new(alloc);
    subs.put(sub)?;
    let plan = make_plan(alloc, members, &subs)?;
    let stopped = copied(alloc, plan.stopped())?;
    let ready = with_again(first, plan.again())?;
    plan.carry_out(&mut subs);
    let after = subs.take(name);
    Ok(Alone {
        after,
        stopped,
        ready,
    })
}

/// A subcomputation is sound, and its frames and records stand in order. Does nothing.
fn law_is_whole(sub: &Sub)
    ensures { IsWhole sub.now }
{
    let content = sub.content();
    content.frames.law_stand_in_order();
    content.records.law_stand_in_order();
}

/// The ready frames of a subcomputation, by rising number.
fn ready_of(alloc: Global, sub: &Sub) -> Result<Listed<Readied>, AllocError>
    ensures { IfOk result (λ ready. ready ≡ readied_in sub.now.content.frames) }
{
    let mut ready = Listed::new(alloc);
    for frame in sub.content().frames.values() {
        if is_full(frame.slots.as_slice()) {
            ready.push(Readied {
                frame: frame.number,
                level: frame.place.level(),
            })?;
        }
    }
    Ok(ready)
}

/// Ready frames, and behind them those that are ready again.
fn with_again(ready: Listed<Readied>, again: &[ReadiedOf]) -> Result<Listed<Readied>, AllocError>
    ensures { IfOk result (λ all. all ≡ ready ++ map (λ r. r.frame) again.now) }
{
    let mut all = ready;
    for one in again {
        all.push(one.frame)?;
    }
    Ok(all)
}

/// The same holders.
fn copied(alloc: Global, stopped: &[Stopped]) -> Result<Listed<Stopped>, AllocError>
    ensures { IfOk result (λ all. all ≡ stopped.now) }
{
    let all: Vec<Stopped> = stopped.iter().copied().collect(alloc)?;
    Ok(Listed::from_vec(all))
}
