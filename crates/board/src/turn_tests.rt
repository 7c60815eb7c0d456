//! Turns that come from other threads.
ghost use Rattle.std.specs.Prelude.{◌≡◌, IfSome, Some};
ghost use Rattle.kind_check.specs.Turns.{turn_of};

use body_eval::{Done, Turn};
use kind_check::check;
use std::alloc::Global;
use std::test::Fail;
use std::thread;
use task_syntax::parse;

/// A turn of a thread that sends one more than its number.
fn turn_on(alloc: Global, number: i64) -> Option<Done> {
    let program = parse(alloc, b"thread main(k,n){send_argument(k,n+1);}").ok()?;
    let checked = check(alloc, program).ok()?;
    let tree = checked.program();
    if checked.threads() == 0 || tree.thread(0).numbers.len() != 1 {
        return None;
    }
    let numbers = Vec::from_slice(alloc, &[number]).ok()?;
    Done::of(alloc, &checked, 0, numbers).ok()
}

/// What a turn sends. Whoever evaluated it, its thread sends that on its numbers.
fn sent(done: &Done) -> Option<i64>
    ensures { IfSome result (λ v. turn_of done.now.program done.now.thread done.now.numbers ≡ Some (Turn.Sends v)) }
{
    match done.turn() {
        Turn::Sends(number) => Some(*number),
        Turn::Joins(_, _) => None,
    }
}

#[test]
fn a_turn_comes_from_another_thread(rt: HostRuntime) -> Result<(), Fail> {
    let alloc = rt.alloc();
    let started = thread::spawn(&rt, move || turn_on(alloc, 41));
    let done = started.ok().ok_or("no thread")?.join(&rt);
    let done = done.ok_or("no turn")?;
    assert_eq!(rt; done.thread(), 0);
    assert_eq!(rt; done.numbers(), [41].as_slice());
    assert_eq!(rt;
        thread::join(&rt, || sent(&done), || sent(&done)),
        (Some(42), Some(42))
    );
    assert!(rt; matches!(done.into_turn(), Turn::Sends(42)));
    Ok(())
}
