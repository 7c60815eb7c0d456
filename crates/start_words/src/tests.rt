ghost use Rattle.std.specs.Prelude.{◌≡◌};

use crate::{Pen, PenSpent, WordTable};
use std::sync::atomic::AtomicU64;
use std::sync::atomic::Ordering::SeqCst;
use std::test::Fail;
use std::thread;

/// Draws so many numbers, and counts how often each is drawn.
fn draw_all(table: &WordTable, mut pen: Pen, draws: usize, seen: &[AtomicU64]) -> Pen
    requires { pen.table ≡ table.now.table }
    ensures { result.table ≡ table.entry.now.table }
{
    for _ in 0..draws {
        let Ok(number) = pen.draw(table) else {
            break;
        };
        if let Some(times) = seen.get(number as usize) {
            times.fetch_add(1, SeqCst);
        }
    }
    pen
}

#[test]
fn four_threads_draw_each_number_once(rt: HostRuntime) -> Result<(), Fail> {
    let alloc = rt.alloc();
    let (table, pens) = WordTable::new(alloc, 4)?;
    let mut seen = Vec::new(alloc);
    for _ in 0..4001 {
        seen.push(AtomicU64::new(0))?;
    }
    let (shared, counts) = (&table, seen.as_slice());
    let pens = thread::map_vec(
        &rt,
        pens,
        &|pen: Pen| -> Pen
            requires { pen.table ≡ shared.now.table }
            ensures { result.table ≡ shared.entry.now.table }
        { draw_all(shared, pen, 1000, counts) },
    )?;
    assert_eq!(rt; table.close(pens), 4000);
    for (number, times) in seen.iter().enumerate() {
        assert_eq!(rt; times.load(SeqCst), u64::from(number > 0));
    }
    Ok(())
}

#[test]
fn as_many_pens_as_there_may_be(rt: HostRuntime) -> Result<(), Fail> {
    let (table, mut pens) = WordTable::new(rt.alloc(), 1024)?;
    assert_eq!(rt; pens.len(), 1024);
    for pen in pens.iter_mut() {
        let first = pen.draw(&table)?;
        assert_eq!(rt; pen.draw(&table), Ok(first + 1));
    }
    assert_eq!(rt; table.close(pens), 2048);
    Ok(())
}

#[test]
fn no_number_is_drawn_yet(rt: HostRuntime) -> Result<(), Fail> {
    let (table, pens) = WordTable::new(rt.alloc(), 3)?;
    assert_eq!(rt; table.close(pens), 0);
    Ok(())
}

#[test]
fn the_refusal_is_printed(rt: HostRuntime) -> Result<(), Fail> {
    assert_eq!(rt; format!(in rt.alloc(); "{PenSpent}")?.as_str(), "E90");
    assert_eq!(rt; PenSpent.number(), 90);
    Ok(())
}
