ghost use Rattle.std.specs.Prelude.{◌≡◌, IfOk};
ghost use Rattle.serial_meaning.specs.Job.{meaning_of};
ghost use Rattle.board.specs.Boards.{IsMeant};

use crate::{Board, Note, Outcome};
use kind_check::check;
use serial_meaning::{Job, serial};
use std::alloc::Global;
use std::test::Fail;
use std::thread::join;
use task_syntax::parse;

/// A job that sends its input, and one more.
fn job(alloc: Global) -> Result<Job, Fail> {
    let text = b"thread main(k, n) { send_argument(k, n + 1); }";
    let mut input = Vec::new(alloc);
    input.push(54)?;
    Ok(Job::new(check(alloc, parse(alloc, text)?)?, input, 7)?)
}

/// The outcome of a job.
fn outcome_of(alloc: Global, job: &Job) -> Result<Outcome, Fail>
    ensures { IfOk result (λ o. o ≡ meaning_of job.now) }
{
    Ok(serial(alloc, job, 1000)?)
}

/// Reads a board with a new note.
fn read_anew(board: &Board) -> (Option<Outcome>, Note)
    ensures { (result.1.board ≡ board.entry.now.board) × (result.1.known ≡ result.0) }
{
    let mut note = board.note();
    let seen = board.read(&mut note);
    (seen, note)
}

#[test]
fn an_outcome_is_read_on_another_thread(rt: HostRuntime) -> Result<(), Fail> {
    let alloc = rt.alloc();
    let job = job(alloc)?;
    let outcome = outcome_of(alloc, &job)?;
    let board = Board::new(alloc, &job);
    let shared = &board;
    let (before, mut mine) = read_anew(shared);
    assert_eq!(rt; before, None);
    let (published, ()) = join(
        &rt,
        || -> Result<(), Outcome>
            requires { IsMeant shared.now.job shared.now.saved outcome }
        { shared.publish(&mut shared.note(), outcome) },
        || (),
    );
    assert_eq!(rt; published, Ok(()));
    let ((first, mut one), (second, mut other)) = join(
        &rt,
        || -> (Option<Outcome>, Note)
            ensures { result.1.board ≡ shared.entry.now.board }
        { read_anew(shared) },
        || -> (Option<Outcome>, Note)
            ensures { result.1.board ≡ shared.entry.now.board }
        { read_anew(shared) },
    );
    assert_eq!(rt;
        (first, second),
        (Some(Outcome::Value(55)), Some(Outcome::Value(55)))
    );
    Board::compare(&mut one, &mut other);
    assert_eq!(rt; shared.read(&mut mine), Some(Outcome::Value(55)));
    Ok(())
}

#[test]
fn a_second_outcome_comes_back(rt: HostRuntime) -> Result<(), Fail> {
    let alloc = rt.alloc();
    let job = job(alloc)?;
    let outcome = outcome_of(alloc, &job)?;
    let board = Board::new(alloc, &job);
    let mut note = board.note();
    assert_eq!(rt; board.publish(&mut note, outcome), Ok(()));
    assert_eq!(rt; board.publish(&mut note, outcome), Err(outcome));
    assert_eq!(rt; board.publish(&mut board.note(), outcome), Err(outcome));
    assert_eq!(rt; board.read(&mut note), Some(outcome));
    Ok(())
}
