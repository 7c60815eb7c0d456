use once_cell::race;
use serial_meaning::Outcome;
use std::marker::Model;

/// What one thread has learned from a board. It takes no bytes and can go to another thread.
/// Contracts see the board that it is of, and the outcome, once it is known.
#[derive(Drop)]
pub struct Note {
    pub(crate) note: race::Note<Outcome>,
}

impl Model for Note {
    ghost use Rattle.board.specs.Boards.{NoteOf};

    ghost Value = { NoteOf };

    ghost view = { λ n. record { board = n.note.cell; known = n.note.known } };
}
