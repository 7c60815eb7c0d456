ghost use Rattle.std.specs.Prelude.{◌≡◌, ◌^◌, ◌↔◌, [], ◌∷◌, ◌++◌, length, Contains, IfOk, IsErr, OnErr};
ghost use Rattle.start_words.specs.Words.{IsStartWord};

use crate::law::{Drew, Hand};
use crate::table::WordTable;
use atomic_table::Seat;
use std::marker::Model;
use thiserror::Error;

// A pen draws at most so many numbers.
const MOST_DRAWS: u64 = 1 << 32;

/// E90: the pen has drawn 2^32 times.
#[derive(Clone, Copy, Debug, PartialEq, Eq, Error)]
#[error("E{number}", number = self.number())]
pub struct PenSpent;

impl PenSpent {
    ghost use Rattle.ids.specs.declared.error_numbers.TheConstants.{PEN_SPENT};

    /// The number of the refusal, 90.
    pub fn number(self) -> u8
        ensures { result ≡ PEN_SPENT }
    {
        ids::error_numbers::PEN_SPENT
    }
}

/// The right of one thread to draw numbers from a table. It has no clone, and can go to another
/// thread. Contracts see the table that it is of, and the numbers that it drew, the newest last.
#[derive(Drop)]
pub struct Pen {
    pub(crate) seat: Seat<(), Hand>,
    pub(crate) draws: u64,
}

impl Model for Pen {
    ghost use Rattle.start_words.specs.Words.{PenOf, pen_code};

    ghost Value = { PenOf };

    ghost coded = { pen_code };

    ghost use Rattle.start_words.specs.Pens.{IsPen};

    ghost view = { λ p. record { table = p.seat.table_id; drawn = p.seat.me.0.drawn } };

    ghost invariant = { λ p. IsPen p.seat p.draws };
}

impl Pen {
    /// A number that no pen of the table ever drew, by one step and without memory. The pen is used
    /// with the table that it was made with. E90 where it has drawn 2^32 times, and then nothing
    /// changes.
    pub fn draw(&mut self, table: &WordTable) -> Result<u64, PenSpent>
        requires { self.old.table ≡ table.now.table }
        ensures table { self.new.table ≡ self.old.table }
        ensures drawn { IfOk result (λ n. self.new.drawn ≡ self.old.drawn ++ n ∷ []) }
        ensures once { IfOk result (λ n. ¬ Contains self.old.drawn n) }
        ensures word { IfOk result IsStartWord }
        ensures spent { IsErr result ↔ (length self.old.drawn ≡ 2 ^ 32) }
        ensures err { OnErr result (self.new ≡ self.old) }
    {
        if self.draws == MOST_DRAWS {
            return Err(PenSpent);
        }
        let before = table.table.shared.fetch_add::<Drew>(&mut self.seat, 0, 1);
        self.draws += 1;
        Ok(before + 1)
    }
}
