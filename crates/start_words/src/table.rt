ghost use Rattle.std.specs.Prelude.{◌≡◌, ◌+◌, ◌<◌, ◌≤◌, ◌++◌, [], All, IfOk, vec_len};
ghost use Rattle.start_words.specs.Words.{IsBlankPenOf, IsPenOf, drawn_by, EachOnce};

use crate::law::{Came, Deal, Gather, Hand, Law};
use crate::pen::Pen;
use atomic_table::{Seat, Table};
use std::alloc::{AllocError, Global};
use std::marker::Model;

type Words = Table<(), Hand, usize, Law, Global>;

/// The word that pens draw numbers from. Threads share it by reference. Contracts see which table
/// it is, and how many pens it has.
#[derive(Drop)]
pub struct WordTable {
    pub(crate) table: Words,
}

impl Model for WordTable {
    ghost use Rattle.start_words.specs.Words.{TableOf, table_code};

    ghost Value = { TableOf };

    ghost coded = { table_code };

    ghost use Rattle.std.specs.Prelude.{◌≡◌, ◌≤◌};

    ghost view = { λ t. record { table = t.table.shared.table_id; pens = t.table.shared.key } };

    ghost invariant = { λ t. (t.table.shared.table_id.words ≡ 1) × (t.table.shared.table_id.slots ≡ 0) × (t.table.shared.key ≤ 1024) };
}

impl WordTable {
    /// A table from which no number is drawn yet, and its pens, at most 1,024 of them.
    pub fn new(alloc: Global, pens: usize) -> Result<(WordTable, Vec<Pen>), AllocError>
        requires { pens ≤ 1024 }
        ensures pens { IfOk result (λ r. (r.0.pens ≡ pens) × (vec_len r.1 ≡ pens)) }
        ensures blank { IfOk result (λ r. All (IsBlankPenOf r.0) r.1.items) }
    {
        let (table, mut all) = Words::of_words(alloc, &[0], &pens)?;
        let mut dealt = Vec::with_capacity(alloc, pens)?;
        for _ in 0..pens {
            dealt.push(deal(&table, &mut all))?;
        }
        Ok((WordTable { table }, dealt))
    }

    /// Ends the table, once all its pens are back: what they drew are the numbers 1 to the answer,
    /// each once and none left out. Takes no memory.
    pub fn close(self, mut pens: Vec<Pen>) -> u64
        requires whole { vec_len pens ≡ self.pens }
        requires own { All (IsPenOf self) pens.items }
        ensures { EachOnce result (drawn_by pens.items) }
    {
        let WordTable { table } = self;
        let (_, mut all) = table.shared.load_new_seat::<Came>(0);
        while let Some(pen) = pens.pop() {
            gather(&table, &mut all, pen);
        }
        let closed = table.close_with(all);
        let count = closed.word(0);
        closed.free();
        count
    }
}

// A pen with one of the parts that are left.
fn deal(table: &Words, all: &mut Seat<(), Hand>) -> Pen
    requires table { all.old.table_id ≡ table.now.shared.table_id }
    requires word { table.now.shared.table_id.words ≡ 1 }
    requires part { 0 < all.old.me.0.parts }
    requires blank { all.old.me.0.drawn ≡ [] }
    ensures table { all.new.table_id ≡ all.old.table_id }
    ensures part { all.new.me.0.parts + 1 ≡ all.old.me.0.parts }
    ensures blank { all.new.me.0.drawn ≡ [] }
    ensures pen { (result.table ≡ all.old.table_id) × (result.drawn ≡ []) }
{
    let seat = table.shared.split_seat::<Deal>(all);
    Pen { seat, draws: 0 }
}

// Takes a pen's part and numbers in.
fn gather(table: &Words, all: &mut Seat<(), Hand>, pen: Pen)
    requires table { all.old.table_id ≡ table.now.shared.table_id }
    requires word { table.now.shared.table_id.words ≡ 1 }
    requires pen { pen.table ≡ all.old.table_id }
    ensures table { all.new.table_id ≡ all.old.table_id }
    ensures part { all.new.me.0.parts ≡ all.old.me.0.parts + 1 }
    ensures drawn { all.new.me.0.drawn ≡ all.old.me.0.drawn ++ pen.drawn }
{
    let Pen { seat, draws: _ } = pen;
    table.shared.join_seat::<Gather>(all, seat);
}
