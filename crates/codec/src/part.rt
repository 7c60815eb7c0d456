use ids::{Listed, Named};
use std::marker::Model;

/// A part of an offer's spelling that has come in a Piece: which it is, counted from 0, and its
/// bytes.
#[derive(Drop)]
pub struct Part {
    pub number: u16,
    pub bytes: Listed<u8>,
}

impl Model for Part {
    ghost use Rattle.codec.specs.Pieces.{PartOf};

    ghost Value = { PartOf };

    ghost view = { λ p. record { number = p.number; bytes = p.bytes } };
}

/// A part's name is its number.
impl Named for Part {
    ghost use Rattle.codec.specs.Pieces.{name_of_part};

    ghost name_of = { name_of_part };

    fn name(&self) -> (u64, u64) {
        (u64::from(self.number), 0)
    }
}
