ghost use Rattle.std.specs.Prelude.{◌≡◌, true};
ghost use Rattle.event_script.specs.Back.{plain};

use crate::name::is_plain;
use std::alloc::{AllocError, Global};
use std::marker::Model;

/// A word by which a trace is told, as its file's name: none of its bytes is a space, a control or
/// beyond ASCII. Contracts see the bytes.
#[derive(Drop)]
pub struct Label {
    bytes: Vec<u8>,
}

impl Model for Label {
    ghost use Rattle.std.specs.Prelude.{◌≡◌, ℕ, List, true};
    ghost use Rattle.event_script.specs.Back.{plain};

    ghost Value = { List ℕ };

    ghost view = { λ l. l.bytes.items };

    ghost invariant = { λ l. plain l.bytes.items ≡ true };
}

impl Label {
    /// The label of this name, in which a `?` stands for each byte that a label doesn't have.
    /// Refused only when out of memory.
    pub fn of(alloc: Global, name: &str) -> Result<Label, AllocError> {
        let mut bytes = Vec::new(alloc);
        for b in name.as_bytes() {
            bytes.push(if is_plain(&[*b]) { *b } else { b'?' })?;
        }
        if is_plain(bytes.as_slice()) {
            Ok(Label { bytes })
        } else {
            Ok(Label {
                bytes: Vec::new(alloc),
            })
        }
    }

    /// The bytes.
    pub fn as_bytes(&self) -> &[u8]
        ensures same { result.now ≡ self.now }
        ensures plain { plain result.now ≡ true }
    {
        self.bytes.as_slice()
    }
}
