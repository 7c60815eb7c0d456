ghost use Rattle.std.specs.Prelude.{◌≡◌, None};
ghost use Rattle.kind_check.specs.Least.{earlier};

use crate::checked::KindFault;
use std::marker::Model;

/// The least fault met so far: by its offset, then by its number.
#[derive(Clone, Copy)]
pub struct Least {
    fault: Option<(u32, KindFault)>,
}

impl Model for Least {
    ghost use Rattle.std.specs.Prelude.{ℕ, Option};
    ghost use Rattle.kind_check.specs.declared.checked.KindFault.{KindFault};

    ghost Value = { Option (ℕ × KindFault) };

    ghost view = { λ l. l.fault };

    ghost inverse = { λ f. record { fault = f } };
}

impl Least {
    /// No fault.
    pub fn new() -> Least
        ensures { result ≡ None }
    {
        Least { fault: None }
    }

    /// The offset and the kind of the least fault.
    pub fn fault(self) -> Option<(u32, KindFault)>
        ensures { result ≡ self }
    {
        self.fault
    }

    /// Keeps a fault at this offset if it stands before the least one so far.
    pub fn note(&mut self, offset: u32, fault: KindFault)
        ensures { self.new ≡ earlier self.old (offset, fault) }
    {
        let is_first = match self.fault {
            None => true,
            Some((at, other)) => {
                offset < at || (offset == at && fault.number() < other.number())
            }
        };
        if is_first {
            self.fault = Some((offset, fault));
        }
    }
}
