//! Lengths of a picture.

use std::fmt;

/// A length, in tenths of a pixel.
#[derive(Clone, Copy, PartialEq, Eq, PartialOrd, Ord)]
pub(crate) struct Px(pub(crate) u64);

impl Px {
    pub(crate) const ZERO: Px = Px(0);

    /// Longer than all lengths of a picture.
    pub(crate) const FAR: Px = Px(u64::MAX);

    /// So many pixels.
    pub(crate) fn of(pixels: usize) -> Px {
        Px((pixels as u64).saturating_mul(10))
    }

    pub(crate) fn plus(self, other: Px) -> Px {
        Px(self.0.saturating_add(other.0))
    }

    /// The difference, and nothing where the other one is longer.
    pub(crate) fn minus(self, other: Px) -> Px {
        Px(self.0.saturating_sub(other.0))
    }

    pub(crate) fn times(self, count: usize) -> Px {
        Px(self.0.saturating_mul(count as u64))
    }

    /// One of so many equal parts; the whole where there is none.
    pub(crate) fn over(self, parts: usize) -> Px {
        Px(self.0 / (parts as u64).max(1))
    }

    pub(crate) fn at_most(self, other: Px) -> Px {
        Px(self.0.min(other.0))
    }

    pub(crate) fn at_least(self, other: Px) -> Px {
        Px(self.0.max(other.0))
    }
}

impl fmt::Display for Px {
    fn fmt<W: fmt::Write>(&self, f: &mut fmt::Formatter<W>) -> fmt::Result {
        let (whole, rest) = (self.0 / 10, self.0 % 10);
        if rest == 0 {
            write!(f, "{whole}")
        } else {
            write!(f, "{whole}.{rest}")
        }
    }
}
