//! Room for words, so that none stand over one another.
ghost use Rattle.std.specs.Prelude.{◌<◌};

use crate::deed::Site;
use crate::px::Px;

/// Words may stand so far behind what they are about.
const FARTHEST: Px = Px(480);

/// What is left free between two.
const GAP: Px = Px(50);

/// From where on there is room in each lane, that of the clearinghouse behind the places'.
#[derive(Drop)]
pub(crate) struct Rooms {
    free: [Px; 65],
}

impl Rooms {
    /// There is room everywhere.
    pub(crate) fn new() -> Rooms {
        Rooms {
            free: [Px::ZERO; 65],
        }
    }

    /// Takes the room for words of a width, from a place on or a little behind it; none where there
    /// isn't any, or where the words that are to stand from the next place on would stand more than
    /// a little behind that. Words are written from left to right.
    pub(crate) fn take(&mut self, site: &Site, from: Px, width: Px, next: Px) -> Option<Px> {
        let at = self.free_from(site, from);
        let end = at.plus(width).plus(GAP);
        if at.minus(from) > FARTHEST || end.minus(next) > FARTHEST {
            return None;
        }
        self.fill(site, at.plus(width));
        Some(at)
    }

    /// Takes the room for words of a width, from a place on or as far behind it as it has to be;
    /// none where they would go on up to an end.
    pub(crate) fn take_far(&mut self, site: &Site, from: Px, width: Px, end: Px) -> Option<Px> {
        let at = self.free_from(site, from);
        if at.plus(width) > end {
            return None;
        }
        self.fill(site, at.plus(width));
        Some(at)
    }

    /// From where on there is room in a lane, from a place on.
    fn free_from(&self, site: &Site, from: Px) -> Px {
        from.at_least(self.free[index_of(site)])
    }

    /// There is no room in a lane up to an end.
    fn fill(&mut self, site: &Site, end: Px) {
        self.free[index_of(site)] = end.plus(GAP);
    }
}

/// The index of a lane.
fn index_of(site: &Site) -> usize
    ensures { result < 65 }
{
    match site {
        Site::House => 64usize,
        Site::At(place) => usize::from(place.index()),
    }
}
