//! Where everything stands in a picture.

use crate::choice::{Arrows, Shows, arrows_of};
use crate::deed::Site;
use crate::folds::Folds;
use crate::held::Lane;
use crate::px::Px;
use crate::record::Recorder;
use crate::texts::{FoldWords, LaneName, count_chars};
use event_script::NodePlace;

/// How wide an event is at most, and all of them together.
const WIDEST_STEP: Px = Px(520);

const WIDEST: Px = Px(35_000);

/// How wide a fold is at most, and all of them together.
const WIDEST_FOLD: Px = Px(260);

const ALL_FOLDS: Px = Px(17_500);

/// Names of lanes and the legend stand again so far from one another: about a screen's width.
pub(crate) const SCREEN: Px = Px(12_000);

/// How wide an event has to be for its words, for a dot, and for the names of the packets that it
/// sends.
const FOR_WORDS: Px = Px(140);

const FOR_DOTS: Px = Px(40);

const FOR_PACKETS: Px = Px(240);

/// A picture has at least the legend's width.
pub(crate) const LEGEND_WIDTH: Px = Px(9600);

const LEGEND_HEIGHT: Px = Px(1300);

/// There is at least so much behind the last event.
const RIGHT: Px = Px(600);

/// The width of a character of a lane's name; the height and the width that one of an event's words
/// takes, aslant.
const NAME_CHAR: Px = Px(67);

const WORD_RISE: Px = Px(53);

const WORD_RUN: Px = Px(31);

/// The heights of the heading, of the axis, and of what stands above the line of a lane: its name
/// once more, the words of a mark, and those of packets.
const HEADING: Px = Px(400);

const AXIS: Px = Px(220);

const NAME_BAND: Px = Px(140);

const MARK_BAND: Px = Px(170);

const PACKET_BAND: Px = Px(230);

/// How far the words of folds stand above the axis where that has numbers.
pub(crate) const ABOVE_NUMBERS: Px = Px(170);

/// Where a lane begins and ends, and its line between them. What is held stands below the line.
#[derive(Clone, Copy)]
pub(crate) struct Band {
    pub(crate) top: Px,
    pub(crate) line: Px,
    pub(crate) end: Px,
}

/// How wide everything is: the names of the lanes, all columns of events that aren't folded, which
/// are of one width, one of these, and a fold; and how many events aren't folded, and how many
/// folds there are.
#[derive(Clone, Copy)]
struct Widths {
    left: Px,
    plot: Px,
    step: Px,
    fold: Px,
    events: usize,
    folds: usize,
}

impl Widths {
    fn of(run: &Recorder) -> Widths {
        let folds = run.folds.as_slice().len();
        let events = run.steps.len().saturating_sub(run.folds.folded());
        let fold = ALL_FOLDS.over(folds).at_most(WIDEST_FOLD);
        let room = WIDEST.minus(fold.times(folds));
        let plot = WIDEST_STEP.times(events.max(1)).at_most(room);
        Widths {
            left: NAME_CHAR.times(name_chars(run)).plus(Px(260)),
            plot,
            step: plot.over(events),
            fold,
            events,
            folds,
        }
    }

    /// Whether there is room for the words of events, and of folds.
    fn has_words(&self) -> bool {
        self.step >= FOR_WORDS && self.fold >= FOR_WORDS
    }

    /// The right end of the last column.
    fn right(&self) -> Px {
        self.left.plus(self.plot).plus(self.fold.times(self.folds))
    }
}

/// How high what stands above the line of a lane is, and a track below it.
#[derive(Clone, Copy)]
struct Heights {
    names: Px,
    packets: Px,
    track: Px,
}

/// Where everything stands. Events have columns of one width, from left to right, and folds have
/// theirs among them; lanes lie below one another, that of the clearinghouse first.
#[derive(Drop)]
pub(crate) struct Layout<'r> {
    pub(crate) folds: &'r Folds,
    widths: Widths,
    heights: Heights,
    behind: Px,
    house: Band,
    places: [Band; 64],
    pub(crate) lanes_end: Px,
    pub(crate) arrows: Arrows,
}

impl<'r> Layout<'r> {
    /// The layout of a run's picture.
    pub(crate) fn of(run: &'r Recorder, shows: Shows) -> Layout<'r> {
        let widths = Widths::of(run);
        let heights = heights_of(run, &widths);
        let (words, behind) = words_of(run, &widths);
        let house = house_band(words, heights);
        let (places, lanes_end) = place_bands(run, heights, house.end);
        Layout {
            folds: &run.folds,
            widths,
            heights,
            behind,
            house,
            places,
            lanes_end,
            arrows: arrows_of(run, shows),
        }
    }

    /// The middle of an event's column; of a folded one, that of its fold's.
    pub(crate) fn x(&self, event: usize) -> Px {
        let (all, spot) = (self.widths, self.folds.spot(event));
        if spot.is_folded {
            return self.fold_left(event).plus(all.fold.over(2));
        }
        let columns = event.saturating_sub(spot.folded);
        let halves = all.plot.times(columns.saturating_mul(2).saturating_add(1));
        all.left
            .plus(halves.over(all.events.saturating_mul(2)))
            .plus(all.fold.times(spot.folds))
    }

    /// The left end of the fold of a folded event.
    pub(crate) fn fold_left(&self, event: usize) -> Px {
        let (all, spot) = (self.widths, self.folds.spot(event));
        let columns = event.saturating_sub(spot.folded);
        all.left
            .plus(all.plot.times(columns).over(all.events))
            .plus(all.fold.times(spot.folds.saturating_sub(1)))
    }

    /// The width of a fold.
    pub(crate) fn fold_width(&self) -> Px {
        self.widths.fold
    }

    /// The right end of the last column.
    pub(crate) fn right(&self) -> Px {
        self.widths.right()
    }

    /// The lane of a site.
    pub(crate) fn band(&self, site: Site) -> Band {
        match site {
            Site::House => self.house,
            Site::At(place) => self.places[usize::from(place.index())],
        }
    }

    /// The line of a site's lane.
    pub(crate) fn line(&self, site: Site) -> Px {
        self.band(site).line
    }

    /// The upper end of a track of a place.
    pub(crate) fn track_top(&self, place: NodePlace, track: usize) -> Px {
        self.line(Site::At(place))
            .plus(Px(90))
            .plus(self.track().times(track))
    }

    /// The height of a track.
    pub(crate) fn track(&self) -> Px {
        self.heights.track
    }

    /// Whether the names of lanes stand again, and where that of a site does.
    pub(crate) fn repeats_names(&self) -> bool {
        self.heights.names > Px::ZERO
    }

    pub(crate) fn again_name(&self, site: Site) -> Px {
        self.band(site).top.plus(Px(110))
    }

    /// Where the words of a lane's marks stand, and those of the outcome.
    pub(crate) fn mark_words(&self, site: Site) -> Px {
        self.line(site).minus(self.heights.packets).minus(Px(100))
    }

    pub(crate) fn outcome_words(&self) -> Px {
        self.house.top.plus(self.heights.names).plus(Px(130))
    }

    /// The middle of the events.
    pub(crate) fn middle(&self) -> Px {
        self.widths.left.plus(self.right()).over(2)
    }

    /// The width of so many events.
    pub(crate) fn span(&self, events: usize) -> Px {
        self.widths.plot.times(events).over(self.widths.events)
    }

    /// Whether events have their words and a dot, and packets and bodies their names.
    pub(crate) fn has_words(&self) -> bool {
        self.widths.has_words()
    }

    pub(crate) fn has_dots(&self) -> bool {
        self.widths.step >= FOR_DOTS
    }

    pub(crate) fn has_names(&self) -> bool {
        self.heights.packets > Px::ZERO
    }

    /// Where the axis stands, above the lanes.
    pub(crate) fn axis(&self) -> Px {
        self.house.top
    }

    /// The width and the height of the picture.
    pub(crate) fn width(&self) -> Px {
        self.right().plus(self.behind).at_least(LEGEND_WIDTH)
    }

    pub(crate) fn height(&self) -> Px {
        self.lanes_end.plus(LEGEND_HEIGHT)
    }
}

/// How many characters the longest name of a lane has.
fn name_chars(run: &Recorder) -> usize {
    let mut most = 13usize;
    for (index, lane) in run.lanes.iter().enumerate() {
        most = most.max(count_chars(LaneName::of(index, lane)));
    }
    most
}

/// How much the words above the lanes take, of events or of folds: their height, and their width
/// behind the last column.
fn words_of(run: &Recorder, widths: &Widths) -> (Px, Px) {
    let has_words = widths.has_words();
    let chars = longest_words(run, has_words);
    let above = if has_words || chars == 0 {
        Px(100)
    } else {
        ABOVE_NUMBERS.plus(Px(100))
    };
    let height = WORD_RISE.times(chars).plus(above).at_least(AXIS);
    (height, WORD_RUN.times(chars).at_least(RIGHT))
}

/// How many characters the words of a fold have at most, or those of an event with its number and a
/// blank, where events have words.
fn longest_words(run: &Recorder, has_words: bool) -> usize {
    let mut most = 0usize;
    for fold in run.folds.as_slice() {
        most = most.max(count_chars(FoldWords(fold.count)));
    }
    if has_words {
        for step in &run.steps {
            most = most.max(count_chars(run.words_of(step)).saturating_add(4));
        }
    }
    most
}

/// How high what a lane has is. Names stand again only in a long picture.
fn heights_of(run: &Recorder, widths: &Widths) -> Heights {
    let is_long = widths.right() > SCREEN.plus(widths.left);
    let has_names = widths.step >= FOR_PACKETS;
    Heights {
        names: if is_long { NAME_BAND } else { Px::ZERO },
        packets: if has_names { PACKET_BAND } else { Px::ZERO },
        track: track_height(run),
    }
}

/// The height of a track: less where there are many.
fn track_height(run: &Recorder) -> Px {
    let mut tracks = 1usize;
    for lane in &run.lanes {
        tracks = tracks.saturating_add(lane.tracks);
    }
    Px(12_000).over(tracks).at_most(Px(160)).at_least(Px(40))
}

/// The line of a lane, below what stands above it.
fn line_below(top: Px, heights: Heights) -> Px {
    top.plus(heights.names)
        .plus(MARK_BAND)
        .plus(heights.packets)
        .plus(Px(60))
}

/// The lane of the clearinghouse, below words of a height. It has a band for the outcome above the
/// others.
fn house_band(words: Px, heights: Heights) -> Band {
    let top = HEADING.plus(words);
    let line = line_below(top.plus(MARK_BAND), heights);
    Band {
        top,
        line,
        end: line.plus(Px(140)),
    }
}

/// The lanes of all places, below the clearinghouse's, and where the last one ends. One that isn't
/// used has no height.
fn place_bands(run: &Recorder, heights: Heights, top: Px) -> ([Band; 64], Px) {
    let empty = Band {
        top: Px::ZERO,
        line: Px::ZERO,
        end: Px::ZERO,
    };
    let mut bands = [empty; 64];
    let mut top = top;
    for (band, lane) in bands.iter_mut().zip(&run.lanes) {
        if lane.is_used {
            *band = place_band(lane, heights, top);
            top = band.end;
        }
    }
    (bands, top)
}

/// The lane of a place, from a height on.
fn place_band(lane: &Lane, heights: Heights, top: Px) -> Band {
    let line = line_below(top, heights);
    Band {
        top,
        line,
        end: line
            .plus(Px(90))
            .plus(heights.track.times(lane.tracks))
            .plus(Px(100)),
    }
}
