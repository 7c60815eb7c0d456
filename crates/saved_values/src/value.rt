use crate::place::SavedPlace;

/// A value that was saved, and the place of the task whose value it is.
#[derive(Clone, Copy)]
pub struct SavedValue {
    pub place: SavedPlace,
    pub value: i64,
}
