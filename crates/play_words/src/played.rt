/// What became of a command.
#[derive(Clone, Copy, PartialEq, Eq)]
pub enum Played {
    /// It was carried out, and what it answers was written.
    Answered,
    /// It isn't one of this library's.
    NotMine,
    /// It is one of this library's, but it names nothing that is there or lacks a word.
    Malformed,
}

impl Played {
    /// A command of a library was carried out, or it wasn't.
    pub fn of(done: Option<()>) -> Played {
        match done {
            Some(()) => Played::Answered,
            None => Played::Malformed,
        }
    }
}
