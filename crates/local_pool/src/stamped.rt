/// A value with a stamp: what proofs know of it and no run can test, as the program that a finished
/// turn carried out. All turns of one queue have the same stamp.
pub trait Stamped {
    /// What stamps are. A `Snapshot` of it will do, which takes no bytes: proofs alone read it.
    type Stamp;

    // The stamp of the value.
    ghost stamp: { Self → Self.Stamp };
}
