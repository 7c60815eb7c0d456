ghost use Rattle.std.specs.Prelude.{ℕ, List};

/// A value with a history: a list of entries, the newest last, each of one actor. A lock keeps such
/// a value.
pub trait KeepsHistory {
    /// An entry of the history.
    type Entry;

    /// What stays the same as long as the value lives, as the task that it was made for. A
    /// `Snapshot` of it will do, which takes no bytes: proofs alone read it.
    type Fixed: Drop;

    // The history, the newest entry last.
    ghost history: { Self → List Self.Entry };

    // The number of the actor whose entry it is.
    ghost actor_of: { Self.Entry → ℕ };

    // What stays the same.
    ghost fixed: { Self → Self.Fixed };
}
