use std::mem;

/// Keeps a value to the end of the player. That programs, nodes and the like are let go is proved
/// where the product does it; to prove it here again would take longer than all else.
pub fn keep<T: Drop>(value: T) {
    mem::forget(value);
}
