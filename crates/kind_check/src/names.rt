/// What a name in scope stands for: the thread's own continuation, a number, or a hole that waits
/// for its value.
#[derive(Clone, Copy, PartialEq, Eq, Debug)]
pub enum Kind {
    Own,
    Value,
    Waits,
}
