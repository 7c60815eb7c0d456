/// What a job comes to: a number, or too deep, where some task stands at a place of more than 1,024
/// steps.
#[derive(Clone, Copy, PartialEq, Eq, Debug)]
pub enum Outcome {
    Value(i64),
    TooDeep,
}

/// How far a subcomputation is: it goes on, or it has its outcome.
#[derive(Clone, Copy, PartialEq, Eq, Debug)]
pub enum Progress {
    Active,
    Finished(Outcome),
}
