ghost use Rattle.checkpoint.specs.Moments.{BeforeOrAfter, KeptAllAlong};

/// Of a commit: before the fifth of its calls the record before is kept, whatever a crash leaves;
/// up to its end that one or the next; and then the next. Does nothing.
pub fn a_commit_at_any_moment()
    ensures { BeforeOrAfter }
{}

/// Of the calls by which a store is opened, also where it becomes one of the newer form: at each
/// moment the record is kept, whatever a crash leaves, and at the end in the newer form. Does
/// nothing.
pub fn an_opening_at_any_moment()
    ensures { KeptAllAlong }
{}
