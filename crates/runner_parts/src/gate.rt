/// What is told of each thread body before it is evaluated, and may hold it up; and of how far the
/// run has come. Bodies are numbered from 1 over the whole run.
pub trait Gate {
    /// The body of a number is about to be evaluated; said once of each.
    fn begun(&self, body: u64);

    /// Whether the body may be evaluated now. It is asked until it may, each time in a turn.
    fn may_go(&self, body: u64) -> bool;

    /// So many events were committed, and so many packets sent; said by the clearinghouse's thread
    /// from time to time. It does nothing where a gate says nothing of it.
    fn passed(&self, _events: u64, _packets: u64) {}
}

/// The gate that is always open.
pub struct Open;

impl Gate for Open {
    fn begun(&self, _body: u64) {}

    fn may_go(&self, _body: u64) -> bool {
        true
    }
}
