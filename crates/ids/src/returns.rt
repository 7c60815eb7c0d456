use crate::names::FrameNo;

/// Where the value of a frame goes: it is the value of the whole subcomputation, or it fills a slot
/// of another frame of it, slots counted from 0.
#[derive(Clone, Copy, PartialEq, Eq, Debug)]
pub enum Return {
    Whole,
    Local(FrameNo, u8),
}
