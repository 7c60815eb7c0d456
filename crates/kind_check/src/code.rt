use ids::Listed;
use task_tree::Operator;

/// An expression whose variables are the places of numbers in an environment, the outermost 0.
#[derive(Drop)]
pub enum Code {
    Number(i64),
    Local(usize),
    Binary(Operator, Box<Code>, Box<Code>),
}

/// A successor's slot: a number, or a kid (its hole, its thread and its numbers).
#[derive(Drop)]
pub enum SlotCode {
    Given(Code),
    Spawns(u8, u8, Listed<Code>),
}

/// Where a body ends: it sends a number, or spawns a successor (its thread) with these slots.
#[derive(Drop)]
pub enum Leaf {
    Sends(Code),
    Joins(u8, Listed<SlotCode>),
}

/// A block: what is let, each behind the numbers before it, and how it ends.
#[derive(Drop)]
#[cycle(code)]
pub struct BlockCode {
    pub lets: Listed<Code>,
    pub end: EndCode,
}

/// How a block ends: `If` a condition isn't 0 in the first block, else in the second.
#[derive(Drop)]
#[cycle(code)]
pub enum EndCode {
    If(Code, Box<BlockCode>, Box<BlockCode>),
    Leaf(Leaf),
}
