ghost use Rattle.std.specs.Prelude.{◌≡◌, ◌<◌, length, Some, slice_get};

use ids::Listed;
use task_tokens::Operator;

/// A name and the offset of its first byte in the text.
#[derive(Drop)]
pub struct Name {
    pub text: Listed<u8>,
    pub offset: u32,
}

/// An expression over signed 64-bit numbers.
#[derive(Drop)]
pub enum Expr {
    Number(i64),
    Variable(Name),
    Binary(Operator, Box<Expr>, Box<Expr>),
}

/// `let name = value;`
#[derive(Drop)]
pub struct Let {
    pub name: Name,
    pub value: Expr,
}

/// An argument of `spawn_next`: a given number, or a hole.
#[derive(Drop)]
pub enum Argument {
    Value(Expr),
    Hole(Name),
}

/// What a hole gets: a number that is sent to it, or the value of a spawned thread (its name and
/// its arguments).
#[derive(Drop)]
pub enum Given {
    Sent(Expr),
    Spawned(Name, Listed<Expr>),
}

/// `send_argument(hole, value);` or `spawn thread(hole, arguments);` behind a `spawn_next`.
#[derive(Drop)]
pub struct Use {
    pub hole: Name,
    pub given: Given,
}

/// A block: what is let, how it ends, and the offset of its closing brace.
#[derive(Drop)]
#[cycle(block)]
pub struct Block {
    pub lets: Listed<Let>,
    pub end: End,
    pub close: u32,
}

/// How a block ends.
#[derive(Drop)]
#[cycle(block)]
pub enum End {
    /// `if` a condition isn't 0 the first block, else the second.
    If(Expr, Box<Block>, Box<Block>),
    /// `send_argument(continuation, value);`
    Send(Name, Expr),
    /// `spawn_next thread(continuation, arguments);`, and the uses of its holes.
    Next(Name, Name, Listed<Argument>, Listed<Use>),
}

/// A thread: its name, its continuation, its number parameters and its body.
#[derive(Drop)]
pub struct Thread {
    pub name: Name,
    pub continuation: Name,
    pub numbers: Listed<Name>,
    pub body: Block,
}

/// A program: its threads, numbered from 0 in the order of the text, and the text's length in
/// bytes.
#[derive(Drop)]
pub struct Program {
    pub threads: Listed<Thread>,
    pub length: u32,
}

impl Program {
    /// The thread of a number that the program has.
    pub fn thread(&self, number: u8) -> &Thread
        requires { number < length self.now.threads }
        ensures { slice_get self.now.threads number ≡ Some result.now }
    {
        &self.threads.as_slice()[number as usize]
    }
}
