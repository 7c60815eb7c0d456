use ids::Listed;

/// The longest name, in bytes.
pub const LONGEST_NAME: usize = 31;

/// A word that can't be a name.
#[derive(Clone, Copy, PartialEq, Eq, Debug)]
pub enum Word {
    Thread,
    Let,
    If,
    Else,
    Spawn,
    SpawnNext,
    SendArgument,
}

/// A mark that is no operator: `( ) { } , ; ? =`.
#[derive(Clone, Copy, PartialEq, Eq, Debug)]
pub enum Sign {
    Open,
    Close,
    OpenBrace,
    CloseBrace,
    Comma,
    Semicolon,
    Question,
    Assign,
}

/// An operator on two signed 64-bit numbers, written `|`, `^`, `&`, `==`, `!=`, `<`, `<=`, `<<`,
/// `>>`, `+`, `-`, `*`, `/`, `%`.
#[derive(Clone, Copy, PartialEq, Eq, Debug)]
pub enum Operator {
    Or,
    Xor,
    And,
    Equal,
    NotEqual,
    Less,
    AtMost,
    ShiftLeft,
    ShiftRight,
    Add,
    Subtract,
    Multiply,
    Divide,
    Remainder,
}

/// What a token is. What no token of a program can be has a kind too, so that it is refused where a
/// reader comes to it.
#[derive(Drop)]
pub enum TokenKind {
    /// A name of at most 31 bytes.
    Ident(Listed<u8>),
    /// A name of more bytes.
    LongIdent,
    Keyword(Word),
    /// A number up to 9223372036854775807.
    Numeral(i64),
    /// A greater number.
    LargeNumeral,
    Infix(Operator),
    Mark(Sign),
    /// A byte that no token begins with.
    Unknown,
    /// The end of the text.
    End,
}

/// A token and the offset of its first byte in the text.
#[derive(Drop)]
pub struct Token {
    pub kind: TokenKind,
    pub offset: u32,
}

/// Bytes that stand together: those of a name, of a number, of a comment up to the end of its line.
#[derive(Clone, Copy, PartialEq, Eq, Debug)]
pub enum Run {
    Name,
    Digits,
    Line,
}
