/// What is said of the number of a fault that has no place; nothing of other numbers.
pub fn sentence_of(number: u8) -> &'static str {
    match number {
        3 => "the text in its one form would have more than 65,536 bytes",
        9 | 96 => "there is no memory",
        20 | 95 => "more turns are needed than `--turns` allows",
        21 => "`main` takes another count of numbers",
        41 => { "the task takes more turns than the line gives, or is too deep below its place" }
        62 => "no number is left for a frame, a grant, an epoch or a commit",
        70 => "the store is of a job of another number, see `--job`",
        71 => "the file is no store",
        72 => "the store's file can't be read or written any more",
        73 => "the file is a store of another version",
        _ => "",
    }
}

/// What is said of a fault of a text, behind what stands at its place.
pub(crate) fn said_of(number: u8) -> &'static str {
    match number {
        2 => "can't stand here",
        3 => "is a name of more than 31 bytes",
        4 => "is nested too deep, inside of more than 64",
        5 => "is a number over 9223372036854775807",
        6 => "is no byte of ASCII",
        11 => "is the name of something that is there already",
        12 => "is no thread",
        13 => "is no name that is known here",
        14 => "takes another count of arguments",
        15 => "is a number where a continuation is wanted, or the reverse",
        16 => "ends a block in which a hole isn't used",
        17 => "is a continuation that was used already",
        18 => "is one thread more than 64, or one number more than 8",
        _ => "is wrong",
    }
}

/// What is said of a fault at the end of a text.
pub(crate) fn said_at_end(number: u8) -> &'static str {
    match number {
        3 => "a text has at most 65,536 bytes",
        10 => "there is no thread `main`",
        _ => "the text ends where more is wanted",
    }
}
