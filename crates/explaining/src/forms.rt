//! The events of a script, by their words.

use crate::place::part;

/// An event's name.
#[derive(Clone, Copy, PartialEq, Eq)]
pub(crate) enum Form {
    Start,
    Exec,
    Whole,
    Deliver,
    Ask,
    Resend,
    Depart,
    Crash,
    HouseDeliver,
    HouseTick,
    HouseCrash,
    HouseRestart,
    Cut,
}

const FORMS: [Form; 13] = [
    Form::Start,
    Form::Exec,
    Form::Whole,
    Form::Deliver,
    Form::Ask,
    Form::Resend,
    Form::Depart,
    Form::Crash,
    Form::HouseDeliver,
    Form::HouseTick,
    Form::HouseCrash,
    Form::HouseRestart,
    Form::Cut,
];

impl Form {
    /// The name that a word is.
    pub(crate) fn of(word: &[u8]) -> Option<Form> {
        for form in FORMS {
            if form.word().as_bytes() == word {
                return Some(form);
            }
        }
        None
    }

    /// A name that a word is but for one letter, for two that changed places, or for capitals.
    pub(crate) fn near(word: &[u8]) -> Option<Form> {
        for form in FORMS {
            if is_near(form.word().as_bytes(), word) {
                return Some(form);
            }
        }
        None
    }

    pub(crate) fn word(self) -> &'static str {
        match self {
            Form::Start => "start",
            Form::Exec => "exec",
            Form::Whole => "whole",
            Form::Deliver => "deliver",
            Form::Ask => "ask",
            Form::Resend => "resend",
            Form::Depart => "depart",
            Form::Crash => "crash",
            Form::HouseDeliver => "house-deliver",
            Form::HouseTick => "house-tick",
            Form::HouseCrash => "house-crash",
            Form::HouseRestart => "house-restart",
            Form::Cut => "cut",
        }
    }

    /// How many words stand behind the name; of a `cut` those in front of the event that it stops.
    pub(crate) fn count(self) -> usize {
        match self {
            Form::HouseCrash | Form::HouseRestart => 0,
            Form::Resend | Form::Crash | Form::HouseDeliver | Form::HouseTick => 1,
            Form::Start | Form::Deliver | Form::Ask | Form::Depart | Form::Cut => 2,
            Form::Exec => 4,
            Form::Whole => 5,
        }
    }

    /// What it takes.
    pub(crate) fn takes(self) -> &'static str {
        match self {
            Form::Start => "takes 2 numbers: a place and a start word",
            Form::Exec => "takes 4 numbers: a place, a grant's minter and number, and a frame",
            Form::Whole => {
                "takes 5 numbers: a place, a grant's minter and number, a frame, and how many turns it may take"
            }
            Form::Deliver => "takes 2 numbers: a place and a packet",
            Form::Ask => "takes a place, and a start word or `house`",
            Form::Resend | Form::Crash => "takes 1 number: a place",
            Form::Depart => "takes 2 numbers: a place and the heir's start word",
            Form::HouseDeliver => "takes 1 number: a packet",
            Form::HouseTick => "takes 1 number: a moment",
            Form::HouseCrash | Form::HouseRestart => "takes no numbers",
            Form::Cut => {
                "takes a number of calls, bytes, and `house-deliver I`, `house-tick T` or `house-restart`"
            }
        }
    }

    /// Whether its first number is a place.
    pub(crate) fn has_place(self) -> bool {
        matches!(
            self,
            Form::Start
                | Form::Exec
                | Form::Whole
                | Form::Deliver
                | Form::Ask
                | Form::Resend
                | Form::Depart
                | Form::Crash
        )
    }

    /// Whether a `cut` can stop it.
    pub(crate) fn can_be_cut(self) -> bool {
        matches!(
            self,
            Form::HouseDeliver | Form::HouseTick | Form::HouseRestart
        )
    }
}

fn is_same(a: u8, b: u8) -> bool {
    a.to_ascii_lowercase() == b.to_ascii_lowercase()
}

/// How many bytes two words have alike in front.
fn front(a: &[u8], b: &[u8]) -> usize {
    let mut len = 0usize;
    for (x, y) in a.iter().zip(b.iter()) {
        if !is_same(*x, *y) {
            break;
        }
        len = len.saturating_add(1);
    }
    len
}

/// How many bytes two words have alike behind.
fn back(a: &[u8], b: &[u8]) -> usize {
    let mut len = 0usize;
    for (x, y) in a.iter().rev().zip(b.iter().rev()) {
        if !is_same(*x, *y) {
            break;
        }
        len = len.saturating_add(1);
    }
    len
}

/// Whether two words differ in one letter at most, of which one of them may have none, or in two
/// that changed places.
fn is_near(a: &[u8], b: &[u8]) -> bool {
    let front = front(a, b);
    let (a, b) = (part(a, front, a.len()), part(b, front, b.len()));
    let back = back(a, b);
    let (a, b) = (
        part(a, 0, a.len().saturating_sub(back)),
        part(b, 0, b.len().saturating_sub(back)),
    );
    match (a, b) {
        ([v, w], [x, y]) => is_same(*v, *y) && is_same(*w, *x),
        _ => a.len() < 2 && b.len() < 2,
    }
}
