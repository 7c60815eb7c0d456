ghost use Rattle.std.specs.Prelude.{◌≡◌, None};
ghost use Rattle.steal_protocol.specs.Requests.{asked, IsAsked, is_pending, is_answered_by, without_request, settled};

use ids::{Actor, Count, GrantId, Status};
use std::marker::Model;
use thiserror::Error;

/// A request that waits for its answer: whom it went to, and how many requests the thief had made
/// with it.
#[derive(Clone, Copy, PartialEq, Eq, Debug)]
pub struct Request {
    pub victim: Actor,
    pub seq: Count,
}

/// Why no request is made.
#[derive(Clone, Copy, PartialEq, Eq, Debug, Error)]
#[error("E{number}", number = self.number())]
pub enum AskError {
    /// E61: a request waits for its answer.
    Busy,
    /// E62: as many requests were made as are counted.
    Spent,
}

impl AskError {
    ghost use Rattle.steal_protocol.specs.Errors.{number_of_error};

    /// The number of the error.
    pub fn number(self) -> u8
        ensures { result ≡ number_of_error self }
    {
        match self {
            AskError::Busy => ids::error_numbers::BUSY,
            AskError::Spent => ids::error_numbers::SPENT,
        }
    }
}

/// The one request of a thief, and how many it has made. Contracts see both.
#[derive(Drop)]
pub struct Asker {
    pending: Option<Request>,
    asked: u64,
}

impl Model for Asker {
    ghost use Rattle.steal_protocol.specs.Requests.{AskerOf};

    ghost Value = { AskerOf };

    ghost view = { λ a. record { pending = a.pending; asked = a.asked } };
}

impl Asker {
    /// A thief that has asked nobody.
    pub fn new() -> Asker
        ensures { result ≡ record { pending = None; asked = 0 } }
    {
        Asker {
            pending: None,
            asked: 0,
        }
    }

    /// The request that waits for its answer, if there is one.
    pub fn pending(&self) -> Option<Request>
        ensures { result ≡ self.now.pending }
    {
        self.pending
    }

    /// How many requests were made.
    pub fn asked(&self) -> u64
        ensures { result ≡ self.now.asked }
    {
        self.asked
    }

    /// Makes the next request, to a victim: E61 where one waits for its answer, E62 where 2^64 - 1
    /// were made. A refusal changes nothing.
    pub fn ask(&mut self, victim: Actor) -> Result<Request, AskError>
        ensures { IsAsked (asked victim self.old) self.old self.new result }
    {
        if self.pending.is_some() {
            return Err(AskError::Busy);
        }
        let Some(asked) = self.asked.checked_add(1) else {
            return Err(AskError::Spent);
        };
        let Some(seq) = Count::of(asked) else {
            return Err(AskError::Spent);
        };
        self.asked = asked;
        self.pending = Some(Request { victim, seq });
        Ok(Request { victim, seq })
    }

    /// Whether the request of that count waits for its answer.
    pub fn is_pending(&self, seq: Count) -> bool
        ensures { result ≡ is_pending seq self.now.pending }
    {
        matches!(self.pending, Some(request) if request.seq == seq)
    }

    /// Whether a grant answers the request that waits: it has its count, and the victim minted it.
    pub fn is_answered_by(&self, seq: Count, grant: GrantId) -> bool
        ensures { result ≡ is_answered_by seq grant self.now.pending }
    {
        matches!(self.pending, Some(request) if request.seq == seq && request.victim == grant.minter())
    }

    /// The request has its answer.
    pub fn clear(&mut self)
        ensures { self.new ≡ without_request self.old }
    {
        self.pending = None;
    }

    /// Forgets the request if this is said of its victim, and doesn't say that it lives.
    pub fn settle(&mut self, status: Option<Status>)
        ensures { self.new ≡ settled status self.old }
    {
        if matches!(status, Some(Status::Dead | Status::Left(_))) {
            self.pending = None;
        }
    }
}
