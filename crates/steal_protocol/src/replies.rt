ghost use Rattle.std.specs.Prelude.{◌≡◌, IsSome, OnOk, OnErr, option_copied, length, []};
ghost use Rattle.steal_protocol.specs.Replies.{reply_in, put_reply, without_reply, heard, told, name_of_reply};

use codec::Packet;
use ids::{Count, Incarnation, Named, SortedMap, Values};
use std::alloc::{AllocError, Global};
use std::cmp::Ordering;
use std::marker::Model;

/// The last answer to a thief, and the count of the request that it answers.
#[derive(Drop)]
pub struct Reply {
    pub thief: Incarnation,
    pub seq: Count,
    pub packet: Packet,
}

/// A reply's name is its thief's.
impl Named for Reply {
    ghost name_of = { name_of_reply };

    fn name(&self) -> (u64, u64) {
        (self.thief.word(), 0)
    }
}

/// What a request is to a victim: older than the last one of its thief, the same again, with the
/// packet that answered it, or newer.
#[derive(Clone, Copy)]
pub enum Heard<'a> {
    Older,
    Again(&'a Packet),
    Newer,
}

/// The last answer to each thief. Contracts see the list of them, by rising thief.
#[derive(Drop)]
pub struct Replies {
    replies: SortedMap<Reply>,
}

impl Model for Replies {
    ghost use Rattle.std.specs.Prelude.{List};
    ghost use Rattle.steal_protocol.specs.declared.replies.Reply.{Reply};

    ghost Value = { List Reply };

    ghost view = { λ a. a.replies };
}

impl Replies {
    /// No thief was answered; takes no memory.
    pub fn new(alloc: Global) -> Replies
        ensures { result ≡ [] }
    {
        Replies {
            replies: SortedMap::new(alloc),
        }
    }

    /// How many thieves were answered.
    pub fn len(&self) -> usize
        ensures { result ≡ length self.now }
    {
        self.replies.len()
    }

    /// The last answer to a thief, if there was one.
    pub fn get(&self, thief: Incarnation) -> Option<&Reply>
        ensures { option_copied result ≡ reply_in thief self.now }
    {
        self.replies.get((thief.word(), 0))
    }

    /// The answers, by rising thief.
    pub fn values(&self) -> Values<'_, Reply>
        ensures { result ≡ self.now }
    {
        self.replies.values()
    }

    /// Whether a request of a thief is older than its last one, the same again, or newer. Takes no
    /// memory.
    #[tactic(auto, unfolding(crate::specs::Replies::by_order))]
    pub fn hear(&self, thief: Incarnation, seq: Count) -> Heard<'_>
        ensures { told result ≡ heard (reply_in thief self.now) seq }
    {
        let Some(reply) = self.get(thief) else {
            return Heard::Newer;
        };
        match seq.number().cmp(&reply.seq.number()) {
            Ordering::Less => Heard::Older,
            Ordering::Equal => Heard::Again(&reply.packet),
            Ordering::Greater => Heard::Newer,
        }
    }

    /// Keeps an answer in the place of the last one to its thief; refused only when out of memory,
    /// which changes nothing.
    pub fn keep(&mut self, reply: Reply) -> Result<(), AllocError>
        ensures ok { OnOk result (self.new ≡ put_reply reply self.old) }
        ensures err { OnErr result (self.new ≡ self.old) }
    {
        self.replies.put(reply)
    }

    /// Keeps an answer in the place of the last one to its thief, which there is; takes no memory.
    pub fn replace(&mut self, reply: Reply)
        requires { IsSome (reply_in reply.thief self.old) }
        ensures { self.new ≡ put_reply reply self.old }
    {
        self.replies.replace(reply);
    }

    /// Forgets the last answer to a thief; takes no memory.
    pub fn forget(&mut self, thief: Incarnation)
        ensures { self.new ≡ without_reply thief self.old }
    {
        self.replies.take((thief.word(), 0));
    }
}
