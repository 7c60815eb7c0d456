use crate::leavers::Leavers;
use codec::{Body, ReadError, decode};
use event_script::Asked;
use ids::{Member, Status};
use rand_core::SeedableRng;
use rand_core::utils::NextWord;
use rand_pcg::Pcg32;
use std::alloc::Global;

/// How far behind a place's fates its victims are drawn.
const VICTIMS: u64 = 128;

/// Who is listed, by the last roster that a node took, whom it asked last, and the generator by
/// which it draws whom it asks.
#[derive(Drop)]
pub struct Members {
    listed: Vec<Member>,
    /// The start word of the worker that was asked last. One request is out at a time, and a node
    /// may leave only where none is: so that worker has answered then, or isn't live.
    asked: Option<u64>,
    victims: Pcg32,
}

impl Members {
    /// Nobody is listed yet, at a place, by a fault word.
    pub fn new(alloc: Global, word: u64, place: u64) -> Members {
        Members {
            listed: Vec::new(alloc),
            asked: None,
            victims: Pcg32::seed_from_u64(word.wrapping_add(place).wrapping_add(VICTIMS)),
        }
    }

    /// Nobody is listed any more.
    pub fn forget(&mut self) {
        self.listed.clear();
        self.asked = None;
    }

    /// A node took a roster: its members are listed. Bytes that spell none are passed over. Whether
    /// there was memory to read them: a node that has missed a roster may get no other one, and
    /// would ask nobody.
    pub fn take(&mut self, alloc: Global, roster: &[u8]) -> bool {
        match decode(alloc, roster) {
            Ok(packet) => {
                if let Body::Roster(roster) = packet.into_body() {
                    self.listed = roster.members.into_vec();
                }
                true
            }
            Err(ReadError::Fault(_)) => true,
            Err(ReadError::Memory) => false,
        }
    }

    /// Whom a node of a start word asks next: drawn among the clearinghouse and the other live
    /// members. None where nobody is listed.
    pub fn victim(&mut self, word: u64) -> Option<Asked> {
        if self.listed.is_empty() {
            return None;
        }
        let mut others = 0u64;
        for member in &self.listed {
            if is_other(member, word) {
                others = others.saturating_add(1);
            }
        }
        let drawn = u64::from(self.victims.next_word()) % others.saturating_add(1);
        Some(match self.other(word, drawn) {
            Some(other) => Asked::Worker(other),
            None => Asked::House,
        })
    }

    /// The node asked somebody for work.
    pub fn ask(&mut self, victim: Asked) {
        if let Asked::Worker(word) = victim {
            self.asked = Some(word);
        }
    }

    /// To whom a node of a start word may leave: of the other live members that don't leave
    /// themselves the one that it asked last, as that one was there a while ago; else the one that
    /// started last, as those that crashed started before.
    pub fn heir(&self, word: u64, leavers: &Leavers) -> Option<u64> {
        let mut heir = None;
        for member in &self.listed {
            if is_other(member, word) && !leavers.is_leaver(member.incarnation.word()) {
                heir = Some(member.incarnation.word());
                if heir == self.asked {
                    break;
                }
            }
        }
        heir
    }

    /// The start word of the other live member that comes after so many.
    fn other(&self, word: u64, before: u64) -> Option<u64> {
        let mut left = before;
        for member in &self.listed {
            if !is_other(member, word) {
                continue;
            }
            if left == 0 {
                return Some(member.incarnation.word());
            }
            left -= 1;
        }
        None
    }
}

/// Whether a member is live, and another one than the node of a start word.
fn is_other(member: &Member, word: u64) -> bool {
    member.status == Status::Live && member.incarnation.word() != word
}
