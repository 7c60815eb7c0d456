//! The nodes of a transcript.

use crate::job::Setting;
use crate::named::{call_in, turn_call, turn_words};
use crate::player::{Answer, Call, Player};
use crate::post::{in_words, make, sent_before, write_hex, write_step};
use crate::views::{write_ready, write_subs};
use ids::Incarnation;
use node_core::{NodeError, Step};
use play_packets::{Mail, numbers};
use play_words::{Answers, CommandLine, Played, bytes_of_hex, keep};
use serial_meaning::Job;
use std::alloc::Global;

/// The nodes that are up, all packets that were sent, and whether those that a call sends are left
/// out.
#[derive(Drop)]
pub struct Nodes {
    setting: Setting,
    players: Vec<Player>,
    mail: Mail,
    is_brief: bool,
}

/// Where a worker stands among the nodes.
fn place_of(players: &[Player], word: u64) -> Option<usize> {
    for (at, player) in players.iter().enumerate() {
        if player.word == word {
            return Some(at);
        }
    }
    None
}

fn player_of(players: &mut Vec<Player>, word: u64) -> Option<&mut Player> {
    let at = place_of(players, word)?;
    players.get_mut(at)
}

/// A worker starts; once more behind a refusal, which is when out of memory.
fn started(
    alloc: Global,
    job: &'static Job,
    worker: Incarnation,
    out: &mut Answers,
) -> Option<(Player, Step)> {
    for _ in 0..2 {
        match Player::start(alloc, job, worker) {
            Ok(begun) => return Some(begun),
            Err(refused) => out.refusal_number(refused.number()),
        }
    }
    None
}

/// What a call comes to; once more behind a refusal when out of memory.
fn answered(alloc: Global, player: &mut Player, call: &Call<'_>, out: &mut Answers) -> Answer {
    match player.call(alloc, call) {
        Answer::Refused(NodeError::Memory) => {
            out.line("E63");
            player.call(alloc, call)
        }
        answer => answer,
    }
}

impl Nodes {
    pub fn new(alloc: Global) -> Nodes {
        Nodes {
            setting: Setting::new(alloc),
            players: Vec::new(alloc),
            mail: Mail::new(alloc, usize::MAX),
            is_brief: false,
        }
    }

    /// Plays a command on nodes, and writes what it answers.
    pub fn play(&mut self, alloc: Global, line: &CommandLine<'_>, out: &mut Answers) -> Played {
        let name = line.word(0).unwrap_or("");
        let done = match name {
            "program" => {
                self.setting.program(alloc, line, out);
                Some(())
            }
            "input" => self.setting.input(alloc, line, out),
            "job" => self.setting.number(line),
            "make" => make(alloc, &mut self.mail, line, out),
            "same" => self.mail.write_same(line, 1, out),
            "hex" => write_hex(&self.mail, line, out),
            "brief" | "full" => {
                self.is_brief = name == "brief";
                Some(())
            }
            _ => {
                return match line.number(1) {
                    Some(word) => self.play_at(alloc, name, word, line, out),
                    None => Played::NotMine,
                };
            }
        };
        Played::of(done)
    }

    /// Plays a command whose first word behind its name is a worker's.
    fn play_at(
        &mut self,
        alloc: Global,
        name: &str,
        word: u64,
        line: &CommandLine<'_>,
        out: &mut Answers,
    ) -> Played {
        Played::of(match name {
            "start" => self.start(alloc, word, out),
            "crash" => self.crash(word),
            "give" => self.give(alloc, line, out),
            "exec" => self.exec(alloc, line, out),
            "ask" | "run" | "whole" | "depart" | "resend" => self.call_by(alloc, line, out),
            "ready" => self.ready(alloc, word, out),
            "subs" => self.subs(alloc, word, out),
            _ => return Played::NotMine,
        })
    }

    fn start(&mut self, alloc: Global, word: u64, out: &mut Answers) -> Option<()> {
        let worker = Incarnation::worker(word)?;
        if place_of(&self.players, word).is_some() {
            return None;
        }
        let job = self.setting.job(alloc, out)?;
        if let Some((player, step)) = started(alloc, job, worker, out) {
            self.add(player, out);
            write_step(alloc, &mut self.mail, self.is_brief, word, step, out);
        }
        Some(())
    }

    fn add(&mut self, player: Player, out: &mut Answers) {
        if let Err(refused) = self.players.push(player) {
            out.lack_memory();
            keep(refused.value);
        }
    }

    fn crash(&mut self, word: u64) -> Option<()> {
        let at = place_of(&self.players, word)?;
        if at < self.players.len() {
            keep(self.players.remove(at));
        }
        Some(())
    }

    /// What a call comes to that the words name.
    fn call_by(&mut self, alloc: Global, line: &CommandLine<'_>, out: &mut Answers) -> Option<()> {
        let word = line.number(1)?;
        match call_in(line) {
            Some(call) => self.call(alloc, word, &call, out),
            None => None,
        }
    }

    /// A frame runs by its own turn, or by the one that the words name.
    fn exec(&mut self, alloc: Global, line: &CommandLine<'_>, out: &mut Answers) -> Option<()> {
        if line.word(4).is_none() {
            return self.call_by(alloc, line, out);
        }
        let word = line.number(1)?;
        let (thread, on) = turn_words(line)?;
        let numbers = numbers(alloc, on, out)?;
        match turn_call(line, thread, numbers.as_slice()) {
            Some(call) => self.call(alloc, word, &call, out),
            None => None,
        }
    }

    /// What a call of a worker's node comes to.
    fn call(&mut self, alloc: Global, word: u64, call: &Call<'_>, out: &mut Answers) -> Option<()> {
        let player = player_of(&mut self.players, word)?;
        match answered(alloc, player, call, out) {
            Answer::Does(step) => {
                write_step(alloc, &mut self.mail, self.is_brief, word, step, out);
            }
            Answer::Refused(refused) => out.refusal_number(refused.number()),
            Answer::Idle => out.line("nothing ready"),
            Answer::NoTurn => return None,
        }
        Some(())
    }

    /// Carries a packet to a worker: bytes, a packet in words, or one that was sent.
    fn give(&mut self, alloc: Global, line: &CommandLine<'_>, out: &mut Answers) -> Option<()> {
        let word = line.number(1)?;
        if line.word(2)? == "bytes" {
            let bytes = bytes_of_hex(alloc, line.rest(3), out)?;
            return self.call(alloc, word, &Call::Hear(&bytes), out);
        }
        if line.word(3).unwrap_or("").contains('=') {
            let datagram = in_words(alloc, line, 2, out)?;
            return self.call(alloc, word, &Call::Hear(datagram.as_bytes()), out);
        }
        let bytes = sent_before(alloc, &self.mail, word, line, out)?;
        self.call(alloc, word, &Call::Hear(&bytes), out)
    }

    fn ready(&self, alloc: Global, word: u64, out: &mut Answers) -> Option<()> {
        let at = place_of(&self.players, word)?;
        write_ready(alloc, self.players.get(at)?, out);
        Some(())
    }

    fn subs(&self, alloc: Global, word: u64, out: &mut Answers) -> Option<()> {
        let at = place_of(&self.players, word)?;
        write_subs(alloc, self.players.get(at)?, out);
        Some(())
    }
}
