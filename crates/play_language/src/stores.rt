//! What a node is made of, each by itself: its frames, the posts of its ready frames, its records,
//! the heirs of a roster, its requests and its answers; and values that were saved.

mod asker;
mod bearers;
mod kept;
mod posts;
mod records;
mod replies;
mod saved;
mod words;

use asker::play_asker;
use bearers::play_heirs;
use frames::Frames;
use kept::play_frames;
use level_deques::Posts;
use play_words::{Answers, CommandLine, Played};
use posts::play_posts;
use records::play_records;
use replies::play_replies;
use saved::play_saved;
use saved_values::SavedTable;
use std::alloc::Global;
use steal_protocol::{Asker, Replies};
use victim_records::Records;

/// One of each.
#[derive(Drop)]
pub struct Stores {
    frames: Frames,
    posts: Posts,
    records: Records,
    asker: Asker,
    replies: Replies,
    saved: SavedTable,
}

impl Stores {
    pub fn new(alloc: Global) -> Stores {
        Stores {
            frames: Frames::new(alloc),
            posts: Posts::new(alloc),
            records: Records::new(alloc),
            asker: Asker::new(),
            replies: Replies::new(alloc),
            saved: SavedTable::new(),
        }
    }

    /// Plays a command on one of them, and writes what it answers.
    pub fn play(&mut self, alloc: Global, line: &CommandLine<'_>, out: &mut Answers) -> Played {
        Played::of(match line.word(0).unwrap_or("") {
            "frames" => play_frames(alloc, line, &mut self.frames, out),
            "posts" => play_posts(line, &mut self.posts, out),
            "records" => play_records(alloc, line, &mut self.records, out),
            "heirs" => play_heirs(alloc, line, out),
            "asker" => play_asker(line, &mut self.asker, out),
            "replies" => play_replies(alloc, line, &mut self.replies, out),
            "saved" => play_saved(alloc, line, &mut self.saved, out),
            _ => return Played::NotMine,
        })
    }
}
