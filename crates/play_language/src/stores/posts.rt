//! Ready frames by the levels of their places.

use super::words::{frame_at, range};
use ids::{FrameNo, GrantId};
use level_deques::{Post, PostTest, Posts};
use play_packets::{grant, write_field, write_framed};
use play_words::{Answers, CommandLine, keep};

/// Keeps the posts from a level on.
#[derive(Drop)]
struct FromLevel {
    level: u16,
}

impl PostTest for FromLevel {
    ghost use Rattle.std.specs.Prelude.{nat_lt, not};

    ghost stays = { λ test post. not (nat_lt post.level test.level) };

    fn stays(&self, post: &Post) -> bool {
        post.level >= self.level
    }
}

fn write_post(out: &mut Answers, post: Option<Post>) {
    match post {
        Some(post) => {
            out.text("> ");
            write_framed(out, post.grant, post.frame);
            write_field(out, " level ", u64::from(post.level));
            out.end();
        }
        None => out.line("none"),
    }
}

/// The level that a word is.
fn level(line: &CommandLine<'_>) -> Option<u16> {
    u16::try_from(line.number(2)?).ok()
}

/// Posts a frame; once more behind a refusal, which is when out of memory.
fn post(level: u16, grant: GrantId, frame: FrameNo, posts: &mut Posts, out: &mut Answers) {
    for _ in 0..2 {
        let posted = posts.post(Post {
            level,
            grant,
            frame,
        });
        match posted {
            Ok(()) => break,
            Err(_) => out.line("E9"),
        }
    }
}

/// Posts frames of a grant at a level.
fn write_posted(line: &CommandLine<'_>, posts: &mut Posts, out: &mut Answers) -> Option<()> {
    let level = level(line)?;
    let grant = grant(line.word(3)?)?;
    let (first, last) = range(line, 4)?;
    for number in first..=last {
        post(level, grant, FrameNo::of(number), posts, out);
    }
    out.counted(posts.len(), " posts");
    Some(())
}

/// Takes so many posts from an end: the last one.
fn taken(posts: &mut Posts, times: u64, is_shallow: bool) -> Option<Post> {
    let mut taken = None;
    for _ in 0..times {
        taken = if is_shallow {
            posts.take_shallowest()
        } else {
            posts.take_deepest()
        };
    }
    taken
}

/// Takes so many posts from an end, and writes the last one and how many are left.
fn write_taken(posts: &mut Posts, times: u64, is_shallow: bool, out: &mut Answers) {
    let taken = taken(posts, times, is_shallow);
    write_post(out, taken);
    out.counted(posts.len(), " posts");
}

/// Keeps the posts from a level on; those of a copy all stay, of which the shallowest is written.
fn write_retained(level: u16, posts: &mut Posts, out: &mut Answers) {
    for _ in 0..2 {
        match posts.clone() {
            Ok(copy) => {
                posts.retain(&FromLevel { level });
                write_field(out, "> ", posts.len() as u64);
                write_field(out, " posts, ", copy.len() as u64);
                out.text(" in a copy");
                out.end();
                write_post(out, copy.shallowest());
                keep(copy);
                break;
            }
            Err(_) => out.line("E9"),
        }
    }
}

/// Writes the deepest and the shallowest post, and all of them from the deepest on.
fn write_all(posts: &Posts, out: &mut Answers) {
    write_post(out, posts.deepest());
    write_post(out, posts.shallowest());
    out.counted(posts.len(), " posts");
    for index in 0..posts.len() {
        write_post(out, posts.at(index));
    }
}

/// A frame of a grant is taken out of the posts.
fn withdraw(line: &CommandLine<'_>, posts: &mut Posts, out: &mut Answers) -> Option<()> {
    let grant = grant(line.word(2)?)?;
    let frame = frame_at(line, 3)?;
    posts.withdraw(grant, frame);
    out.counted(posts.len(), " posts");
    Some(())
}

/// Plays a command on posts.
pub fn play_posts(line: &CommandLine<'_>, posts: &mut Posts, out: &mut Answers) -> Option<()> {
    match line.word(1)? {
        "post" => return write_posted(line, posts, out),
        "withdraw" => return withdraw(line, posts, out),
        "deepest" => write_taken(posts, line.number(2)?, false, out),
        "shallowest" => write_taken(posts, line.number(2)?, true, out),
        "retain" => write_retained(level(line)?, posts, out),
        "all" => write_all(posts, out),
        _ => return None,
    }
    Some(())
}
