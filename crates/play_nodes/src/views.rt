//! What a node shows when it is asked.

use crate::player::Player;
use crate::shown::{write_sub, write_work};
use node_core::SubView;
use play_words::{Answers, keep};
use std::alloc::Global;

/// The work behind so many others; once more behind a refusal, which is when out of memory. Whether
/// there is any.
fn write_ready_at(alloc: Global, player: &Player, index: usize, out: &mut Answers) -> bool {
    for _ in 0..2 {
        match player.ready_at(alloc, index) {
            Ok(Some(work)) => {
                write_work(out, &work);
                keep(work);
                return true;
            }
            Ok(None) => return false,
            Err(refused) => out.refusal_number(refused.number()),
        }
    }
    false
}

/// All work of a node that is ready.
pub fn write_ready(alloc: Global, player: &Player, out: &mut Answers) {
    for index in 0..usize::MAX {
        if !write_ready_at(alloc, player, index, out) {
            if index == 0 {
                out.line("nothing ready");
            }
            break;
        }
    }
}

fn write_views(out: &mut Answers, subs: &[SubView]) {
    if subs.is_empty() {
        out.line("nothing held");
    }
    for view in subs {
        write_sub(out, view);
    }
}

/// What a node holds; once more behind a refusal, which is when out of memory.
pub fn write_subs(alloc: Global, player: &Player, out: &mut Answers) {
    for _ in 0..2 {
        match player.subs(alloc) {
            Ok(subs) => {
                write_views(out, subs.as_slice());
                keep(subs);
                break;
            }
            Err(refused) => out.refusal_number(refused.number()),
        }
    }
}
