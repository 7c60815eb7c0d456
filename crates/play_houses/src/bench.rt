//! The disk of a transcript, and what has it.

use checkpoint::Store;
use clearinghouse::House;
use disk::Disk;
use play_words::{Answers, keep};
use std::mem;

/// A disk, and what has it.
#[derive(Drop)]
pub enum Held<D: Disk> {
    /// Nothing has it.
    Bare(D),
    /// A store has it.
    Store(Store<D>),
    /// A clearinghouse has it.
    House(House<'static, D>),
}

/// The place of a disk.
#[derive(Drop)]
pub struct Bench<D: Disk> {
    /// The disk; none only while a command is carried out.
    pub held: Option<Held<D>>,
    /// Whether the transcript planned that calls of the disk fail.
    pub is_planned: bool,
}

impl<D: Disk> Bench<D> {
    /// A bare disk.
    pub fn of(disk: D, is_planned: bool) -> Bench<D> {
        Bench {
            held: Some(Held::Bare(disk)),
            is_planned,
        }
    }
}

impl<D: Disk + Drop> Bench<D> {
    /// Something has the disk again, which nothing had while a command was carried out.
    pub fn hold(&mut self, held: Held<D>) {
        keep(mem::replace(&mut self.held, Some(held)));
    }

    /// The same behind a command that takes the disk; none where it wasn't carried out.
    pub fn hold_behind(&mut self, (held, is_done): (Held<D>, bool)) -> Option<()> {
        self.hold(held);
        if is_done { Some(()) } else { None }
    }

    /// The disk is let go.
    pub fn empty(self) {
        match self.held {
            Some(Held::Bare(disk)) => {
                let _disk = disk;
            }
            Some(Held::Store(store)) => {
                let _disk = store.into_disk();
            }
            Some(Held::House(house)) => {
                let _disk = house.into_disk();
            }
            None => {}
        }
    }
}

/// Goes on behind a call of the device that failed, if the transcript planned that one fails; else
/// there was no memory.
pub fn go_on(is_planned: bool, out: &mut Answers) {
    if !is_planned {
        out.lack_memory();
    }
}
