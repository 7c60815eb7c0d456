//! The disk of a transcript, its jobs and its packets.

use crate::bench::{Bench, Held};
use crate::device::play_disk;
use crate::file::{FailingFile, play_file};
use crate::house::{Desk, play_house};
use crate::job::Setting;
use crate::shown::{MOST_SHOWN, plan_in};
use crate::store::{play_epoch, play_store};
use disk::{Disk, FailOnce, FileDisk, MemDisk};
use play_packets::{Mail, write_bytes};
use play_words::{Answers, CommandLine, Played};
use std::alloc::Global;
use std::fs::File;
use std::io::{self, ErrorKind};
use std::mem;
use std::rt::{Env, Files};

/// The disk that is there.
#[derive(Drop)]
enum Place {
    /// None was made.
    Empty,
    /// A disk in memory.
    Memory(Bench<MemDisk>),
    /// One of which one chosen call fails.
    Once(Bench<FailOnce>),
    /// A disk over a file.
    File(Bench<FileDisk<File>>),
    /// A disk over a file that fails.
    Failing(Bench<FileDisk<FailingFile>>),
}

/// A disk and what is over it, the transcript's file, the job that is set, and all packets that
/// clearinghouses sent.
#[derive(Drop)]
pub struct Houses {
    place: Place,
    file: Option<File>,
    desk: Desk,
}

/// Plays a command on what there is over a disk. Where it plans that a call fails, this is kept.
fn play_over<D: Disk + Drop>(
    bench: &mut Bench<D>,
    desk: &mut Desk,
    line: &CommandLine<'_>,
    out: &mut Answers,
) -> Option<()> {
    match line.word(0)? {
        "disk" => play_disk(bench, desk.alloc, line, out)?,
        "store" => play_store(bench, desk.alloc, line, out)?,
        _ => play_house(bench, desk, line, out)?,
    }
    if line.word(1) == Some("arm") {
        bench.is_planned = true;
    }
    Some(())
}

/// The disk over a file, unless that fails, and writes which.
fn made<D: Drop>(answer: io::Result<D>, out: &mut Answers) -> Option<D> {
    match answer {
        Ok(disk) => {
            out.line("ok");
            Some(disk)
        }
        Err(error) => {
            if error.kind() == ErrorKind::OutOfMemory {
                out.lack_memory();
            } else {
                out.line("failed");
            }
            None
        }
    }
}

/// Shows the bytes of a packet.
fn write_packet_bytes(mail: &Mail, line: &CommandLine<'_>, out: &mut Answers) -> Option<()> {
    write_bytes(out, mail.named(line, 2)?, MOST_SHOWN);
    Some(())
}

/// A disk of which a call is chosen, which is to fail: the disk in memory, where it was bare, and
/// else what had it.
fn chosen(held: Held<MemDisk>, calls: u64, bytes: Vec<u8>) -> Result<FailOnce, Held<MemDisk>> {
    match held {
        Held::Bare(disk) => Ok(FailOnce::new(disk, calls, bytes)),
        other => Err(other),
    }
}

impl Houses {
    pub fn new(alloc: Global) -> Houses {
        Houses {
            place: Place::Empty,
            file: None,
            desk: Desk {
                alloc,
                mail: Mail::new(alloc, MOST_SHOWN),
                setting: Setting::new(alloc),
                is_brief: false,
            },
        }
    }

    /// Plays a command on a disk, a store, a clearinghouse or a file, and writes what it answers.
    pub fn play<R: Env + Files<File = File> + AllocGlobal>(
        &mut self,
        rt: &R,
        line: &CommandLine<'_>,
        out: &mut Answers,
    ) -> Played {
        Played::of(match line.word(0).unwrap_or("") {
            "disk" => self.play_disk(line, out),
            "store" => self.play_store(line, out),
            "house" => self.play_house(line, out),
            "file" => play_file(&mut self.file, rt, line, out),
            _ => return Played::NotMine,
        })
    }

    fn play_disk(&mut self, line: &CommandLine<'_>, out: &mut Answers) -> Option<()> {
        match line.word(1)? {
            "new" => self.in_memory(),
            "fails" => self.fail(line, out),
            "file" => self.over_file(out),
            "failing" => self.over_failing_file(line, out),
            _ => self.play_on(line, out),
        }
    }

    fn play_store(&mut self, line: &CommandLine<'_>, out: &mut Answers) -> Option<()> {
        match line.word(1)? {
            "epoch" => play_epoch(line, out),
            _ => self.play_on(line, out),
        }
    }

    fn play_house(&mut self, line: &CommandLine<'_>, out: &mut Answers) -> Option<()> {
        let (verb, desk) = (line.word(1)?, &mut self.desk);
        match verb {
            "program" => desk.setting.set_program(desk.alloc, line.rest(2), out),
            "input" => desk.setting.set_input(desk.alloc, line, out),
            "job" => desk.setting.set_number(line.number(2)),
            "same" => desk.mail.write_same(line, 2, out),
            "hex" => write_packet_bytes(&desk.mail, line, out),
            "brief" | "full" => {
                desk.is_brief = verb == "brief";
                Some(())
            }
            _ => self.play_on(line, out),
        }
    }

    /// Plays a command on what there is over the disk.
    fn play_on(&mut self, line: &CommandLine<'_>, out: &mut Answers) -> Option<()> {
        let desk = &mut self.desk;
        match &mut self.place {
            Place::Empty => None,
            Place::Memory(bench) => play_over(bench, desk, line, out),
            Place::Once(bench) => play_over(bench, desk, line, out),
            Place::File(bench) => play_over(bench, desk, line, out),
            Place::Failing(bench) => play_over(bench, desk, line, out),
        }
    }

    /// There is another disk; what was there is let go.
    fn move_to(&mut self, place: Place) {
        match mem::replace(&mut self.place, place) {
            Place::Empty => {}
            Place::Memory(bench) => bench.empty(),
            Place::Once(bench) => bench.empty(),
            Place::File(bench) => bench.empty(),
            Place::Failing(bench) => bench.empty(),
        }
    }

    /// An empty disk in memory.
    fn in_memory(&mut self) -> Option<()> {
        self.move_to(Place::Memory(Bench::of(MemDisk::new(self.desk.alloc), false)));
        Some(())
    }

    /// A call of the bare disk in memory is chosen, which is to fail.
    fn fail(&mut self, line: &CommandLine<'_>, out: &mut Answers) -> Option<()> {
        let (calls, bytes) = plan_in(self.desk.alloc, line, out)?;
        let Place::Memory(bench) = &mut self.place else {
            return None;
        };
        match bench.held.take() {
            Some(held) => self.choose(held, calls, bytes),
            None => None,
        }
    }

    /// The disk in memory, or what has it, stands in its place again, chosen to fail where it is
    /// bare.
    fn choose(&mut self, held: Held<MemDisk>, calls: u64, bytes: Vec<u8>) -> Option<()> {
        match chosen(held, calls, bytes) {
            Ok(disk) => {
                self.move_to(Place::Once(Bench::of(disk, true)));
                Some(())
            }
            Err(held) => {
                if let Place::Memory(bench) = &mut self.place {
                    bench.hold(held);
                }
                None
            }
        }
    }

    /// A disk over the transcript's file.
    fn over_file(&mut self, out: &mut Answers) -> Option<()> {
        match self.file.as_ref()?.try_clone() {
            Ok(file) => {
                if let Some(disk) = made(FileDisk::new(self.desk.alloc, file), out) {
                    self.move_to(Place::File(Bench::of(disk, false)));
                }
            }
            Err(error) => out.fail(&error),
        }
        Some(())
    }

    /// A disk over a file of which a call fails.
    fn over_failing_file(&mut self, line: &CommandLine<'_>, out: &mut Answers) -> Option<()> {
        let file = FailingFile::after(line.number(2)?);
        if let Some(disk) = made(FileDisk::new(self.desk.alloc, file), out) {
            self.move_to(Place::Failing(Bench::of(disk, true)));
        }
        Some(())
    }
}
