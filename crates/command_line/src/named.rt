//! The files that a command line names.

use crate::misuse::Misuse;
use crate::words::Subcommand;
use std::alloc::{AllocError, Global};
use std::fmt::{self, Display, Formatter};
use std::fs::{self, Metadata};
use std::os::unix::fs::MetadataExt;
use std::path::Path;
use std::rt::Files;

/// What is read or written: the file of a program's text, of a script and of a store, the file
/// beside the store, the files of a trace, a log and a picture or of a merged script, the folder of
/// traces, and standard output.
#[derive(Clone, Copy, Debug, PartialEq, Eq)]
pub enum Place {
    Text,
    Script,
    Store,
    Beside,
    Trace,
    Log,
    Out,
    Folder,
    StandardOutput,
}

/// Those that are files, the ones that are read alone first.
const FILES: [Place; 7] = [
    Place::Text,
    Place::Script,
    Place::Store,
    Place::Beside,
    Place::Trace,
    Place::Log,
    Place::Out,
];

impl Display for Place {
    fn fmt<W: fmt::Write>(&self, f: &mut Formatter<W>) -> fmt::Result {
        f.write_str(match self {
            Place::Text => "FILE",
            Place::Script => "SCRIPT",
            Place::Store => "`--store`",
            Place::Beside => "the file beside `--store`",
            Place::Trace => "`--trace`",
            Place::Log => "`--log`",
            Place::Out => "`-o`",
            Place::Folder => "a trace in FOLDER",
            Place::StandardOutput => "standard output",
        })
    }
}

/// The files that a command line names, where it does. Beside a store lies a file that says whose
/// it is.
#[derive(Clone, Copy)]
pub struct Named<'a> {
    pub text: Option<&'a str>,
    pub script: Option<&'a str>,
    pub store: Option<&'a str>,
    pub beside: Option<&'a str>,
    pub trace: Option<&'a str>,
    pub log: Option<&'a str>,
    pub out: Option<&'a str>,
    pub folder: Option<&'a str>,
}

impl<'a> Named<'a> {
    /// Those of a program's text.
    fn of(text: Option<&'a str>) -> Named<'a> {
        Named {
            text,
            script: None,
            store: None,
            beside: None,
            trace: None,
            log: None,
            out: None,
            folder: None,
        }
    }

    /// Those of a request, the file beside its store among them.
    pub fn by(request: &Subcommand<'a>, beside: Option<&'a str>) -> Named<'a> {
        match request {
            Subcommand::Check(file) | Subcommand::Print(file) => Named::of(Some(*file)),
            Subcommand::Serial(words) => Named::of(Some(words.file)),
            Subcommand::Run(words) => Named {
                store: words.store,
                beside,
                trace: words.trace,
                log: words.log,
                ..Named::of(Some(words.job.file))
            },
            Subcommand::Replay(words) => Named {
                script: Some(words.script),
                ..Named::of(Some(words.file))
            },
            Subcommand::Draw(words) => Named {
                script: Some(words.replay.script),
                out: words.out,
                ..Named::of(Some(words.replay.file))
            },
            Subcommand::Merge(words) => Named {
                out: words.out,
                folder: Some(words.folder),
                ..Named::of(None)
            },
            Subcommand::Store(path) => Named {
                store: Some(*path),
                ..Named::of(None)
            },
        }
    }

    /// The path of one of them, if it is named; standard output has none.
    pub fn path(&self, place: Place) -> Option<&'a str> {
        match place {
            Place::Text => self.text,
            Place::Script => self.script,
            Place::Store => self.store,
            Place::Beside => self.beside,
            Place::Trace => self.trace,
            Place::Log => self.log,
            Place::Out => self.out,
            Place::Folder => self.folder,
            Place::StandardOutput => None,
        }
    }

    /// Two words that name one file, to one of which at least would be written.
    pub fn one_file<R: Files>(&self, rt: &R) -> Option<Misuse> {
        for (index, place) in FILES.iter().enumerate() {
            for other in FILES.iter().take(index) {
                if self.is_twice(rt, *other, *place) {
                    return Some(Misuse::OneFile(*other, *place));
                }
            }
        }
        None
    }

    /// Whether two words name one file, and what is meant by the second one is written.
    fn is_twice<R: Files>(&self, rt: &R, first: Place, second: Place) -> bool {
        match (self.path(first), self.path(second)) {
            (Some(path), Some(other)) => second != Place::Script && is_one_file(rt, path, other),
            _ => false,
        }
    }
}

/// The file beside a store, which says whose it is.
pub fn beside_of(alloc: Global, store: &str) -> Result<String, AllocError> {
    String::format(alloc, format_args!("{store}.job"))
}

/// The folder of a file.
pub fn folder_of(path: &str) -> &str {
    match Path::new(path).parent() {
        Some(folder) if !folder.as_str().is_empty() => folder.as_str(),
        _ => ".",
    }
}

/// Whether two paths name one file: by their texts, or both that of one node, or the same entry of
/// one folder that isn't there yet.
pub fn is_one_file<R: Files>(rt: &R, first: &str, second: &str) -> bool {
    if is_one_text(first, second) {
        return true;
    }
    match (fs::metadata(rt, first), fs::metadata(rt, second)) {
        (Ok(one), Ok(other)) => one.is_file() && is_one_node(&one, &other),
        (Err(_), Err(_)) => is_one_entry(rt, first, second),
        _ => false,
    }
}

/// Whether two paths are one but for slashes and dots that tell nothing.
fn is_one_text(first: &str, second: &str) -> bool {
    let (first, second) = (Path::new(first), Path::new(second));
    first.strip_prefix(".").unwrap_or(first) == second.strip_prefix(".").unwrap_or(second)
}

fn is_one_node(one: &Metadata, other: &Metadata) -> bool {
    one.dev() == other.dev() && one.ino() == other.ino()
}

/// Whether two paths end in one name, in one folder.
fn is_one_entry<R: Files>(rt: &R, first: &str, second: &str) -> bool {
    let (Some(name), Some(other)) = (Path::new(first).file_name(), Path::new(second).file_name())
    else {
        return false;
    };
    match (
        fs::metadata(rt, folder_of(first)),
        fs::metadata(rt, folder_of(second)),
    ) {
        (Ok(folder), Ok(place)) => name == other && is_one_node(&folder, &place),
        _ => false,
    }
}
