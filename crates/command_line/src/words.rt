use crate::helps;
use crate::misuse::{Misuse, NoCommand, is_command};
use crate::named::Place;
use clap::{Arg, ArgAction, ArgMatches, Command, Error, value_parser};
use replaying::{
    ReplayWords, WordsFault, explain_word, file_word, flag, help_of, input_of, input_word,
    names_word, number_word, packets_word, replay_words_of, with_replay_words,
};
use std::alloc::{AllocError, Global};
use std::convert::AsStr;

/// What a command line comes to.
#[derive(Drop)]
pub enum Asked<'a> {
    /// It asks for a command.
    Command(Words<'a>),
    /// It asks for a text: a help, or the version.
    Text(String),
    /// A fault of usage, or being out of memory; and what is wrong, where one of the words asks to
    /// explain it.
    Fault(WordsFault, Option<String>),
}

/// A command line: what it asks for, whether a fault is to be explained, and whether what was
/// counted is to be told.
#[derive(Drop)]
pub struct Words<'a> {
    pub request: Subcommand<'a>,
    pub explain: bool,
    pub stats: bool,
}

/// What the words of a command line ask for.
#[derive(Drop)]
pub enum Subcommand<'a> {
    /// Whether the program of a file is accepted.
    Check(&'a str),
    /// The one form of the text of a file.
    Print(&'a str),
    /// The serial meaning of a job.
    Serial(JobWords<'a>),
    /// A run of a job.
    Run(RunWords<'a>),
    /// A replay of a script on a job.
    Replay(ReplayWords<'a>),
    /// A picture of a replay.
    Draw(DrawWords<'a>),
    /// The traces of a folder in one order.
    Merge(MergeWords<'a>),
    /// What the store in a file keeps.
    Store(&'a str),
}

/// The job of a request, and the turns that it may take.
#[derive(Drop)]
pub struct JobWords<'a> {
    pub file: &'a str,
    pub turns: u64,
    pub job: u64,
    pub input: Vec<i64>,
}

/// A picture: the replay that it shows, whether it leaves out who takes part and is there, and the
/// file to which it is written, if one is named.
#[derive(Drop)]
pub struct DrawWords<'a> {
    pub replay: ReplayWords<'a>,
    pub work: bool,
    pub out: Option<&'a str>,
}

/// A merge: the folder of the traces, and the file to which the script is written, if one is named.
#[derive(Drop)]
pub struct MergeWords<'a> {
    pub folder: &'a str,
    pub out: Option<&'a str>,
}

/// The faults that a run asks for: the word from which they are drawn, of how many packets one is
/// lost and one repeated, none where that is 0, behind how many events nodes crash and leave, and
/// how many do.
#[derive(Clone, Copy)]
pub struct FaultWords {
    pub word: u64,
    pub lose: u64,
    pub repeat: u64,
    pub after: u64,
    pub crashes: u64,
    pub departures: u64,
}

/// A run: its job, how many nodes and how many body workers each, in at most how many turns a task
/// is evaluated whole, if that is said, the faults, the file of a store that keeps its outcome, and
/// the files to which its trace and its log are written, where they are named.
#[derive(Drop)]
pub struct RunWords<'a> {
    pub job: JobWords<'a>,
    pub nodes: u64,
    pub bodies: u64,
    pub grain: Option<u64>,
    pub faults: FaultWords,
    pub store: Option<&'a str>,
    pub trace: Option<&'a str>,
    pub log: Option<&'a str>,
}

impl<'a> RunWords<'a> {
    /// Whether nothing asks for threads: one node with one body worker and without faults, of which
    /// each turn is taken by itself unless it is said otherwise, no outcome is kept, and no trace
    /// and no log is written.
    pub fn is_alone(&self) -> bool {
        self.nodes == 1
            && self.bodies == 1
            && self.grain.unwrap_or(0) == 0
            && !self.has_faults()
            && self.store.is_none()
            && self.trace.is_none()
            && self.log.is_none()
    }

    /// Whether packets are lost or repeated, or nodes crash or leave.
    fn has_faults(&self) -> bool {
        self.faults.lose != 0
            || self.faults.repeat != 0
            || self.faults.crashes != 0
            || self.faults.departures != 0
    }

    /// In at most how many turns a task is evaluated whole. Where it isn't said, and the run is one
    /// for trying the protocol or reading it, under faults or with a trace, each frame takes its
    /// own turn.
    pub fn grain(&self) -> u64 {
        match self.grain {
            Some(grain) => grain,
            None if self.has_faults() || self.trace.is_some() => 0,
            None => GRAIN,
        }
    }

    /// Why the words disagree, if they do.
    pub fn misuse(&self) -> Option<Misuse> {
        if self.nodes < 1 || self.nodes > 64 {
            return Some(Misuse::Nodes(self.nodes));
        }
        if self.bodies < 1 || self.bodies > 8 {
            return Some(Misuse::Bodies(self.bodies));
        }
        if self.faults.departures >= self.nodes {
            return Some(Misuse::Departures(self.faults.departures, self.nodes));
        }
        if self.store.is_some() && self.trace.is_some() {
            return Some(Misuse::Together(Place::Store, Place::Trace));
        }
        None
    }
}

const ABOUT: &str = "Runs functional Cilk programs, and tells what they mean.";

const CHECK: &str = "Reads a program and checks its kinds";

const PRINT: &str = "Prints a program's text in its one form";

const SERIAL: &str = "Prints the outcome of a program, evaluated serially";

const RUN: &str = "Runs a program and prints its outcome";

const REPLAY: &str = "Replays a script of events on a program and prints what it came to";

const DRAW: &str = "Replays a script of events on a program and draws the run as SVG";

const MERGE: &str = "Puts the traces of a run over many machines into one order, as a script";

const STORE: &str =
    "Prints what a store keeps: its job, the last epoch, the outcome, how many values are saved";

const AFTER: &str =
    "A program's text is a file of task threads, and a script a file of events, one a line. An input is a signed 64-bit \
                     number; write `--` before a negative one. Status: 0 done, 1 program, input, script or traces refused, 2 usage, \
                     3 no outcome, 4 file.";

const TURNS: &str = "1000000000";

/// In at most so many turns a task is evaluated whole on nodes, where nothing else is said.
const GRAIN: u64 = 100_000;

/// The option that asks for what is counted of a run.
fn stats_word<'a>(alloc: Global) -> Arg<'a> {
    flag(
        alloc,
        "stats",
        "Tells on standard error what was counted: turns, steals, packets, frames",
    )
}

/// A subcommand that takes a job: a file, the turns, the job's number and the input.
fn job_words<'a>(
    alloc: Global,
    name: &'a str,
    about: &'a str,
    after: &'a str,
) -> Result<Command<'a>, AllocError> {
    Command::new(alloc, name)
        .about(about)
        .after_help(after)
        .arg(file_word(alloc))?
        .arg(explain_word(alloc))?
        .arg(stats_word(alloc))?
        .arg(number_word(alloc, "turns", TURNS, "At most so many turns"))?
        .arg(number_word(alloc, "job", "1", "The job's number"))?
        .arg(input_word(alloc))
}

/// A subcommand that takes a run.
fn run_words<'a>(alloc: Global) -> Result<Command<'a>, AllocError> {
    let command = job_words(alloc, "run", RUN, helps::RUN)?
        .arg(number_word(
            alloc,
            "nodes",
            "1",
            "So many nodes, 1 to 64, each on a thread",
        ))?
        .arg(number_word(
            alloc,
            "bodies",
            "1",
            "So many body workers a node, 1 to 8, each on a thread",
        ))?
        .arg(
            Arg::new(alloc, "grain")
                .long("grain")
                .action(ArgAction::Set)
                .value_parser(value_parser!(u64))
                .help(
                    "A task may be evaluated whole on nodes, in at most so many turns, none for 0; 100000 where it isn't given, or 0 with faults or `--trace`",
                ),
        )?;
    let command = with_fault_words(alloc, command)?;
    with_file_words(alloc, command)
}

/// The words by which faults come to a run.
fn with_fault_words<'a>(alloc: Global, command: Command<'a>) -> Result<Command<'a>, AllocError> {
    command
        .arg(number_word(alloc, "faults", "1", "The word from which faults are drawn"))?
        .arg(number_word(
            alloc,
            "lose",
            "0",
            "One packet in so many is lost, 0 for none",
        ))?
        .arg(number_word(
            alloc,
            "repeat",
            "0",
            "One packet in so many comes twice, 0 for none",
        ))?
        .arg(number_word(alloc, "crash", "0", "So many crashes of nodes"))?
        .arg(number_word(
            alloc,
            "depart",
            "0",
            "So many nodes leave, fewer than there are",
        ))?
        .arg(number_word(
            alloc,
            "after",
            "0",
            "So many events come before the crashes and departures",
        ))
}

/// The files that a run reads or writes.
fn with_file_words<'a>(alloc: Global, command: Command<'a>) -> Result<Command<'a>, AllocError> {
    command
        .arg(
            Arg::new(alloc, "store")
                .long("store")
                .action(ArgAction::Set)
                .help(
                    "The file that keeps the outcome, made where it is missing, with PATH.job beside it, by which another program or input is refused; not with `--trace`",
                ),
        )?
        .arg(
            Arg::new(alloc, "trace")
                .long("trace")
                .action(ArgAction::Set)
                .help("The file to which the script of the run is written"),
        )?
        .arg(
            Arg::new(alloc, "log")
                .long("log")
                .action(ArgAction::Set)
                .help("The file to which starts, crashes and departures of nodes are written"),
        )
}

/// A subcommand that takes a replay.
fn replay_words<'a>(alloc: Global) -> Result<Command<'a>, AllocError> {
    let command = Command::new(alloc, "replay")
        .about(REPLAY)
        .after_help(helps::REPLAY);
    with_replay_words(alloc, command)?
        .arg(packets_word(alloc))?
        .arg(names_word(alloc))?
        .arg(stats_word(alloc))?
        .arg(explain_word(alloc))
}

/// A subcommand that takes a merge.
fn merge_words<'a>(alloc: Global) -> Result<Command<'a>, AllocError> {
    Command::new(alloc, "merge")
        .about(MERGE)
        .after_help(helps::MERGE)
        .arg(
            Arg::new(alloc, "FOLDER")
                .required(true)
                .action(ArgAction::Set)
                .help("The folder of the traces, NAME.trace"),
        )?
        .arg(out_word(
            alloc,
            "The file to which the script is written; standard output where it isn't given",
        ))?
        .arg(explain_word(alloc))
}

/// The option that names the file of an answer.
fn out_word<'a>(alloc: Global, help: &'a str) -> Arg<'a> {
    Arg::new(alloc, "out")
        .short('o')
        .long("out")
        .action(ArgAction::Set)
        .help(help)
}

/// The words of a merge; none where they don't have what `merge_words` asks for.
fn merge_of<'a>(matches: &ArgMatches<'a>) -> Option<MergeWords<'a>> {
    Some(MergeWords {
        folder: matches.get_str("FOLDER")?,
        out: matches.get_str("out"),
    })
}

/// A subcommand that takes a picture.
fn draw_words<'a>(alloc: Global) -> Result<Command<'a>, AllocError> {
    let command = Command::new(alloc, "draw")
        .about(DRAW)
        .after_help(helps::DRAW);
    with_replay_words(alloc, command)?
        .arg(explain_word(alloc))?
        .arg(flag(alloc, "work", "Leaves out Joins, Rosters and Beats"))?
        .arg(out_word(
            alloc,
            "The file to which the picture is written; standard output where it isn't given",
        ))
}

/// The words of a picture; none where they don't have what `draw_words` asks for.
fn draw_of<'a>(
    alloc: Global,
    matches: &ArgMatches<'a>,
) -> Result<Option<DrawWords<'a>>, AllocError> {
    let Some(replay) = replay_words_of(alloc, matches, false, false)? else {
        return Ok(None);
    };
    Ok(Some(DrawWords {
        replay,
        work: matches.get_flag("work"),
        out: matches.get_str("out"),
    }))
}

/// The word that names the file of a store.
fn store_word<'a>(alloc: Global) -> Arg<'a> {
    Arg::new(alloc, "PATH")
        .required(true)
        .action(ArgAction::Set)
        .help("The file of the store")
}

/// The words of a run; none where they don't have what `run_words` asks for.
fn run_of<'a>(alloc: Global, matches: &ArgMatches<'a>) -> Result<Option<RunWords<'a>>, AllocError> {
    let Some(job) = job_of(alloc, matches)? else {
        return Ok(None);
    };
    let (Some(nodes), Some(bodies)) = (matches.get_one("nodes"), matches.get_one("bodies")) else {
        return Ok(None);
    };
    let Some(faults) = faults_of(matches) else {
        return Ok(None);
    };
    Ok(Some(RunWords {
        job,
        nodes,
        bodies,
        grain: matches.get_one("grain"),
        faults,
        store: matches.get_str("store"),
        trace: matches.get_str("trace"),
        log: matches.get_str("log"),
    }))
}

/// The faults of a run.
fn faults_of(matches: &ArgMatches<'_>) -> Option<FaultWords> {
    Some(FaultWords {
        word: matches.get_one("faults")?,
        lose: matches.get_one("lose")?,
        repeat: matches.get_one("repeat")?,
        after: matches.get_one("after")?,
        crashes: matches.get_one("crash")?,
        departures: matches.get_one("depart")?,
    })
}

fn all_words<'a>(alloc: Global) -> Result<Command<'a>, AllocError> {
    Command::new(alloc, "cilknow")
        .version("0.1.0")
        .about(ABOUT)
        .after_help(AFTER)
        .subcommand_required(true)
        .subcommand(
            Command::new(alloc, "check")
                .about(CHECK)
                .after_help(helps::CHECK)
                .arg(file_word(alloc))?
                .arg(explain_word(alloc))?,
        )?
        .subcommand(
            Command::new(alloc, "print")
                .about(PRINT)
                .after_help(helps::PRINT)
                .arg(file_word(alloc))?
                .arg(explain_word(alloc))?,
        )?
        .subcommand(job_words(alloc, "serial", SERIAL, helps::SERIAL)?)?
        .subcommand(run_words(alloc)?)?
        .subcommand(replay_words(alloc)?)?
        .subcommand(draw_words(alloc)?)?
        .subcommand(merge_words(alloc)?)?
        .subcommand(
            Command::new(alloc, "store")
                .about(STORE)
                .after_help(helps::STORE)
                .arg(store_word(alloc))?
                .arg(explain_word(alloc))?,
        )
}

/// The words of a job; none where they don't have what `job_words` asks for.
fn job_of<'a>(alloc: Global, matches: &ArgMatches<'a>) -> Result<Option<JobWords<'a>>, AllocError> {
    let Some(input) = input_of(alloc, matches)? else {
        return Ok(None);
    };
    let (Some(file), Some(turns), Some(job)) = (
        matches.get_str("FILE"),
        matches.get_one("turns"),
        matches.get_one("job"),
    ) else {
        return Ok(None);
    };
    Ok(Some(JobWords {
        file,
        turns,
        job,
        input,
    }))
}

/// What a command line comes to, the program's own name its first word.
pub fn read_words<'a, S: AsStr>(alloc: Global, words: &'a [S]) -> Asked<'a> {
    match words_of(alloc, words) {
        Ok(Some(words)) => Asked::Command(words),
        Ok(None) => Asked::Fault(WordsFault::Usage, None),
        Err(error) => unread(alloc, words, error),
    }
}

/// What words come to that ask for no command.
fn unread<'a, S: AsStr>(alloc: Global, words: &[S], error: Error) -> Asked<'a> {
    let usage = usage_text(alloc, words, &error);
    let shown = match help_of(error) {
        Ok(shown) => shown,
        Err(fault) => return Asked::Fault(fault, usage),
    };
    match String::format(alloc, format_args!("{shown}")) {
        Ok(text) => Asked::Text(text),
        Err(_) => Asked::Fault(WordsFault::Memory, None),
    }
}

/// What is wrong with words that aren't understood, where one of them asks for that.
fn usage_text<S: AsStr>(alloc: Global, words: &[S], error: &Error) -> Option<String> {
    if !words.iter().any(|it| it.as_str() == "--explain") {
        return None;
    }
    let command = match words.get(1) {
        Some(word) => Some(word.as_str()),
        None => None,
    };
    match command {
        Some(word) if is_command(word) => String::format(alloc, format_args!("{error}")).ok(),
        _ => String::format(alloc, format_args!("{}\n", NoCommand(command))).ok(),
    }
}

/// What the words ask for, the program's own name the first of them; none where they ask for
/// nothing that is there. The `Err` is a fault of usage, being out of memory, or the text of the
/// help or the version where they ask for that.
fn words_of<'a, S: AsStr>(alloc: Global, words: &'a [S]) -> Result<Option<Words<'a>>, Error> {
    let matches = all_words(alloc)?.try_get_matches_from(words)?;
    let Some((command, inner)) = matches.subcommand() else {
        return Ok(None);
    };
    let explain = inner.get_flag("explain");
    let stats = matches!(command, "serial" | "run" | "replay") && inner.get_flag("stats");
    match request_of(alloc, command, inner)? {
        Some(request) => Ok(Some(Words {
            request,
            explain,
            stats,
        })),
        None => Ok(None),
    }
}

/// What a subcommand asks for; none where there is none of that name, or its words aren't all
/// there.
fn request_of<'a>(
    alloc: Global,
    command: &str,
    inner: &ArgMatches<'a>,
) -> Result<Option<Subcommand<'a>>, AllocError> {
    match command {
        "check" => Ok(inner.get_str("FILE").map(Subcommand::Check)),
        "print" => Ok(inner.get_str("FILE").map(Subcommand::Print)),
        "serial" => Ok(job_of(alloc, inner)?.map(Subcommand::Serial)),
        "run" => Ok(run_of(alloc, inner)?.map(Subcommand::Run)),
        "replay" => {
            let packets = inner.get_flag("packets");
            let names = inner.get_flag("names");
            Ok(replay_words_of(alloc, inner, packets, names)?.map(Subcommand::Replay))
        }
        "draw" => Ok(draw_of(alloc, inner)?.map(Subcommand::Draw)),
        "merge" => Ok(merge_of(inner).map(Subcommand::Merge)),
        "store" => Ok(inner.get_str("PATH").map(Subcommand::Store)),
        _ => Ok(None),
    }
}
