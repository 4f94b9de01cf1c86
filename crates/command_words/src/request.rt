//! What the words ask for.
ghost use Rattle.std.specs.Prelude.{◌≡◌};

use option_values::{Places, RunRules, Seeds};
use sn_base::{Config, RunReport};
use std::alloc::AllocError;

/// What a replay shows.
#[derive(Clone, Copy, Debug)]
pub enum ReplayReport {
    /// Each event's answer.
    Events,
    /// The committed trace in place of that.
    Trace,
    /// The machine's state after each event, or of these places alone.
    States(Option<Places>),
    /// Each event's answer, and behind the summary what was counted of the run.
    Statistics,
    /// The accesses of the committed trace in place of the events.
    Accesses,
}

/// The sizes, what is shown, and the names of the files.
#[derive(Drop)]
pub struct Replay {
    pub config: Config,
    pub report: ReplayReport,
    /// The address of the word that is shown after each recovery, or at the end.
    pub watch: Option<u32>,
    pub program: String,
    pub script: String,
}

/// What a drive shows of each event.
#[derive(Clone, Copy, Debug)]
pub enum DriveReport {
    /// Its answer.
    Events,
    /// The machine's state after it.
    States,
}

/// The sizes, what is shown, and the name of the program's file. The events come line by line.
#[derive(Drop)]
pub struct Drive {
    pub config: Config,
    pub report: DriveReport,
    /// The address of the word that is shown after each recovery, and at the end.
    pub watch: Option<u32>,
    pub program: String,
}

/// The sizes, what is shown, and the names of the files.
#[derive(Drop)]
pub struct Roll {
    pub config: Config,
    /// The address of the word that is shown in the summary.
    pub watch: Option<u32>,
    pub program: String,
    pub script: String,
    /// The file of the steps in which the recovery is led.
    pub control: String,
}

/// The sizes, and the names of the files.
#[derive(Drop)]
pub struct Save {
    pub config: Config,
    pub program: String,
    pub script: String,
}

/// What is shown, and the names of the files. The sizes are the save file's.
#[derive(Drop)]
pub struct Resume {
    /// The address of the word that is shown after each recovery, and at the end.
    pub watch: Option<u32>,
    pub program: String,
    /// The file that a recovery point was saved in.
    pub save: String,
    pub script: String,
}

/// Who has the next turn of a run.
#[derive(Clone, Copy, Debug)]
pub enum RunOrder {
    /// Each worker has a thread of its own, and the threads decide.
    Threads,
    /// The workers in rounds.
    Round,
    /// A worker that is drawn.
    Drawn,
}

/// How many runs there are, and whether they are counted.
#[derive(Clone, Copy, Debug)]
pub enum RunScope {
    /// One, with the seed of its rules.
    One,
    /// One, and behind its summary what was counted of it.
    Counted,
    /// One for each seed of a range; whether they are counted.
    Seeds(Seeds, bool),
}

/// The sizes, what the run goes by, what is shown, and the name of the program's file.
#[derive(Drop)]
pub struct Run {
    pub config: Config,
    pub rules: RunRules,
    pub report: RunReport,
    pub order: RunOrder,
    /// More than one are had in an order, and both these and what is counted beside the summary alone.
    pub scope: RunScope,
    /// The address of the word that is shown in the summary.
    pub watch: Option<u32>,
    pub program: String,
}

/// The sizes, what the watched run goes by, what is shown, and the name of the program's file.
#[derive(Drop)]
pub struct Monitor {
    pub config: Config,
    pub rules: RunRules,
    /// The address of the word that each snapshot has, and that is shown in the summary.
    pub watch: Option<u32>,
    pub program: String,
}

/// The number of nodes, and the names of the files.
#[derive(Drop)]
pub struct Check {
    pub nodes: u8,
    pub program: String,
    pub trace: String,
}

/// A command, with all that its words say.
#[derive(Drop)]
pub enum Request {
    Replay(Replay),
    Drive(Drive),
    Roll(Roll),
    Save(Save),
    Resume(Resume),
    Run(Run),
    Monitor(Monitor),
    Check(Check),
    /// The name of a list of accesses.
    Judge(String),
    /// How many events the demonstration has.
    Demo(u32),
    /// The name of a text in assembler.
    Assemble(String),
    /// The name of a program's file.
    Disassemble(String),
}

/// Why words are no request: they are no command's or a value breaks its rule, or memory was wanted and not given.
#[derive(Clone, Copy, PartialEq, Eq, Debug)]
pub enum WordsFault {
    Usage,
    Memory,
}

impl From<AllocError> for WordsFault {
    ghost use Rattle.command_words.specs.declared.request.WordsFault.TheVariants.{Memory};

    ghost from_gives = { λ _ fault. fault ≡ Memory };

    fn from(_error: AllocError) -> WordsFault {
        WordsFault::Memory
    }
}
