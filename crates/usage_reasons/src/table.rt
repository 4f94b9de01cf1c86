//! The commands, and what each takes: its files in their order, its options with a value, and its flags.
//!
//! This is the one place of them here. `command_words` has the same table in the form that clap wants.
ghost use Rattle.std.specs.Prelude.{◌≡◌, true, map};
ghost use Rattle.sn_base.specs.Config.{lies_in};
ghost use Rattle.usage_reasons.specs.Table.{command_names, command_by, name_of, files_of, order_names, options_of, flags_of};
ghost use Rattle.usage_reasons.specs.Table.{quantity_by, key_of, quantity_name, key_name, rule_of};

use option_values::{BUDGET, INTERVAL, LOG, LOSE_EVERY, NODES, NumberRule, SEED, SETS, WAIT, WAYS};

#[derive(Clone, Copy)]
pub(crate) enum Command {
    Replay,
    Drive,
    Roll,
    Save,
    Resume,
    Run,
    Monitor,
    Check,
    Judge,
    Demo,
    Asm,
    Dis,
}

/// What a number stands for.
#[derive(Clone, Copy)]
pub(crate) enum Quantity {
    Nodes,
    Sets,
    Ways,
    Log,
    Interval,
    Wait,
    LoseEvery,
    Budget,
    Seed,
}

/// What the value of an option is.
#[derive(Clone, Copy)]
pub(crate) enum Key {
    Number(Quantity),
    /// The address of a word.
    Watch,
    /// A switch that dies.
    Kill,
    /// Who has the next turn.
    Order,
    /// Places of events.
    Only,
    /// A range of seeds.
    Seeds,
}

const NONE: &[&str] = &[];

const COMMANDS: &[&str] = &[
    "replay", "drive", "roll", "save", "resume", "run", "monitor", "check", "judge", "demo", "asm",
    "dis",
];

const PROGRAM: &[&str] = &["PROGRAM"];

const PROGRAM_AND_SCRIPT: &[&str] = &["PROGRAM", "SCRIPT"];

const PROGRAM_AND_CONTROL: &[&str] = &["PROGRAM", "SCRIPT", "CONTROL"];

const PROGRAM_AND_SAVE: &[&str] = &["PROGRAM", "SAVE", "SCRIPT"];

const PROGRAM_AND_TRACE: &[&str] = &["PROGRAM", "TRACE"];

const ACCESSES: &[&str] = &["ACCESSES"];

const SIZE: &[&str] = &["SIZE"];

const TEXT: &[&str] = &["TEXT"];

const NODES_ALONE: &[&str] = &["--nodes"];

const WATCH_ALONE: &[&str] = &["--watch"];

const SAVED_SIZES: &[&str] = &["--nodes", "--sets", "--ways", "--log"];

const SIZES: &[&str] = &["--nodes", "--sets", "--ways", "--log", "--watch"];

const REPLAY_OPTIONS: &[&str] = &["--nodes", "--sets", "--ways", "--log", "--watch", "--only"];

const REPLAY_FLAGS: &[&str] = &["--trace", "--states", "--statistics", "--accesses"];

const DRIVE_FLAGS: &[&str] = &["--states"];

const RUN_FLAGS: &[&str] = &["--trace", "--journal", "--accesses", "--statistics"];

const ORDERS: &[&str] = &["threads", "round", "drawn"];

const RUN_OPTIONS: &[&str] = &[
    "--order",
    "--seeds",
    "--nodes",
    "--sets",
    "--ways",
    "--log",
    "--watch",
    "--interval",
    "--wait",
    "--lose-every",
    "--kill",
    "--budget",
    "--seed",
];

const MONITOR_OPTIONS: &[&str] = &[
    "--nodes",
    "--sets",
    "--ways",
    "--log",
    "--watch",
    "--interval",
    "--wait",
    "--lose-every",
    "--kill",
    "--budget",
    "--seed",
];

pub(crate) fn command_names() -> &'static [&'static str]
    ensures { map (λ name. name.now) result.now ≡ command_names }
{
    COMMANDS
}

pub(crate) fn command_by(word: &str) -> Option<Command>
    ensures { result ≡ command_by word.now }
{
    match word {
        "replay" => Some(Command::Replay),
        "drive" => Some(Command::Drive),
        "roll" => Some(Command::Roll),
        "save" => Some(Command::Save),
        "resume" => Some(Command::Resume),
        "run" => Some(Command::Run),
        "monitor" => Some(Command::Monitor),
        "check" => Some(Command::Check),
        "judge" => Some(Command::Judge),
        "demo" => Some(Command::Demo),
        "asm" => Some(Command::Asm),
        "dis" => Some(Command::Dis),
        _ => None,
    }
}

#[tactic(auto, unfolding(crate::specs::Table::name_of))]
pub(crate) fn name_of(command: Command) -> &'static str
    ensures { result.now ≡ name_of command }
{
    match command {
        Command::Replay => "replay",
        Command::Drive => "drive",
        Command::Roll => "roll",
        Command::Save => "save",
        Command::Resume => "resume",
        Command::Run => "run",
        Command::Monitor => "monitor",
        Command::Check => "check",
        Command::Judge => "judge",
        Command::Demo => "demo",
        Command::Asm => "asm",
        Command::Dis => "dis",
    }
}

/// The words that must be there, as the command's page names them.
pub(crate) fn files_of(command: Command) -> &'static [&'static str]
    ensures { map (λ name. name.now) result.now ≡ files_of command }
{
    match command {
        Command::Replay | Command::Save => PROGRAM_AND_SCRIPT,
        Command::Resume => PROGRAM_AND_SAVE,
        Command::Roll => PROGRAM_AND_CONTROL,
        Command::Drive | Command::Run | Command::Monitor | Command::Dis => PROGRAM,
        Command::Check => PROGRAM_AND_TRACE,
        Command::Judge => ACCESSES,
        Command::Demo => SIZE,
        Command::Asm => TEXT,
    }
}

/// The words that say who has the next turn.
pub(crate) fn order_names() -> &'static [&'static str]
    ensures { map (λ name. name.now) result.now ≡ order_names }
{
    ORDERS
}

/// The options that take a value.
pub(crate) fn options_of(command: Command) -> &'static [&'static str]
    ensures { map (λ name. name.now) result.now ≡ options_of command }
{
    match command {
        Command::Replay => REPLAY_OPTIONS,
        Command::Drive | Command::Roll => SIZES,
        Command::Save => SAVED_SIZES,
        Command::Resume => WATCH_ALONE,
        Command::Run => RUN_OPTIONS,
        Command::Monitor => MONITOR_OPTIONS,
        Command::Check => NODES_ALONE,
        Command::Judge | Command::Demo | Command::Asm | Command::Dis => NONE,
    }
}

/// The options that take none.
pub(crate) fn flags_of(command: Command) -> &'static [&'static str]
    ensures { map (λ name. name.now) result.now ≡ flags_of command }
{
    match command {
        Command::Replay => REPLAY_FLAGS,
        Command::Drive => DRIVE_FLAGS,
        Command::Run => RUN_FLAGS,
        Command::Roll
        | Command::Save
        | Command::Resume
        | Command::Monitor
        | Command::Check
        | Command::Judge
        | Command::Demo
        | Command::Asm
        | Command::Dis => NONE,
    }
}

fn quantity_by(option: &str) -> Option<Quantity>
    ensures { result ≡ quantity_by option.now }
{
    match option {
        "--nodes" => Some(Quantity::Nodes),
        "--sets" => Some(Quantity::Sets),
        "--ways" => Some(Quantity::Ways),
        "--log" => Some(Quantity::Log),
        "--interval" => Some(Quantity::Interval),
        "--wait" => Some(Quantity::Wait),
        "--lose-every" => Some(Quantity::LoseEvery),
        "--budget" => Some(Quantity::Budget),
        "--seed" => Some(Quantity::Seed),
        _ => None,
    }
}

pub(crate) fn key_of(option: &str) -> Option<Key>
    ensures { result ≡ key_of option.now }
{
    match option {
        "--watch" => Some(Key::Watch),
        "--kill" => Some(Key::Kill),
        "--order" => Some(Key::Order),
        "--only" => Some(Key::Only),
        "--seeds" => Some(Key::Seeds),
        _ => Some(Key::Number(quantity_by(option)?)),
    }
}

#[tactic(auto, unfolding(crate::specs::Table::quantity_name))]
pub(crate) fn quantity_name(quantity: Quantity) -> &'static str
    ensures { result.now ≡ quantity_name quantity }
{
    match quantity {
        Quantity::Nodes => "--nodes",
        Quantity::Sets => "--sets",
        Quantity::Ways => "--ways",
        Quantity::Log => "--log",
        Quantity::Interval => "--interval",
        Quantity::Wait => "--wait",
        Quantity::LoseEvery => "--lose-every",
        Quantity::Budget => "--budget",
        Quantity::Seed => "--seed",
    }
}

#[tactic(auto, unfolding(crate::specs::Table::key_name))]
pub(crate) fn key_name(key: Key) -> &'static str
    ensures { result.now ≡ key_name key }
{
    match key {
        Key::Number(quantity) => quantity_name(quantity),
        Key::Watch => "--watch",
        Key::Kill => "--kill",
        Key::Order => "--order",
        Key::Only => "--only",
        Key::Seeds => "--seeds",
    }
}

/// The range of a number.
pub(crate) fn rule_of(quantity: Quantity) -> NumberRule
    ensures rule { result ≡ rule_of quantity }
    ensures default { lies_in result.least result.greatest result.default ≡ true }
{
    match quantity {
        Quantity::Nodes => NODES,
        Quantity::Sets => SETS,
        Quantity::Ways => WAYS,
        Quantity::Log => LOG,
        Quantity::Interval => INTERVAL,
        Quantity::Wait => WAIT,
        Quantity::LoseEvery => LOSE_EVERY,
        Quantity::Budget => BUDGET,
        Quantity::Seed => SEED,
    }
}
