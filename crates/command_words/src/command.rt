//! The table of commands, as clap wants it: a row a command.
ghost use Rattle.std.specs.Prelude.{◌≡◌, ◌↔◌, IfOk, IfErr, false, true, map, string_bytes};
ghost use Rattle.clap.specs.Words.{App, app_of, rule_of, with_rule, takes, kind_of, subcommand_of, subcommand_rows_of};
ghost use Rattle.clap.specs.declared.builder.command.Command.TheViews.{out-Command as fields_of};
ghost use Rattle.command_words.specs.Command.{action_of, rule_by, with_args, row_app, command_apps, named_app, with_command, the_app};

use crate::request::WordsFault;
use clap::error::ErrorKind;
use clap::{Arg, ArgAction, ArgMatches, Command, Error};
use std::alloc::{AllocError, Global};

/// A word that must be there, an option with one value, or a flag.
#[derive(Clone, Copy)]
pub enum Kind {
    Word,
    Option,
    Flag,
}

/// A command's name, and those of its words, of its options and of its flags.
pub struct Row {
    name: &'static str,
    words: &'static [&'static str],
    options: &'static [&'static str],
    flags: &'static [&'static str],
}

const COMMANDS: &[Row] = &[
    Row {
        name: "replay",
        words: &["program", "script"],
        options: &["nodes", "sets", "ways", "log", "watch", "only"],
        flags: &["trace", "states", "statistics", "accesses"],
    },
    Row {
        name: "drive",
        words: &["program"],
        options: &["nodes", "sets", "ways", "log", "watch"],
        flags: &["states"],
    },
    Row {
        name: "roll",
        words: &["program", "script", "control"],
        options: &["nodes", "sets", "ways", "log", "watch"],
        flags: &[],
    },
    Row {
        name: "save",
        words: &["program", "script"],
        options: &["nodes", "sets", "ways", "log"],
        flags: &[],
    },
    Row {
        name: "resume",
        words: &["program", "save", "script"],
        options: &["watch"],
        flags: &[],
    },
    Row {
        name: "run",
        words: &["program"],
        options: &[
            "order",
            "seeds",
            "nodes",
            "sets",
            "ways",
            "log",
            "watch",
            "interval",
            "wait",
            "lose-every",
            "kill",
            "budget",
            "seed",
        ],
        flags: &["trace", "journal", "accesses", "statistics"],
    },
    Row {
        name: "monitor",
        words: &["program"],
        options: &[
            "nodes",
            "sets",
            "ways",
            "log",
            "watch",
            "interval",
            "wait",
            "lose-every",
            "kill",
            "budget",
            "seed",
        ],
        flags: &[],
    },
    Row {
        name: "check",
        words: &["program", "trace"],
        options: &["nodes"],
        flags: &[],
    },
    Row {
        name: "judge",
        words: &["accesses"],
        options: &[],
        flags: &[],
    },
    Row {
        name: "demo",
        words: &["size"],
        options: &[],
        flags: &[],
    },
    Row {
        name: "asm",
        words: &["text"],
        options: &[],
        flags: &[],
    },
    Row {
        name: "dis",
        words: &["program"],
        options: &[],
        flags: &[],
    },
];

fn commands() -> &'static [Row]
    ensures { map row_app result.now ≡ command_apps }
{
    COMMANDS
}

fn action_of(kind: Kind) -> ArgAction
    ensures { result ≡ action_of kind }
{
    match kind {
        Kind::Word | Kind::Option => ArgAction::Set,
        Kind::Flag => ArgAction::SetTrue,
    }
}

fn arg_by<'a>(alloc: Global, kind: Kind, name: &'a str) -> Arg<'a>
    ensures rule { rule_of result ≡ rule_by kind name.entry.now }
    ensures local { result.global ≡ false }
{
    let arg = Arg::new(alloc, name).action(action_of(kind));
    match kind {
        Kind::Word => arg.required(true),
        Kind::Option | Kind::Flag => arg.long(name),
    }
}

fn with_arg<'a>(command: Command<'a>, arg: Arg<'a>) -> Result<Command<'a>, AllocError>
    requires alone { (fields_of command).has_globals ≡ false }
    requires local { arg.global ≡ false }
    ensures app { IfOk result (λ c. app_of c ≡ with_rule (app_of command.entry) (rule_of arg.entry)) }
    ensures alone { IfOk result (λ c. (fields_of c).has_globals ≡ false) }
{
    command.arg(arg)
}

// A command with one argument more, where there is memory for both.
fn with_next<'a>(
    alloc: Global,
    command: Result<Command<'a>, AllocError>,
    kind: Kind,
    name: &'a str,
) -> Result<Command<'a>, AllocError>
    requires alone { IfOk command (λ c. (fields_of c).has_globals ≡ false) }
    ensures app { (app : App) → IfOk command.entry (λ c. app_of c ≡ app) → IfOk result (λ c. app_of c ≡ with_rule app (rule_by kind name.entry.now)) }
    ensures alone { IfOk result (λ c. (fields_of c).has_globals ≡ false) }
{
    match command {
        Ok(command) => with_arg(command, arg_by(alloc, kind, name)),
        Err(error) => Err(error),
    }
}

fn with_args<'a>(
    alloc: Global,
    mut command: Result<Command<'a>, AllocError>,
    kind: Kind,
    names: &[&'a str],
) -> Result<Command<'a>, AllocError>
    requires alone { IfOk command (λ c. (fields_of c).has_globals ≡ false) }
    ensures app { (app : App) → IfOk command.entry (λ c. app_of c ≡ app) → IfOk result
        (λ c. app_of c ≡ with_args kind (map (λ name. name.now) names.now) app) }
    ensures alone { IfOk result (λ c. (fields_of c).has_globals ≡ false) }
{
    'names: for name in names {
        command = with_next(alloc, command, kind, name);
    }
    command
}

fn command_by<'a>(alloc: Global, row: &Row) -> Result<Command<'a>, AllocError>
    ensures app { IfOk result (λ c. app_of c ≡ row_app row.now) }
    ensures alone { IfOk result (λ c. (fields_of c).has_globals ≡ false) }
{
    let command = Ok(Command::new(alloc, row.name));
    let command = with_args(alloc, command, Kind::Word, row.words);
    let command = with_args(alloc, command, Kind::Option, row.options);
    with_args(alloc, command, Kind::Flag, row.flags)
}

fn named<'a>(alloc: Global) -> Command<'a>
    ensures { app_of result ≡ named_app }
{
    // A call for help is answered before the words come here: one that does come is an unknown word.
    Command::new(alloc, "safetynet")
        .disable_help_flag(true)
        .disable_help_subcommand(true)
        .subcommand_required(true)
}

// One command more, where there is memory for it.
fn added<'a>(
    table: Command<'a>,
    other: Result<Command<'a>, AllocError>,
) -> Result<Command<'a>, AllocError>
    requires alone { IfOk other (λ c. (fields_of c).has_globals ≡ false) }
    ensures { (row : App) → IfOk other.entry (λ c. app_of c ≡ row) → IfOk result (λ c. app_of c ≡ with_command (app_of table.entry) row) }
{
    match other {
        Ok(other) => table.subcommand(other),
        Err(error) => {
            drop(table);
            Err(error)
        }
    }
}

// A table with one command more, where there is memory for both.
fn with_row<'a>(
    alloc: Global,
    table: Result<Command<'a>, AllocError>,
    row: &Row,
) -> Result<Command<'a>, AllocError>
    ensures { (rows : App) → IfOk table.entry (λ c. app_of c ≡ rows) → IfOk result (λ c. app_of c ≡ with_command rows (row_app row.now)) }
{
    match table {
        Ok(table) => added(table, command_by(alloc, row)),
        Err(error) => Err(error),
    }
}

fn command<'a>(alloc: Global) -> Result<Command<'a>, AllocError>
    ensures { IfOk result (λ c. app_of c ≡ the_app) }
{
    let rows = commands();
    let mut table = Ok(named(alloc));
    'rows: for row in rows {
        table = with_row(alloc, table, row);
    }
    table
}

fn parse<'a>(alloc: Global, words: &'a [String]) -> Result<ArgMatches<'a>, Error>
    ensures entries { IfOk result (λ m. subcommand_rows_of m ≡ subcommand_of the_app (map string_bytes words.entry.now)) }
    ensures taken { IfOk result (λ m. takes the_app (map string_bytes words.entry.now) ≡ true) }
    ensures refusal { IfErr result (λ e. takes the_app (map string_bytes words.entry.now) ≡ true → kind_of e ≡ ErrorKind.OutOfMemory) }
{
    command(alloc)?.try_get_matches_from(words)
}

fn fault_of(error: &Error) -> WordsFault
    ensures { (result ≡ WordsFault.Memory) ↔ (kind_of error.now ≡ ErrorKind.OutOfMemory) }
{
    match error.kind() {
        ErrorKind::OutOfMemory => WordsFault::Memory,
        _ => WordsFault::Usage,
    }
}

/// The entries of the words.
pub(crate) fn entries_of<'a>(
    alloc: Global,
    words: &'a [String],
) -> Result<ArgMatches<'a>, WordsFault>
    ensures entries { IfOk result (λ m. subcommand_rows_of m ≡ subcommand_of the_app (map string_bytes words.entry.now)) }
    ensures taken { IfOk result (λ m. takes the_app (map string_bytes words.entry.now) ≡ true) }
    ensures usage { result ≡ Err WordsFault.Usage → takes the_app (map string_bytes words.entry.now) ≡ false }
{
    match parse(alloc, words) {
        Ok(entries) => Ok(entries),
        Err(error) => Err(fault_of(&error)),
    }
}
