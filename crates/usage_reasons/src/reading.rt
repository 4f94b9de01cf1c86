//! The words of a call, read from left to right.
ghost use Rattle.std.specs.Prelude.{◌≡◌, ◌≤◌, [], map, option_map, string_bytes};
ghost use Rattle.usage_reasons.specs.Faults.{first_read, no_such_command, no_such_option, is_bad_size, with_file, read_with, with_number};
ghost use Rattle.usage_reasons.specs.Faults.{with_address, with_order, with_places, with_seeds, with_value, with_key, with_flag, with_option, with_word, step, kill_on, kill_fault};
ghost use Rattle.usage_reasons.specs.Faults.{report_read, end_by_places, end_by_order, end_of_run, at_end, fault_from, fault_behind, fault_of};
ghost use Rattle.usage_reasons.specs.Seen.{read_seen, fault_seen, step_seen};

use crate::fault::Fault;
use crate::table::{Command, Key, Quantity, command_by, files_of, flags_of, order_names};
use crate::values::{are_places, are_seeds, is_address, is_kill, is_number, is_size};
use crate::words::{
    begins, first_given, has_value, is_among, is_given, is_help, is_short, key_in, option_in,
    value_in,
};
use option_values::read_nodes;

/// What has been read of a command's words.
#[derive(Clone, Copy)]
pub(crate) struct Reading<'a> {
    /// The option whose value the next word is.
    waiting: Option<Key>,
    /// The files that are still to come.
    wanted: &'static [&'static str],
    /// Whether `--` was met, behind which all words are files.
    only_files: bool,
    nodes: Option<&'a str>,
    kill: Option<&'a str>,
    places: bool,
    states: bool,
    /// The flag for the trace, the journal or the accesses.
    shown: Option<&'a str>,
    seeds: bool,
    /// Whether one seed is given.
    seeded: bool,
    /// Whether the turns come in an order, and no threads decide them.
    ordered: bool,
}

// What is read is lent from the words.
fn first_read<'a>(command: Command, _words: &'a [String]) -> Reading<'a>
    ensures { read_seen result ≡ first_read command }
{
    Reading {
        waiting: None,
        wanted: files_of(command),
        only_files: false,
        nodes: None,
        kill: None,
        places: false,
        states: false,
        shown: None,
        seeds: false,
        seeded: false,
        ordered: false,
    }
}

fn no_such_command<'a>(word: &'a str) -> Fault<'a>
    ensures { fault_seen result ≡ no_such_command word.entry.now }
{
    if is_help(word) {
        Fault::HelpAmong(word)
    } else {
        Fault::UnknownCommand(word)
    }
}

fn no_such_option<'a>(command: Command, option: &'a str) -> Fault<'a>
    ensures { fault_seen result ≡ no_such_option command option.entry.now }
{
    if is_help(option) {
        Fault::HelpAmong(option)
    } else {
        Fault::UnknownOption(command, option)
    }
}

fn is_bad_size(command: Command, word: &str) -> bool
    ensures { result ≡ is_bad_size command word.now }
{
    match command {
        Command::Demo => !is_size(word),
        _ => false,
    }
}

/// A file's name, or the size of a demonstration.
#[tactic(auto, unfolding(crate::specs::Faults::with_file))]
fn with_file<'a>(
    command: Command,
    reading: Reading<'a>,
    word: &'a str,
) -> Result<Reading<'a>, Fault<'a>>
    ensures { step_seen result ≡ with_file command (read_seen reading.entry) word.entry.now }
{
    match reading.wanted {
        [] => Err(Fault::OneTooMany(command, word)),
        [_, rest @ ..] => {
            if is_bad_size(command, word) {
                Err(Fault::BadSize(word))
            } else {
                Ok(Reading {
                    wanted: rest,
                    ..reading
                })
            }
        }
    }
}

fn noted<'a>(quantity: Quantity, reading: Reading<'a>, value: &'a str) -> Reading<'a>
    ensures { read_seen result ≡ read_with quantity (read_seen reading.entry) value.entry.now }
{
    match quantity {
        Quantity::Nodes => Reading {
            nodes: Some(value),
            ..reading
        },
        Quantity::Seed => Reading {
            seeded: true,
            ..reading
        },
        _ => reading,
    }
}

#[tactic(auto, unfolding(crate::specs::Faults::with_number))]
fn with_number<'a>(
    quantity: Quantity,
    reading: Reading<'a>,
    value: &'a str,
) -> Result<Reading<'a>, Fault<'a>>
    ensures { step_seen result ≡ with_number quantity (read_seen reading.entry) value.entry.now }
{
    if is_number(quantity, value) {
        Ok(noted(quantity, reading, value))
    } else {
        Err(Fault::BadNumber(quantity, value))
    }
}

#[tactic(auto, unfolding(crate::specs::Faults::with_address))]
fn with_address<'a>(reading: Reading<'a>, value: &'a str) -> Result<Reading<'a>, Fault<'a>>
    ensures { step_seen result ≡ with_address (read_seen reading.entry) value.entry.now }
{
    if is_address(value) {
        Ok(reading)
    } else {
        Err(Fault::BadAddress(value))
    }
}

#[tactic(auto, unfolding(crate::specs::Faults::with_order))]
fn with_order<'a>(reading: Reading<'a>, value: &'a str) -> Result<Reading<'a>, Fault<'a>>
    ensures { step_seen result ≡ with_order (read_seen reading.entry) value.entry.now }
{
    if is_among(order_names(), value) {
        Ok(Reading {
            ordered: value != "threads",
            ..reading
        })
    } else {
        Err(Fault::BadOrder(value))
    }
}

#[tactic(auto, unfolding(crate::specs::Faults::with_places))]
fn with_places<'a>(reading: Reading<'a>, value: &'a str) -> Result<Reading<'a>, Fault<'a>>
    ensures { step_seen result ≡ with_places (read_seen reading.entry) value.entry.now }
{
    if are_places(value) {
        Ok(Reading {
            places: true,
            ..reading
        })
    } else {
        Err(Fault::BadPlaces(value))
    }
}

#[tactic(auto, unfolding(crate::specs::Faults::with_seeds))]
fn with_seeds<'a>(reading: Reading<'a>, value: &'a str) -> Result<Reading<'a>, Fault<'a>>
    ensures { step_seen result ≡ with_seeds (read_seen reading.entry) value.entry.now }
{
    if are_seeds(value) {
        Ok(Reading {
            seeds: true,
            ..reading
        })
    } else {
        Err(Fault::BadSeeds(value))
    }
}

fn with_value<'a>(key: Key, reading: Reading<'a>, value: &'a str) -> Result<Reading<'a>, Fault<'a>>
    ensures { step_seen result ≡ with_value key (read_seen reading.entry) value.entry.now }
{
    match key {
        Key::Number(quantity) => with_number(quantity, reading, value),
        Key::Watch => with_address(reading, value),
        Key::Kill => Ok(Reading {
            kill: Some(value),
            ..reading
        }),
        Key::Order => with_order(reading, value),
        Key::Only => with_places(reading, value),
        Key::Seeds => with_seeds(reading, value),
    }
}

fn with_key<'a>(
    key: Key,
    reading: Reading<'a>,
    value: Option<&'a str>,
) -> Result<Reading<'a>, Fault<'a>>
    ensures { step_seen result ≡ with_key key (read_seen reading.entry) (option_map (λ text. text.now) value.entry) }
{
    match value {
        Some(value) => with_value(key, reading, value),
        None => Ok(Reading {
            waiting: Some(key),
            ..reading
        }),
    }
}

// A flag that may stand.
fn with_report<'a>(reading: Reading<'a>, option: &'a str) -> Reading<'a>
    ensures { read_seen result ≡ report_read (read_seen reading.entry) option.entry.now }
{
    match option {
        "--states" => Reading {
            states: true,
            ..reading
        },
        "--trace" | "--journal" | "--accesses" => Reading {
            shown: Some(option),
            ..reading
        },
        _ => reading,
    }
}

#[tactic(auto, unfolding(crate::specs::Faults::with_flag))]
fn with_flag<'a>(
    command: Command,
    earlier: &[String],
    reading: Reading<'a>,
    word: &'a str,
) -> Result<Reading<'a>, Fault<'a>>
    ensures { step_seen result ≡ with_flag command (map string_bytes earlier.now) (read_seen reading.entry) word.entry.now }
{
    let option = option_in(word);
    if !is_among(flags_of(command), option) {
        return Err(no_such_option(command, option));
    }
    if has_value(word) {
        return Err(Fault::ValueUnwanted(word));
    }
    if is_given(option, earlier) {
        return Err(Fault::Twice(option));
    }
    if let Some(other) = first_given(flags_of(command), earlier) {
        return Err(Fault::Together(other, option));
    }
    Ok(with_report(reading, option))
}

/// `--name` or `--name=value`.
#[tactic(auto, unfolding(crate::specs::Faults::with_option))]
fn with_option<'a>(
    command: Command,
    earlier: &[String],
    reading: Reading<'a>,
    word: &'a str,
) -> Result<Reading<'a>, Fault<'a>>
    ensures { step_seen result ≡ with_option command (map string_bytes earlier.now) (read_seen reading.entry) word.entry.now }
{
    let option = option_in(word);
    let Some(key) = key_in(command, option) else {
        return with_flag(command, earlier, reading, word);
    };
    if is_given(option, earlier) {
        Err(Fault::Twice(option))
    } else {
        with_key(key, reading, value_in(word))
    }
}

/// A word that is no option's value.
#[tactic(auto, unfolding(crate::specs::Faults::with_word))]
fn with_word<'a>(
    command: Command,
    earlier: &[String],
    reading: Reading<'a>,
    word: &'a str,
) -> Result<Reading<'a>, Fault<'a>>
    ensures { step_seen result ≡ with_word command (map string_bytes earlier.now) (read_seen reading.entry) word.entry.now }
{
    if word == "--" {
        Ok(Reading {
            only_files: true,
            ..reading
        })
    } else if begins(b"--", word.as_bytes()) {
        with_option(command, earlier, reading, word)
    } else if is_short(word) {
        Err(no_such_option(command, word))
    } else {
        with_file(command, reading, word)
    }
}

#[tactic(auto, unfolding(crate::specs::Faults::step))]
fn step<'a>(
    command: Command,
    earlier: &[String],
    reading: Reading<'a>,
    word: &'a str,
) -> Result<Reading<'a>, Fault<'a>>
    ensures { step_seen result ≡ step command (map string_bytes earlier.now) (read_seen reading.entry) word.entry.now }
{
    if reading.only_files {
        return with_file(command, reading, word);
    }
    let Some(key) = reading.waiting else {
        return with_word(command, earlier, reading, word);
    };
    if begins(b"--", word.as_bytes()) {
        return Err(Fault::ValueLacking(key));
    }
    let reading = Reading {
        waiting: None,
        ..reading
    };
    with_value(key, reading, word)
}

#[tactic(auto, unfolding(crate::specs::Faults::kill_on))]
fn kill_on<'a>(nodes: u8, kill: &'a str) -> Fault<'a>
    requires few { nodes ≤ 16 }
    ensures { fault_seen result ≡ kill_on nodes kill.entry.now }
{
    if is_kill(nodes, kill) {
        Fault::Other
    } else {
        Fault::BadKill(nodes, kill)
    }
}

fn kill_fault<'a>(nodes: Option<&str>, kill: &'a str) -> Fault<'a>
    ensures { fault_seen result ≡ kill_fault (option_map (λ text. text.now) nodes.entry) kill.entry.now }
{
    match read_nodes(nodes) {
        Some(nodes) => kill_on(nodes, kill),
        None => Fault::Other,
    }
}

fn end_by_places<'a>(reading: Reading<'a>) -> Fault<'a>
    ensures { fault_seen result ≡ end_by_places (read_seen reading.entry) }
{
    if reading.places && !reading.states {
        return Fault::PlacesAlone;
    }
    match reading.kill {
        Some(kill) => kill_fault(reading.nodes, kill),
        None => Fault::Other,
    }
}

fn end_by_order<'a>(reading: Reading<'a>) -> Fault<'a>
    ensures { fault_seen result ≡ end_by_order (read_seen reading.entry) }
{
    if reading.seeds && !reading.ordered {
        return Fault::OrderLacking;
    }
    end_by_places(reading)
}

fn end_of_run<'a>(reading: Reading<'a>) -> Fault<'a>
    ensures { fault_seen result ≡ end_of_run (read_seen reading.entry) }
{
    if reading.seeds && reading.seeded {
        return Fault::Together("--seed", "--seeds");
    }
    match reading.shown {
        Some(flag) if reading.seeds => Fault::Together(flag, "--seeds"),
        _ => end_by_order(reading),
    }
}

/// What is wrong behind the last word.
#[tactic(auto, unfolding(crate::specs::Faults::at_end))]
fn at_end<'a>(command: Command, reading: Reading<'a>) -> Fault<'a>
    ensures { fault_seen result ≡ at_end command (read_seen reading.entry) }
{
    if let Some(key) = reading.waiting {
        return Fault::ValueLacking(key);
    }
    if let [file, ..] = reading.wanted {
        return Fault::Lacking(command, *file);
    }
    match command {
        Command::Run => end_of_run(reading),
        _ => end_by_places(reading),
    }
}

fn fault_from<'a>(command: Command, words: &'a [String]) -> Fault<'a>
    ensures { fault_seen result ≡ fault_from command [] (first_read command) (map string_bytes words.entry.now) }
{
    let mut reading = first_read(command, words);
    'words: for (place, word) in words.iter().enumerate() {
        reading = match step(command, &words[..place], reading, word.as_str()) {
            Ok(next) => next,
            Err(fault) => return fault,
        };
    }
    at_end(command, reading)
}

fn fault_behind<'a>(first: &'a str, words: &'a [String]) -> Fault<'a>
    ensures { fault_seen result ≡ fault_behind (map string_bytes words.entry.now) first.entry.now }
{
    match command_by(first) {
        Some(command) => fault_from(command, words),
        None => no_such_command(first),
    }
}

/// What is wrong with the words, of which the first is the program's own name.
pub(crate) fn fault_of<'a>(words: &'a [String]) -> Fault<'a>
    ensures { fault_seen result ≡ fault_of (map string_bytes words.entry.now) }
{
    match words {
        [] | [_] => Fault::NoCommand,
        [_, first, rest @ ..] => fault_behind(first.as_str(), rest),
    }
}
