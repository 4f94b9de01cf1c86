//! Each row has the words of a line that are no command's, and what the line of their reason says behind `# why: `. Numbers and other
//! values have a file of their own, and so has the comparison with `command_words` on all lines of three words of a list.
mod values;
mod words;

use command_words::{WordsFault, read_words};
use reasons::Reason;
use sn_base::Memory;
use std::alloc::{AllocError, Global};
use std::process::Abort;
use std::test::Fail;
use usage_reasons::write_usage;

/// The words of a line, after the program's name; '' is an empty word, as in a shell.
fn words_of(alloc: Global, line: &str) -> Result<Vec<String>, AllocError> {
    let mut words = Vec::new(alloc);
    words.push(String::from_str(alloc, "safetynet")?)?;
    for word in line.split_whitespace() {
        let word = if word == "''" { "" } else { word };
        words.push(String::from_str(alloc, word)?)?;
    }
    Ok(words)
}

/// Whether the words are no command's.
fn are_refused(alloc: Global, words: &[String]) -> bool {
    match read_words(alloc, words) {
        Ok(_) | Err(WordsFault::Memory) => false,
        Err(WordsFault::Usage) => true,
    }
}

/// The line that is due.
fn line_of(alloc: Global, wanted: &str) -> Result<String, AllocError> {
    format!(in alloc; "# why: {wanted}\n")
}

fn reason_of(alloc: Global, words: &[String]) -> Result<Reason, Memory> {
    let mut reason = Reason::new(alloc);
    write_usage(&mut reason, words)?;
    Ok(reason)
}

/// The words are refused, and the reason is the one that is wanted.
fn says(rt: &impl Abort, alloc: Global, line: &str, wanted: &str) -> Result<(), Memory> {
    let words = words_of(alloc, line)?;
    let reason = reason_of(alloc, words.as_slice())?;
    let due = line_of(alloc, wanted)?;
    assert!(rt;
        are_refused(alloc, words.as_slice()),
        "{line} is a command's"
    );
    assert!(rt; reason.bytes() == due.as_bytes(), "{line}: {wanted}");
    Ok(())
}

fn all_say(rt: &impl Abort, alloc: Global, rows: &[(&str, &str)]) -> Result<(), Memory> {
    for (line, wanted) in rows {
        says(rt, alloc, line, wanted)?;
    }
    Ok(())
}

const COMMANDS: &[(&str, &str)] = &[
    ("", "a command is lacking; see safetynet --help"),
    ("fly", "fly: there is no such command; see safetynet --help"),
    (
        "reply",
        "reply: there is no such command; did you mean replay?",
    ),
    (
        "repla p s",
        "repla: there is no such command; did you mean replay?",
    ),
    (
        "Replay p s",
        "Replay: there is no such command; did you mean replay?",
    ),
    ("''", "\"\": there is no such command; see safetynet --help"),
    (
        "fl\"y",
        "fl\\x22y: there is no such command; see safetynet --help",
    ),
    (
        "012345678901234567890123456789012345678901234567890123456789",
        "012345678901234567890123456789012345678901234567890123456789: \
            there is no such command; see safetynet --help",
    ),
    (
        "0123456789012345678901234567890123456789012345678901234567890",
        "012345678901234567890123456789012345678901234567890123456789..: \
            there is no such command; see safetynet --help",
    ),
    (
        "--version",
        "--version: the command comes first; see safetynet --help",
    ),
    ("-V", "-V: the command comes first; see safetynet --help"),
    ("--", "--: the command comes first; see safetynet --help"),
    (
        "-- replay p s",
        "--: the command comes first; see safetynet --help",
    ),
    (
        "--nodes 4 replay p s",
        "--nodes: the command comes first; see safetynet --help",
    ),
    (
        "help fly",
        "help: a call for help is a command and --help, as safetynet run --help",
    ),
    (
        "--help",
        "--help: a call for help is a command and --help, as safetynet run --help",
    ),
    (
        "-h",
        "-h: a call for help is a command and --help, as safetynet run --help",
    ),
    (
        "help",
        "help: a call for help is a command and --help, as safetynet run --help",
    ),
];

#[test]
fn a_word_that_is_no_command_is_named(rt: HostRuntime) -> Result<(), Fail> {
    all_say(&rt, rt.alloc(), COMMANDS)?;
    Ok(())
}

const FILES: &[(&str, &str)] = &[
    (
        "replay",
        "replay: PROGRAM is lacking; see safetynet replay --help",
    ),
    (
        "replay p",
        "replay: SCRIPT is lacking; see safetynet replay --help",
    ),
    (
        "replay help",
        "replay: SCRIPT is lacking; see safetynet replay --help",
    ),
    (
        "replay p --nodes 4",
        "replay: SCRIPT is lacking; see safetynet replay --help",
    ),
    (
        "replay -- --nodes",
        "replay: SCRIPT is lacking; see safetynet replay --help",
    ),
    (
        "replay --nodes 4 -- --nodes",
        "replay: SCRIPT is lacking; see safetynet replay --help",
    ),
    (
        "roll p s",
        "roll: CONTROL is lacking; see safetynet roll --help",
    ),
    (
        "save p",
        "save: SCRIPT is lacking; see safetynet save --help",
    ),
    (
        "resume p",
        "resume: SAVE is lacking; see safetynet resume --help",
    ),
    ("run", "run: PROGRAM is lacking; see safetynet run --help"),
    (
        "monitor",
        "monitor: PROGRAM is lacking; see safetynet monitor --help",
    ),
    (
        "check p",
        "check: TRACE is lacking; see safetynet check --help",
    ),
    (
        "judge",
        "judge: ACCESSES is lacking; see safetynet judge --help",
    ),
    ("demo", "demo: SIZE is lacking; see safetynet demo --help"),
    ("asm", "asm: TEXT is lacking; see safetynet asm --help"),
    ("dis", "dis: PROGRAM is lacking; see safetynet dis --help"),
    (
        "replay p s c.script",
        "c.script: replay takes no more files; see safetynet replay --help",
    ),
    (
        "roll p s c -",
        "-: roll takes no more files; see safetynet roll --help",
    ),
    (
        "run p -- -x",
        "-x: run takes no more files; see safetynet run --help",
    ),
    (
        "run p s",
        "s: run takes no more files; see safetynet run --help",
    ),
    (
        "monitor p s",
        "s: monitor takes no more files; see safetynet monitor --help",
    ),
    (
        "judge a b",
        "b: judge takes no more files; see safetynet judge --help",
    ),
    (
        "demo 1 2",
        "2: demo takes no more files; see safetynet demo --help",
    ),
    (
        "replay p s t",
        "t: replay takes no more files; see safetynet replay --help",
    ),
];

#[test]
fn a_file_that_is_lacking_or_one_too_many_is_named(rt: HostRuntime) -> Result<(), Fail> {
    all_say(&rt, rt.alloc(), FILES)?;
    Ok(())
}

const OPTIONS: &[(&str, &str)] = &[
    (
        "replay p s --node 4",
        "--node: replay has no such option; did you mean --nodes?",
    ),
    (
        "replay p s --node=4",
        "--node: replay has no such option; did you mean --nodes?",
    ),
    (
        "replay p s --Nodes 4",
        "--Nodes: replay has no such option; did you mean --nodes?",
    ),
    (
        "replay p s --trade",
        "--trade: replay has no such option; did you mean --trace?",
    ),
    (
        "replay p s -x",
        "-x: replay has no such option; see safetynet replay --help",
    ),
    (
        "replay p s --=x",
        "--: replay has no such option; see safetynet replay --help",
    ),
    (
        "replay p s --version",
        "--version: replay has no such option; see safetynet replay --help",
    ),
    (
        "replay p s --journal",
        "--journal: replay has no such option; see safetynet replay --help",
    ),
    (
        "replay p s --seed 4",
        "--seed: replay has no such option; see safetynet replay --help",
    ),
    (
        "run p --script s",
        "--script: run has no such option; see safetynet run --help",
    ),
    (
        "run p --loseevery 4",
        "--loseevery: run has no such option; did you mean --lose-every?",
    ),
    (
        "run p --lose_every 4",
        "--lose_every: run has no such option; did you mean --lose-every?",
    ),
    (
        "monitor p --trace",
        "--trace: monitor has no such option; see safetynet monitor --help",
    ),
    (
        "monitor p --order round",
        "--order: monitor has no such option; see safetynet monitor --help",
    ),
    (
        "run p --order slow",
        "--order slow: an order is threads, round or drawn",
    ),
    (
        "run p --order=",
        "--order \"\": an order is threads, round or drawn",
    ),
    ("run p --order", "--order: a value is lacking"),
    (
        "run p --order round --order=drawn",
        "--order: it stands twice",
    ),
    (
        "monitor p --journal",
        "--journal: monitor has no such option; see safetynet monitor --help",
    ),
    (
        "check p t --kill a0@0",
        "--kill: check has no such option; see safetynet check --help",
    ),
    (
        "check p t --sets 4",
        "--sets: check has no such option; see safetynet check --help",
    ),
    (
        "judge a --nodes 2",
        "--nodes: judge has no such option; see safetynet judge --help",
    ),
    (
        "demo -5",
        "-5: demo has no such option; see safetynet demo --help",
    ),
    (
        "replay p s --help",
        "--help: a call for help is a command and --help, as safetynet run --help",
    ),
    (
        "replay --help",
        "--help: a call for help is a command and --help, as safetynet run --help",
    ),
    (
        "replay p s -h",
        "-h: a call for help is a command and --help, as safetynet run --help",
    ),
    ("replay p s --nodes", "--nodes: a value is lacking"),
    ("replay p s --nodes --trace", "--nodes: a value is lacking"),
    ("replay --watch -- p s", "--watch: a value is lacking"),
    ("run p --kill", "--kill: a value is lacking"),
    (
        "replay p s --trace=x",
        "--trace=x: this option takes no value",
    ),
    (
        "replay p s --trace=",
        "--trace=: this option takes no value",
    ),
    (
        "replay p s --trace=true",
        "--trace=true: this option takes no value",
    ),
    (
        "run p --journal=x",
        "--journal=x: this option takes no value",
    ),
    ("replay p s --nodes 4 --nodes 4", "--nodes: it stands twice"),
    ("replay p s --nodes=4 --nodes=5", "--nodes: it stands twice"),
    ("replay p s --nodes=4 --nodes", "--nodes: it stands twice"),
    ("run p --kill a0@0 --kill b0@0", "--kill: it stands twice"),
    ("replay p s --trace --trace", "--trace: it stands twice"),
    ("run p --journal --journal", "--journal: it stands twice"),
    (
        "replay --states p --trace s",
        "--states and --trace don't stand together",
    ),
    (
        "replay p s --trace --statistics",
        "--trace and --statistics don't stand together",
    ),
    (
        "replay p s --statistics --only 1-2",
        "--only stands with --states alone",
    ),
    (
        "drive p --statistics",
        "--statistics: drive has no such option; see safetynet drive --help",
    ),
    (
        "drive p --trace",
        "--trace: drive has no such option; see safetynet drive --help",
    ),
    ("drive p --states --states", "--states: it stands twice"),
    (
        "drive --states=1 p",
        "--states=1: this option takes no value",
    ),
    (
        "drive p --states --only 1-2",
        "--only: drive has no such option; see safetynet drive --help",
    ),
    (
        "drive p s",
        "s: drive takes no more files; see safetynet drive --help",
    ),
    (
        "drive",
        "drive: PROGRAM is lacking; see safetynet drive --help",
    ),
    ("replay p s --only 1-2", "--only stands with --states alone"),
    (
        "replay p s --only 1-2 --trace",
        "--only stands with --states alone",
    ),
    (
        "replay p s --states --only 9-3",
        "--only 9-3: places are two numbers of events from 1 to 1000000, as 3-9, the second not below the first",
    ),
    (
        "replay p s --only=0-1 --states",
        "--only 0-1: places are two numbers of events from 1 to 1000000, as 3-9, the second not below the first",
    ),
    ("replay p s --states --only", "--only: a value is lacking"),
    (
        "replay p s --states=1",
        "--states=1: this option takes no value",
    ),
    ("replay p s --states --states", "--states: it stands twice"),
    (
        "run p --statistics --accesses",
        "--statistics and --accesses don't stand together",
    ),
    (
        "run p --seeds 1-2 --order threads",
        "--seeds stands with --order round or --order drawn alone",
    ),
    (
        "run p --seeds 1-2 --order round --accesses",
        "--accesses and --seeds don't stand together",
    ),
    (
        "run p --seeds 1-2",
        "--seeds stands with --order round or --order drawn alone",
    ),
    (
        "run p --seeds 2-1 --order round",
        "--seeds 2-1: a range is two seeds, as 1-100, the second not below the first, and at most 1000000 of them",
    ),
    (
        "run p --seeds=0-1000000 --order round",
        "--seeds 0-1000000: a range is two seeds, as 1-100, the second not below the first, and at most 1000000 of them",
    ),
    (
        "run p --seeds 1-2 --order round --journal",
        "--journal and --seeds don't stand together",
    ),
    (
        "run p --seeds 1-2 --order round --seed 1",
        "--seed and --seeds don't stand together",
    ),
    (
        "run p --trace --statistics",
        "--trace and --statistics don't stand together",
    ),
    (
        "run --trace --journal p",
        "--trace and --journal don't stand together",
    ),
    (
        "run --journal p --trace",
        "--journal and --trace don't stand together",
    ),
];

#[test]
fn an_option_that_does_not_stand_as_it_should_is_named(rt: HostRuntime) -> Result<(), Fail> {
    all_say(&rt, rt.alloc(), OPTIONS)?;
    Ok(())
}
