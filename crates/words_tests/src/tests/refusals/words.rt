//! All lines of three words of a list, beside what `command_words` says of them.
use super::{are_refused, reason_of};
use sn_base::Memory;
use std::alloc::{AllocError, Global};
use std::process::Abort;
use std::test::Fail;

/// What is said of the words of a command.
const NOTHING: &str = "# why: the words are no command's; see safetynet --help\n";

/// Words of each kind. The lines that are tried are made of them.
const WORDS: &[&str] = &[
    "p",
    "4",
    "17",
    "-",
    "",
    "-1",
    "-h",
    "help",
    "--",
    "--=1",
    "--nodes",
    "--nodes=2",
    "--nodes=",
    "--node",
    "--watch",
    "80000000",
    "--kill",
    "--kill=b3@5",
    "a1@0",
    "--seed",
    "--order=drawn",
    "--order",
    "--trace",
    "--trace=x",
    "--states",
    "--only=1-2",
    "--journal",
    "--help",
];

fn listed(alloc: Global, line: &[&str]) -> Result<Vec<String>, AllocError> {
    let mut words = Vec::new(alloc);
    for word in line {
        words.push(String::from_str(alloc, word)?)?;
    }
    Ok(words)
}

/// Something is said of the words where they are refused, and only there.
fn agree(rt: &impl Abort, alloc: Global, line: &[&str]) -> Result<(), Memory> {
    let words = listed(alloc, line)?;
    let reason = reason_of(alloc, words.as_slice())?;
    let is_said = reason.bytes() != NOTHING.as_bytes();
    assert!(rt; are_refused(alloc, words.as_slice()) == is_said, "{line:?}");
    Ok(())
}

fn all_agree(rt: &impl Abort, alloc: Global, command: &str) -> Result<(), Memory> {
    for first in WORDS {
        for second in WORDS {
            for third in WORDS {
                agree(rt, alloc, &["safetynet", command, *first, *second, *third])?;
            }
        }
    }
    Ok(())
}

#[test]
fn something_is_said_of_all_words_that_are_refused_and_of_no_others(
    rt: HostRuntime,
) -> Result<(), Fail> {
    for command in [
        "replay", "drive", "roll", "save", "resume", "run", "monitor", "check", "judge", "demo",
        "asm", "dis",
    ] {
        all_agree(&rt, rt.alloc(), command)?;
    }
    Ok(())
}
