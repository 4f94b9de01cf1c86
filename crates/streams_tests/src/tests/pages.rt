//! Lines of words, the page that they ask for, and what a page puts.
use super::is_so;
use help_pages::{Page, page_of, show};
use sn_io::{Failed, MemSink};
use std::alloc::{AllocError, Global};
use std::process::Abort;
use std::test::Fail;

/// The words of a line, after the program's name; '' is an empty word, as in a shell.
fn words_of(alloc: Global, line: &str) -> Result<Vec<String>, AllocError> {
    let mut words = Vec::new(alloc);
    words.push(String::from_str(alloc, "safetynet")?)?;
    for word in line.split_whitespace() {
        let word = if word == "''" { "" } else { word };
        words.push(String::from_str(alloc, word)?)?;
    }
    Ok(words)
}

/// The lines are parted by semicolons.
const OVERVIEW: &str = ";--help;-h;help";

const ROLL: &str = "roll --help;roll -h;roll help;help roll";

const RESUME: &str = "resume --help;resume -h;resume help;help resume";

const TOPIC: &str = "help statuses";

const VERSION: &str =
    "--version;replay --version;drive --version;roll --version;save --version;resume --version;run --version;monitor --version;\
check --version;judge --version;demo --version;asm --version;dis --version";

const NEITHER: &str = "\
'';--;-;-V;--Help;HELP;--helper;hel;--help=1;version;replay;drive;run;monitor;check;demo;asm;dis;fly;fly --help;fly --version;--help fly;\
--help --help;help --help;help help;help fly;help '';-h replay;--help replay;--version replay;Replay --help;statuses;\
events --help;replay replay;replay --help --help;replay a --help;help replay help;help replay check;replay --nodes 2 --help;\
demo 5 --help;asm a;dis a -h;replay ''";

fn all_ask_for(
    rt: &impl Abort,
    alloc: Global,
    lines: &str,
    page: Option<Page>,
) -> Result<(), Fail> {
    for line in lines.split(';') {
        let words = words_of(alloc, line)?;
        assert!(rt; page_of(words.as_slice()) == page, "at {line}");
    }
    Ok(())
}

#[test]
fn a_call_for_a_page_is_one_word_alone_or_after_a_command(rt: HostRuntime) -> Result<(), Fail> {
    all_ask_for(&rt, rt.alloc(), OVERVIEW, Some(Page::Overview))?;
    all_ask_for(&rt, rt.alloc(), ROLL, Some(Page::Roll))?;
    all_ask_for(&rt, rt.alloc(), RESUME, Some(Page::Resume))?;
    all_ask_for(&rt, rt.alloc(), TOPIC, Some(Page::Statuses))?;
    all_ask_for(&rt, rt.alloc(), VERSION, Some(Page::Version))?;
    all_ask_for(&rt, rt.alloc(), NEITHER, None)
}

#[test]
fn without_even_a_name_it_is_the_overview(rt: HostRuntime) {
    is_so(&rt, page_of(&[]) == Some(Page::Overview));
}

/// Whether the page of the version comes to this on a console with so much room.
fn version_comes_to(
    rt: &impl Abort,
    alloc: Global,
    room: usize,
    wanted: Result<(), Failed>,
    text: &str,
) -> Result<(), Fail> {
    let mut console = MemSink::with_room(alloc, room)?;
    assert!(rt; show(&mut console, Page::Version) == wanted);
    assert!(rt; console.bytes() == text.as_bytes());
    Ok(())
}

#[test]
fn a_page_is_put_in_one_piece(rt: HostRuntime) -> Result<(), Fail> {
    version_comes_to(&rt, rt.alloc(), 16, Ok(()), "safetynet 0.1.0\n")?;
    version_comes_to(&rt, rt.alloc(), 15, Err(Failed), "")
}
