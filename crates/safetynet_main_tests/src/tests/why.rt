//! Each row has a call's words, the files as they are now, the status in which it ended, and the line that says why.
ghost use Rattle.std.specs.Prelude.{◌≡◌, IfOk, true};
ghost use Rattle.command_words.specs.Request.{as_request, request_fits};

use call_reasons::{file_of, write_notes, write_reason};
use call_status::{ProgramCause, Status};
use command_words::{Request, read_words};
use elf_load::LoadCause;
use reasons::Reason;
use rv_asm::AsmCause;
use rv_core::Cause;
use save_text::SaveCause;
use sn_base::{Memory, NodeId};
use sn_io::MemStore;
use sn_text::ScriptCause;
use std::alloc::Global;
use std::process::Abort;
use std::test::Fail;

/// A file's name and its bytes.
type Held = (&'static str, &'static [u8]);

/// A call: its words, the files, how it ended, and the line.
#[derive(Clone, Copy)]
struct Row {
    words: &'static str,
    files: &'static [Held],
    status: Status,
    line: &'static str,
}

fn request_of(rt: &impl Abort, alloc: Global, text: &str) -> Result<Request, Memory>
    ensures { IfOk result (λ request. request_fits (as_request request) ≡ true) }
{
    let mut words = Vec::new(alloc);
    for word in text.split_whitespace() {
        words.push(String::from_str(alloc, word)?)?;
    }
    Ok(read_words(alloc, words.as_slice()).expect(rt, "a command"))
}

fn store_of(alloc: Global, files: &[Held]) -> Result<MemStore, Memory> {
    let mut store = MemStore::new(alloc);
    for (name, bytes) in files {
        store.add(name, bytes)?;
    }
    Ok(store)
}

fn reason_of(rt: &impl Abort, alloc: Global, row: &Row) -> Result<Reason, Memory> {
    let request = request_of(rt, alloc, row.words)?;
    let mut store = store_of(alloc, row.files)?;
    let mut reason = Reason::new(alloc);
    write_reason(alloc, &mut store, &request, row.status, &mut reason)?;
    Ok(reason)
}

fn says(rt: &impl Abort, alloc: Global, row: &Row) -> Result<(), Memory> {
    let reason = reason_of(rt, alloc, row)?;
    assert!(rt; reason.bytes() == row.line.as_bytes(), "{}", row.line);
    Ok(())
}

fn program_rows() -> [Row; 4] {
    [
        Row {
            words: "safetynet replay a.hex a.script",
            files: &[("a.hex", b"04100513\nxyz\n")],
            status: Status::BadProgram(ProgramCause::Load(LoadCause::BadHexLine(2))),
            line: "# why: a.hex:2: \"xyz\" isn't eight hexadecimal digits\n",
        },
        Row {
            words: "safetynet dis gone.hex",
            files: &[],
            status: Status::BadProgram(ProgramCause::Load(LoadCause::BadHexLine(2))),
            line: "# why: gone.hex:2: this line isn't eight hexadecimal digits\n",
        },
        Row {
            words: "safetynet run a.hex",
            files: &[],
            status: Status::BadProgram(ProgramCause::TooLong),
            line: "# why: a.hex: more than 16777216 bytes\n",
        },
        Row {
            words: "safetynet asm a.s",
            files: &[("a.s", b"addi x5, x0, 7\nbad\n")],
            status: Status::BadAsm(AsmCause::BadLine(2)),
            line: "# why: a.s:2: this line is no instruction: \"bad\"\n",
        },
    ]
}

const SCRIPT: &[u8] = b"step 0\nstepp 0\n";

fn line_rows() -> [Row; 6] {
    [
        Row {
            words: "safetynet replay --states --only 5-9 a.hex a.script",
            files: &[("a.script", SCRIPT)],
            status: Status::BadPlaces(7),
            line: "# why: --only 5-9: the script has 7 events\n",
        },
        Row {
            words: "safetynet replay a.hex a.script",
            files: &[("a.script", SCRIPT)],
            status: Status::BadScript(ScriptCause::BadLine(2)),
            line: "# why: a.script:2: this line is no event: \"stepp 0\"; did you mean step?\n",
        },
        Row {
            words: "safetynet check --nodes 2 a.hex a.trace",
            files: &[("a.trace", b"2 00000000 0\n")],
            status: Status::BadScript(ScriptCause::OutOfRange(1)),
            line: "# why: a.trace:1: a machine of 2 nodes has no such core: \"2 00000000 0\"\n",
        },
        Row {
            words: "safetynet judge a.accesses",
            files: &[("a.accesses", b"16 r 80001000 1 00\n")],
            status: Status::BadScript(ScriptCause::OutOfRange(1)),
            line: "# why: a.accesses:1: a machine of 16 nodes has no such core or address: \"16 r 80001000 1 00\"\n",
        },
        Row {
            words: "safetynet roll a.hex a.script a.control",
            files: &[("a.script", SCRIPT), ("a.control", b"order 0\nordr 0\n")],
            status: Status::BadScript(ScriptCause::BadLine(2)),
            line: "# why: a.script:2: this line is no event: \"stepp 0\"; did you mean step?\n",
        },
        Row {
            words: "safetynet roll a.hex a.script a.control",
            files: &[
                ("a.script", b"step 0\n"),
                ("a.control", b"order 0\nordr 0\n"),
            ],
            status: Status::BadScript(ScriptCause::BadLine(2)),
            line: "# why: a.control:2: this line is no control: \"ordr 0\"; did you mean order?\n",
        },
    ]
}

/// Each core adds 1 to the word at 80001000.
const COUNT: &[u8] = b"800012b7\n00100313\n0062a3af\n05d00893\n00000073\n";

const SAVED: &[u8] =
    b"safetynet-save 1\nconfig 2 1 1 256\nmarks 1 8 18\nowner 64 1\nowner 65 1\nend\n";

fn save_rows() -> [Row; 6] {
    [
        Row {
            words: "safetynet resume a.hex a.save a.script",
            files: &[("a.save", b"safetynet-save 1\nconfig 2 1 1\nend\n")],
            status: Status::BadSave(SaveCause::BadLine(2)),
            line: "# why: a.save:2: no line of a save file that may stand here: \"config 2 1 1\"\n",
        },
        Row {
            words: "safetynet resume a.hex a.save a.script",
            files: &[("a.save", b"safetynet-save 1\n")],
            status: Status::BadSave(SaveCause::BadLine(2)),
            line: "# why: a.save:2: the file ends here, and not with the line `end` and its LF\n",
        },
        Row {
            words: "safetynet resume a.hex a.save a.script",
            files: &[("a.save", SAVED)],
            status: Status::BadSave(SaveCause::SetFull(5)),
            line: "# why: a.save:5: the set of that block has no place left in the cache of that node: \"owner 65 1\"\n",
        },
        Row {
            words: "safetynet resume a.hex a.save a.script",
            files: &[("a.save", SAVED)],
            status: Status::BadSave(SaveCause::NotLegal(3)),
            line: "# why: a.save: this program doesn't do the instruction of `rec` line 3 after those before it\n",
        },
        Row {
            words: "safetynet resume a.hex a.save a.script",
            files: &[("a.save", SAVED)],
            status: Status::BadSave(SaveCause::TooLong),
            line: "# why: a.save: more than 67108864 bytes\n",
        },
        Row {
            words: "safetynet resume a.hex a.save a.script",
            files: &[("a.save", SAVED), ("a.script", b"step 2\n")],
            status: Status::BadScript(ScriptCause::OutOfRange(1)),
            line: "# why: a.script:1: a machine of 2 nodes has no such node, block or switch: \"step 2\"\n",
        },
    ]
}

fn trace_rows() -> [Row; 3] {
    [
        Row {
            words: "safetynet check a.hex a.trace",
            files: &[
                ("a.hex", COUNT),
                (
                    "a.trace",
                    b"# one core\n0 00000000 0\n0 00000000 0\n0 00000001 0\n",
                ),
            ],
            status: Status::Refused(3),
            line: "# why: record 3 (line 4): core 0 saw 00000001, and the memory has 00000000\n",
        },
        Row {
            words: "safetynet check a.hex a.trace",
            files: &[("a.hex", COUNT), ("a.trace", b"1 00000000 1\n")],
            status: Status::Refused(1),
            line: "# why: record 1 (line 1): core 1 saw 00000000, and the flat machine has no such step\n",
        },
        Row {
            words: "safetynet check a.hex a.trace",
            files: &[],
            status: Status::Refused(3),
            line: "# why: record 3: the flat machine has no such step\n",
        },
    ]
}

/// A read of a byte that core 0 has written since, and a store-conditional of a core whose reservation that write ended.
const STALE: &[u8] = b"# a start\ninit 80001000 00000007\n0 w 80001000 1 2a\n1 r 80001000 1 07\n";

const UNRESERVED: &[u8] =
    b"1 lr 80001000 4 00000000\n0 w 80001008 1 ff\n1 sc 80001000 4 00000001\n";

fn access_rows() -> [Row; 5] {
    [
        Row {
            words: "safetynet judge a.accesses",
            files: &[("a.accesses", STALE)],
            status: Status::Refused(2),
            line: "# why: access 2 (line 4): core 1 read 00000007, and memory has 0000002a, which access 1 wrote last\n",
        },
        Row {
            words: "safetynet judge a.accesses",
            files: &[("a.accesses", b"2 r 80001000 4 00000001\n")],
            status: Status::Refused(1),
            line: "# why: access 1 (line 1): core 2 read 00000001, and memory has 00000000 from the start\n",
        },
        Row {
            words: "safetynet judge a.accesses",
            files: &[("a.accesses", UNRESERVED)],
            status: Status::Refused(3),
            line: "# why: access 3 (line 3): core 1 has no reservation since access 2\n",
        },
        Row {
            words: "safetynet judge a.accesses",
            files: &[("a.accesses", b"1 sc 80001000 4 00000001\n")],
            status: Status::Refused(1),
            line: "# why: access 1 (line 1): core 1 has no reservation\n",
        },
        Row {
            words: "safetynet judge a.accesses",
            files: &[("a.accesses", b"0 r 80001000 4 00000000\n")],
            status: Status::Refused(1),
            line: "",
        },
    ]
}

fn other_rows() -> [Row; 8] {
    [
        Row {
            words: "safetynet run --budget 50 a.hex",
            files: &[],
            status: Status::Budget,
            line: "# why: the run has 50 events, which is its budget, and its cores haven't all ended\n",
        },
        Row {
            words: "safetynet monitor --budget 50 a.hex",
            files: &[],
            status: Status::Budget,
            line: "# why: the run has 50 events, which is its budget, and its cores haven't all ended\n",
        },
        Row {
            words: "safetynet demo 5",
            files: &[],
            status: Status::SinkFault,
            line: "# why: not all of the output could be written\n",
        },
        Row {
            words: "safetynet demo 5",
            files: &[],
            status: Status::Memory,
            line: "# why: there wasn't enough memory\n",
        },
        Row {
            words: "safetynet drive a.hex",
            files: &[],
            status: Status::InputFault,
            line: "# why: standard input can't be read to its end\n",
        },
        Row {
            words: "safetynet drive a.hex",
            files: &[],
            status: Status::Budget,
            line: "# why: the drive has 1000000 events, and there is room for no more\n",
        },
        Row {
            words: "safetynet replay a.hex a.script",
            files: &[],
            status: Status::StoreFault,
            line: "",
        },
        Row {
            words: "safetynet demo 5",
            files: &[],
            status: Status::Done,
            line: "",
        },
    ]
}

#[test]
fn each_refusal_shows_its_place(rt: HostRuntime) -> Result<(), Fail> {
    for row in &program_rows() {
        says(&rt, rt.alloc(), row)?;
    }
    for row in &line_rows() {
        says(&rt, rt.alloc(), row)?;
    }
    for row in &save_rows() {
        says(&rt, rt.alloc(), row)?;
    }
    for row in &trace_rows() {
        says(&rt, rt.alloc(), row)?;
    }
    for row in &access_rows() {
        says(&rt, rt.alloc(), row)?;
    }
    for row in &other_rows() {
        says(&rt, rt.alloc(), row)?;
    }
    Ok(())
}

#[test]
fn a_run_names_its_nodes(rt: HostRuntime) -> Result<(), Fail> {
    let a = NodeId::new(0).expect(&rt, "a node");
    let b = NodeId::new(1).expect(&rt, "a node");
    let words = "safetynet run a.hex";
    let cut_off = Row {
        words,
        files: &[],
        status: Status::CutOff(a, b),
        line: "# why: nodes 0 and 1 are cut off: no living switches join them\n",
    };
    says(&rt, rt.alloc(), &cut_off)?;
    let trapped = Row {
        words,
        files: &[],
        status: Status::Trapped(b, Cause::Break),
        line: "# why: core 1 trapped: it met ebreak\n",
    };
    says(&rt, rt.alloc(), &trapped)?;
    Ok(())
}

/// A call's words, and the names of the files that it fetches.
type Fetched = (
    &'static str,
    Option<&'static str>,
    Option<&'static str>,
    Option<&'static str>,
);

const FETCHED: &[Fetched] = &[
    (
        "safetynet replay a.hex b.script",
        Some("a.hex"),
        Some("b.script"),
        None,
    ),
    (
        "safetynet roll a.hex b.script c.control",
        Some("a.hex"),
        Some("b.script"),
        Some("c.control"),
    ),
    (
        "safetynet save a.hex b.script",
        Some("a.hex"),
        Some("b.script"),
        None,
    ),
    (
        "safetynet resume a.hex b.save c.script",
        Some("a.hex"),
        Some("b.save"),
        Some("c.script"),
    ),
    ("safetynet run a.hex", Some("a.hex"), None, None),
    ("safetynet monitor a.hex", Some("a.hex"), None, None),
    (
        "safetynet check a.hex b.trace",
        Some("a.hex"),
        Some("b.trace"),
        None,
    ),
    ("safetynet judge a.accesses", Some("a.accesses"), None, None),
    ("safetynet demo 5", None, None, None),
    ("safetynet asm a.s", Some("a.s"), None, None),
    ("safetynet dis a.hex", Some("a.hex"), None, None),
];

#[test]
fn files_stand_in_their_order(rt: HostRuntime) -> Result<(), Fail> {
    for (words, first, second, third) in FETCHED {
        let request = request_of(&rt, rt.alloc(), words)?;
        assert!(&rt; file_of(&request, 0) == *first, "{words}");
        assert!(&rt; file_of(&request, 1) == *second, "{words}");
        assert!(&rt; file_of(&request, 2) == *third, "{words}");
        assert!(&rt; file_of(&request, 3).is_none(), "{words}");
    }
    Ok(())
}

/// A script, whether the words give the number of nodes, and the notes on its replay on four.
const NOTED: &[(&[u8], bool, &str)] = &[
    (
        b"step 0\ndeliver 6\nvalidate\n",
        true,
        "# note: 2 of 3 events were refused, the first is 2 deliver 6: nomessage\n",
    ),
    (
        b"step 0\nedge 2\n",
        false,
        "# note: --nodes wasn't given: 4 nodes\n",
    ),
    (
        b"hop 1\n",
        false,
        "# note: 1 of 1 events were refused, the first is 1 hop 1: nomessage\n\
        # note: --nodes wasn't given: 4 nodes\n",
    ),
    (b"step 3\n", false, ""),
    (b"step 0\n", true, ""),
    (b"stepp\n", false, ""),
];

fn notes_of(rt: &impl Abort, alloc: Global, script: &[u8], gives: bool) -> Result<Reason, Memory> {
    let request = request_of(rt, alloc, "safetynet replay a.hex a.script")?;
    let mut store = MemStore::new(alloc);
    store.add("a.hex", COUNT)?;
    store.add("a.script", script)?;
    let mut note = Reason::new(alloc);
    write_notes(alloc, &mut store, &request, gives, &mut note)?;
    Ok(note)
}

#[test]
fn a_replay_is_noted(rt: HostRuntime) -> Result<(), Fail> {
    for (script, gives, wanted) in NOTED {
        let note = notes_of(&rt, rt.alloc(), script, *gives)?;
        assert!(&rt; note.bytes() == wanted.as_bytes(), "{wanted}");
    }
    Ok(())
}
