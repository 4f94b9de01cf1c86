//! Each row is a call: its words, the program's file, the lines that come, which calls of the outside fail, and what is left.
use call_status::{ProgramCause, Status};
use elf_load::LoadCause;
use line_source::MemLines;
use safetynet_drive::{is_drive, safetynet_drive};
use sn_base::Memory;
use sn_io::{MemSink, MemStore};
use std::alloc::{AllocError, Global};
use std::process::Abort;
use std::test::Fail;

#[derive(Clone, Copy)]
struct Row {
    words: &'static str,
    program: &'static str,
    lines: &'static str,
    /// Which call of the store, the source and the report fails; 0 is none.
    failing: (u64, u64, u64),
    status: Status,
    console: &'static str,
    report: &'static str,
}

/// Puts `A` and exits.
const PUTS_A: &str = "04100513\n00100893\n00000073\n05d00893\n00000073\n";

const WORDS: &str = "safetynet drive --nodes 1 a.hex";

const STATES_WORDS: &str = "safetynet drive --nodes 1 --states a.hex";

/// A byte is put and released, between lines that are no events.
const RELEASED: &str = "\
step 0\n# a comment\nstep 0\nstep 0\nfall 0\nedge 0\nreport 0\nforesee validate\ndeliver 1\nstep 1\nvalidate\n";

const RELEASED_REPORT: &str = "\
1 step 0: retired
2 step 0: retired
3 step 0: retired
badline 5
4 edge 0: edged 1
5 report 0: reported 1
  msg 1 ready 0 0 1 1
6 validate: notready 0
6 deliver 1: delivered
outofrange 10
7 validate: validated 1
  msg 2 advance 0 0 1 1
events 7
point 1
committed 3
released 1
core 0 8000000c running x10=00000041 x17=00000001
";

const NO_LINES_REPORT: &str = "\
events 0
point 0
committed 0
released 0
core 0 80000000 running
";

/// What `replay --states` reports of one step.
const STATES_REPORT: &str = "\
{\"form\":\"safetynet states 1\",\"nodes\":1,\"sets\":16,\"ways\":4,\"log\":256,\"entry\":\"80000000\",\"events\":0,\
\"state\":{\"nodes\":[{\"node\":0,\"now\":0,\"known\":0,\"core\":{\"pc\":\"80000000\",\"end\":\"running\",\
\"registers\":{},\"reservation\":null},\"lines\":[],\"miss\":null,\"put\":null,\"log\":[],\"given\":\"\",\"taken\":0,\
\"waiting\":[]}],\"homes\":[],\"net\":{\"messages\":[],\"dead\":[],\"next\":\"1\"},\"controller\":{\"point\":0,\
\"reported\":[0],\"committed\":0,\"held\":[],\"released\":0}}}\n\
{\"place\":1,\"event\":\"step 0\",\"answer\":\"retired\",\"step\":{\"pc\":\"80000000\",\
\"instruction\":\"addi x10, x0, 65\",\"did\":{\"seen\":\"00000000\",\"done\":false,\"read\":null,\"wrote\":null,\
\"out\":null}},\"sent\":[],\"parts\":{\"nodes\":[{\"node\":0,\"now\":0,\"known\":0,\"core\":{\"pc\":\"80000004\",\
\"end\":\"running\",\"registers\":{\"x10\":\"00000041\"},\"reservation\":null},\"lines\":[],\"miss\":null,\
\"put\":null,\"log\":[],\"given\":\"\",\"taken\":0,\"waiting\":[{\"interval\":0,\"seen\":\"00000000\",\"done\":false,\
\"read\":null}]}],\"homes\":[],\"net\":null,\"controller\":{\"point\":0,\"reported\":[0],\"committed\":0,\"held\":[],\
\"released\":0}}}\n\
{\"summary\":{\"events\":1,\"point\":0,\"committed\":0,\"released\":0,\"cores\":[{\"pc\":\"80000000\",\
\"end\":\"running\",\"registers\":{},\"reservation\":null}],\"watch\":null,\"probes\":[]}}\n";

const NONE: (u64, u64, u64) = (0, 0, 0);

const ROWS: [Row; 10] = [
    Row {
        words: WORDS,
        program: PUTS_A,
        lines: RELEASED,
        failing: NONE,
        status: Status::Done,
        console: "A",
        report: RELEASED_REPORT,
    },
    Row {
        words: WORDS,
        program: PUTS_A,
        lines: "",
        failing: NONE,
        status: Status::Done,
        console: "",
        report: NO_LINES_REPORT,
    },
    Row {
        words: WORDS,
        program: PUTS_A,
        lines: "validate\nvalidate\n",
        failing: (0, 2, 0),
        status: Status::InputFault,
        console: "",
        report: "1 validate: notready 0\n",
    },
    Row {
        words: WORDS,
        program: PUTS_A,
        lines: "validate\nvalidate\n",
        failing: (0, 0, 2),
        status: Status::SinkFault,
        console: "",
        report: "1 validate: notready 0\n",
    },
    Row {
        words: STATES_WORDS,
        program: PUTS_A,
        lines: "step 0\n",
        failing: NONE,
        status: Status::Done,
        console: "",
        report: STATES_REPORT,
    },
    Row {
        words: STATES_WORDS,
        program: PUTS_A,
        lines: "step 0\n",
        failing: (0, 0, 1),
        status: Status::SinkFault,
        console: "",
        report: "",
    },
    Row {
        words: WORDS,
        program: "fly\n",
        lines: RELEASED,
        failing: NONE,
        status: Status::BadProgram(ProgramCause::Load(LoadCause::BadHexLine(1))),
        console: "",
        report: "",
    },
    Row {
        words: WORDS,
        program: PUTS_A,
        lines: RELEASED,
        failing: (1, 0, 0),
        status: Status::StoreFault,
        console: "",
        report: "",
    },
    Row {
        words: "safetynet drive --nodes 17 a.hex",
        program: PUTS_A,
        lines: RELEASED,
        failing: NONE,
        status: Status::Usage,
        console: "",
        report: "",
    },
    Row {
        words: "safetynet dis a.hex",
        program: PUTS_A,
        lines: RELEASED,
        failing: NONE,
        status: Status::Usage,
        console: "",
        report: "",
    },
];

fn words_in(alloc: Global, text: &str) -> Result<Vec<String>, AllocError> {
    let mut words = Vec::new(alloc);
    for word in text.split_whitespace() {
        words.push(String::from_str(alloc, word)?)?;
    }
    Ok(words)
}

fn store_of(alloc: Global, row: &Row) -> Result<MemStore, Memory> {
    let mut store = MemStore::new(alloc);
    store.add("a.hex", row.program.as_bytes())?;
    store.fail_call(row.failing.0)?;
    Ok(store)
}

fn report_of(alloc: Global, row: &Row) -> Result<MemSink, Memory> {
    let mut report = MemSink::with_room(alloc, 2_000)?;
    report.fail_call(row.failing.2)?;
    Ok(report)
}

/// The call of a row leaves what it says.
fn is_left(rt: &impl Abort, alloc: Global, row: &Row) -> Result<(), Fail> {
    let given = words_in(alloc, row.words)?;
    let mut store = store_of(alloc, row)?;
    let mut console = MemSink::with_room(alloc, 8)?;
    let mut report = report_of(alloc, row)?;
    let mut lines = MemLines::new(row.lines.as_bytes());
    lines.fail_call(row.failing.1);
    let status = safetynet_drive(
        alloc,
        given.as_slice(),
        &mut store,
        &mut lines,
        &mut console,
        &mut report,
        Vec::new(alloc),
    );
    let words = row.words;
    assert!(rt; status == row.status, "the status of {words}");
    assert!(rt;
        console.bytes() == row.console.as_bytes(),
        "the console of {words}"
    );
    assert!(rt;
        report.bytes() == row.report.as_bytes(),
        "the report of {words}"
    );
    Ok(())
}

/// Each row's call leaves what it says.
fn each_is_left(rt: &impl Abort, alloc: Global, rows: &[Row]) -> Result<(), Fail> {
    for row in rows {
        is_left(rt, alloc, row)?;
    }
    Ok(())
}

#[test]
fn each_call_leaves_what_its_row_says(rt: HostRuntime) -> Result<(), Fail> {
    each_is_left(&rt, rt.alloc(), &ROWS)
}

#[test]
fn the_first_word_says_whether_a_call_is_a_drive(rt: HostRuntime) -> Result<(), Fail> {
    for (text, wanted) in [
        ("safetynet drive a.hex", true),
        ("safetynet drive", true),
        ("safetynet replay drive", false),
        ("safetynet", false),
        ("drive", false),
    ] {
        let words = words_in(rt.alloc(), text)?;
        assert!(rt; is_drive(words.as_slice()) == wanted, "at {text}");
    }
    Ok(())
}
