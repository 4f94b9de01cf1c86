//! Traces of small programs, which are judged first, and then put with their accesses.

use committed_accesses::{AccessRows, RowsFault, put_access_rows, rows_have_the_accesses};
use elf_load::load;
use sn_io::{MemSink, OpenGate};
use sn_text::read_trace;
use std::alloc::Global;
use std::process::Abort;
use std::test::Fail;
use std::thread::Threads;
use trace_check::check;

/// A program on so many nodes, a trace of it, and the lines of its rows after the header.
#[derive(Clone, Copy)]
struct Row {
    nodes: u8,
    program: &'static str,
    trace: &'static str,
    lines: &'static str,
}

const HEADER: &str = "core,pc,instruction,address,size,read,written,done\n";

/// Two nodes add 1 to a word; the second sees what the first has written.
const ADDS: Row = Row {
    nodes: 2,
    program: "800012b7\n00100313\n0062a3af\n05d00893\n00000073\n",
    trace: "0 00000000 0\n0 00000000 0\n1 00000000 0\n1 00000000 0\n1 00000000 0\n0 00000001 0\n",
    lines: "\
0,80000000,\"lui x5, 524289\",,,,,
0,80000004,\"addi x6, x0, 1\",,,,,
1,80000000,\"lui x5, 524289\",,,,,
1,80000004,\"addi x6, x0, 1\",,,,,
1,80000008,\"amoadd.w x7, x6, (x5)\",80001000,4,00000000,00000001,
0,80000008,\"amoadd.w x7, x6, (x5)\",80001000,4,00000001,00000002,
",
};

/// Half a word is stored, a byte of it is loaded, and of two store-conditionals the first is done. The last load traps.
const WIDTHS: Row = Row {
    nodes: 1,
    program: "800012b7\nffe00313\n00629123\n00328383\n1002a42f\n1862a4af\n1862a4af\n0012a383\n",
    trace: "0 00000000 0\n0 00000000 0\n0 00000000 0\n0 fffe0000 0\n0 fffe0000 0\n0 00000000 1\n0 00000000 0\n0 00000000 0\n",
    lines: "\
0,80000000,\"lui x5, 524289\",,,,,
0,80000004,\"addi x6, x0, -2\",,,,,
0,80000008,\"sh x6, 2(x5)\",80001002,2,,fffe,
0,8000000c,\"lb x7, 3(x5)\",80001003,1,ff,,
0,80000010,\"lr.w x8, (x5)\",80001000,4,fffe0000,,
0,80000014,\"sc.w x9, x6, (x5)\",80001000,4,,fffffffe,1
0,80000018,\"sc.w x9, x6, (x5)\",80001000,4,,,0
0,8000001c,\"lw x7, 1(x5)\",,,,,
",
};

/// A byte is read and put out, which is no access.
const ECHOES: Row = Row {
    nodes: 1,
    program: "00200893\n00000073\n00100893\n00000073\n",
    trace: "0 00000000 0\n0 00000000 0 41\n0 00000000 0\n0 00000000 0\n",
    lines: "\
0,80000000,\"addi x17, x0, 2\",,,,,
0,80000004,\"ecall\",,,,,
0,80000008,\"addi x17, x0, 1\",,,,,
0,8000000c,\"ecall\",,,,,
",
};

/// A jump to where nothing may be executed: there is no instruction to name.
const JUMPS_AWAY: Row = Row {
    nodes: 1,
    program: "00000067\n",
    trace: "0 00000000 0\n0 00000000 0\n",
    lines: "\
0,80000000,\"jalr x0, 0(x0)\",,,,,
0,00000000,\"\",,,,,
",
};

/// A word that is no instruction.
const NO_INSTRUCTION: Row = Row {
    nodes: 1,
    program: "ffffffff\n",
    trace: "0 00000000 0\n",
    lines: "0,80000000,\".word 0xffffffff\",,,,,\n",
};

const NO_RECORD: Row = Row {
    nodes: 16,
    program: "00000073\n",
    trace: "",
    lines: "",
};

/// Puts the rows of a trace that is an execution.
fn put_of<T: Threads + Sync>(
    rt: &T,
    alloc: Global,
    row: &Row,
    report: &mut MemSink,
) -> Result<Result<(), RowsFault>, Fail> {
    let nodes = row.nodes;
    if nodes == 0 || nodes > 16 || row.trace.len() > 10_000 {
        return Err(Fail::from("a row has 1 to 16 nodes and a short trace"));
    }
    let image = load(alloc, row.program.as_bytes())?;
    let records = read_trace(alloc, row.trace.as_bytes(), nodes)?;
    match check(
        rt,
        alloc,
        &image,
        nodes,
        records.as_slice(),
        &OpenGate::new(),
    ) {
        Ok(()) => Ok(put_access_rows(alloc, &image, nodes, records.as_slice(), report)),
        Err(_) => Err(Fail::from("the trace is no execution")),
    }
}

/// The report is the header and the row's lines.
fn comes_to<T: Threads + Sync + Abort>(rt: &T, alloc: Global, row: &Row) -> Result<(), Fail> {
    let mut report = MemSink::with_room(alloc, 2_048)?;
    let ended = put_of(rt, alloc, row, &mut report)?;
    assert!(rt; ended.is_ok());
    match report.bytes().strip_prefix(HEADER.as_bytes()) {
        Some(lines) => assert!(rt; lines == row.lines.as_bytes()),
        None => return Err(Fail::from("the header stands first")),
    }
    Ok(())
}

#[test]
fn an_atomic_operation_reads_and_writes(rt: HostRuntime) -> Result<(), Fail> {
    comes_to(&rt, rt.alloc(), &ADDS)
}

#[test]
fn a_value_has_the_digits_of_its_width(rt: HostRuntime) -> Result<(), Fail> {
    comes_to(&rt, rt.alloc(), &WIDTHS)
}

#[test]
fn a_byte_of_input_is_no_access(rt: HostRuntime) -> Result<(), Fail> {
    comes_to(&rt, rt.alloc(), &ECHOES)
}

#[test]
fn where_nothing_may_be_executed_no_instruction_is_named(rt: HostRuntime) -> Result<(), Fail> {
    comes_to(&rt, rt.alloc(), &JUMPS_AWAY)
}

#[test]
fn a_word_that_is_no_instruction_is_shown_as_a_word(rt: HostRuntime) -> Result<(), Fail> {
    comes_to(&rt, rt.alloc(), &NO_INSTRUCTION)
}

#[test]
fn a_trace_without_a_record_has_the_header_alone(rt: HostRuntime) -> Result<(), Fail> {
    comes_to(&rt, rt.alloc(), &NO_RECORD)
}

#[test]
fn a_report_that_breaks_has_whole_lines_before(rt: HostRuntime) -> Result<(), Fail> {
    let mut report = MemSink::with_room(rt.alloc(), 2_048)?;
    report.fail_call(3)?;
    let ended = put_of(&rt, rt.alloc(), &ADDS, &mut report)?;
    assert!(rt; matches!(ended, Err(RowsFault::Sink)));
    assert!(rt;
        report.bytes()
            == b"core,pc,instruction,address,size,read,written,done\n0,80000000,\"lui x5, 524289\",,,,,\n".as_slice()
    );
    Ok(())
}

/// The header by cores that were made before.
fn put_by_rows(alloc: Global, report: &mut MemSink) -> Result<bool, Fail> {
    let image = load(alloc, NO_RECORD.program.as_bytes())?;
    let mut rows = AccessRows::start(alloc, &image, 16)?;
    Ok(rows.put(&image, 16, &[], report).is_ok())
}

#[test]
fn rows_are_put_with_memory_that_was_taken_before(rt: HostRuntime) -> Result<(), Fail> {
    let mut report = MemSink::with_room(rt.alloc(), 2_048)?;
    let put = put_by_rows(rt.alloc(), &mut report)?;
    rows_have_the_accesses();
    assert!(rt; put);
    assert!(rt; report.bytes() == HEADER.as_bytes());
    Ok(())
}
