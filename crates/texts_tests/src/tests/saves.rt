//! Each row changes the save file of a short program in one place, or in two of which the first counts.
use super::is_so;
use elf_load::load;
use save_text::{
    SaveCause, SaveFault, read_save, write_config, write_end, write_given, write_head, write_marks,
    write_owner, write_record,
};
use sn_base::{BlockNo, Config, Image, NodeId};
use sn_text::Line;
use std::alloc::Global;
use std::process::Abort;
use std::test::Fail;

/// addi x10, x0, 65; addi x17, x0, 1; ecall; addi x17, x0, 93; ecall: it puts out `A` and ends.
const PROGRAM: &str = "04100513\n00100893\n00000073\n05d00893\n00000073\n";

/// The point after three steps, an edge, a report and its validation.
const SAVED: &str =
    "safetynet-save 1\nconfig 1 16 4 256\nmarks 1 3 7\nrec 0 00000000 0\nrec 0 00000000 0\nrec 0 00000000 0\nend\n";

/// The name of a cause, and its number.
fn said(cause: &SaveCause) -> (&'static str, u64) {
    match cause {
        SaveCause::TooLong => ("toolong", 0),
        SaveCause::BadLine(line) => ("badline", *line),
        SaveCause::OutOfRange(line) => ("outofrange", *line),
        SaveCause::CutOff(a, b) => ("cutoff", 16 * u64::from(a.number()) + u64::from(b.number())),
        SaveCause::SetFull(line) => ("setfull", *line),
        SaveCause::NotLegal(place) => ("notlegal", *place),
        SaveCause::Unread(node) => ("unread", u64::from(node.number())),
    }
}

/// Why a save file is refused; `accepted`, with the count of its records, where it isn't.
fn verdict(rt: &impl Abort, alloc: Global, image: &Image, text: &str) -> (&'static str, u64) {
    assert!(rt; text.len() < 1_000);
    match read_save(alloc, image, text.as_bytes()) {
        Ok(accepted) => ("accepted", accepted.saved.committed.len() as u64),
        Err(SaveFault::Refused(cause)) => said(&cause),
        Err(SaveFault::Memory) => ("memory", 0),
    }
}

/// A text, and what comes of it.
type Row = (&'static str, (&'static str, u64));

const ROWS: &[Row] = &[
    (SAVED, ("accepted", 3)),
    ("", ("badline", 1)),
    ("safetynet-save 2\n", ("badline", 1)),
    (
        "safetynet-save 1\nconfig 1 16 4 256\nmarks 0 1 0\nend\n",
        ("accepted", 0),
    ),
    (
        "safetynet-save 1\nconfig 1 16 4 256\nmarks 0 1 0\nend",
        ("badline", 4),
    ),
    (
        "safetynet-save 1\nconfig 1 16 4 256\nmarks 0 1 0\n",
        ("badline", 4),
    ),
    (
        "safetynet-save 1\nconfig 1 16 4 256\nmarks 0 1 0\nend\nend\n",
        ("badline", 5),
    ),
    (
        "safetynet-save 1\r\nconfig 1 16 4 256\nmarks 0 1 0\nend\n",
        ("badline", 1),
    ),
    (
        "safetynet-save 1\nconfig 17 16 4 256\nmarks 0 1 0\nend\n",
        ("outofrange", 2),
    ),
    (
        "safetynet-save 1\nconfig 1 16 4\nmarks 0 1 0\nend\n",
        ("badline", 2),
    ),
    (
        "safetynet-save 1\nconfig 1 16 4 256\nmarks 1 1 0\nend\n",
        ("outofrange", 3),
    ),
    (
        "safetynet-save 1\nconfig 1 16 4 256\nmarks 0 0 0\nend\n",
        ("outofrange", 3),
    ),
    (
        "safetynet-save 1\nconfig 1 16 4 256\nmarks 0 18 1\nend\n",
        ("accepted", 0),
    ),
    (
        "safetynet-save 1\nconfig 1 16 4 256\nmarks 0 19 1\nend\n",
        ("outofrange", 3),
    ),
    (
        "safetynet-save 1\nconfig 1 16 4 256\nmarks 0 1 3000000000\nend\n",
        ("accepted", 0),
    ),
    (
        "safetynet-save 1\nconfig 1 16 4 256\nmarks 0 1 3000000001\nend\n",
        ("outofrange", 3),
    ),
    (
        "safetynet-save 1\nconfig 2 16 4 256\nmarks 0 1 1\ndead a0\ndead b0\nend\n",
        ("cutoff", 0),
    ),
    (
        "safetynet-save 1\nconfig 2 16 4 256\nmarks 0 1 1\ndead b0\ndead a0\nend\n",
        ("outofrange", 5),
    ),
    (
        "safetynet-save 1\nconfig 2 16 4 256\nmarks 0 1 0\ndead a0\nend\n",
        ("outofrange", 4),
    ),
    (
        "safetynet-save 1\nconfig 1 1 1 256\nmarks 0 1 1\nowner 0 0\nowner 1 0\nend\n",
        ("setfull", 5),
    ),
    (
        "safetynet-save 1\nconfig 1 2 1 256\nmarks 0 1 1\nowner 0 0\nowner 1 0\nend\n",
        ("accepted", 0),
    ),
    (
        "safetynet-save 1\nconfig 1 1 2 256\nmarks 0 1 1\nowner 1 0\nowner 1 0\nend\n",
        ("outofrange", 5),
    ),
    (
        "safetynet-save 1\nconfig 1 1 2 256\nmarks 0 1 1\nowner 65536 0\nend\n",
        ("outofrange", 4),
    ),
    (
        "safetynet-save 1\nconfig 1 1 2 256\nmarks 0 1 1\ngiven 0 7f\ngiven 0 80\nend\n",
        ("outofrange", 5),
    ),
    (
        "safetynet-save 1\nconfig 1 1 2 256\nmarks 0 1 1\ngiven 0 7f\nowner 1 0\nend\n",
        ("badline", 5),
    ),
    (
        "safetynet-save 1\nconfig 1 1 2 256\nmarks 0 1 1\nrec 0 00000000 0\nend\n",
        ("outofrange", 4),
    ),
    (
        "safetynet-save 1\nconfig 1 1 2 256\nmarks 1 1 1\nrec 0 00000001 0\nend\n",
        ("notlegal", 1),
    ),
    (
        "safetynet-save 1\nconfig 1 1 2 256\nmarks 1 1 1\nrec 1 00000000 0\nend\n",
        ("outofrange", 4),
    ),
];

#[test]
fn the_first_cause_counts(rt: HostRuntime) -> Result<(), Fail> {
    let alloc = rt.alloc();
    let Ok(image) = load(alloc, PROGRAM.as_bytes()) else {
        return Err(Fail::from("the program is a text of words"));
    };
    for (text, wanted) in ROWS {
        let found = verdict(&rt, alloc, &image, text);
        assert!(rt; found == *wanted, "{text}");
    }
    Ok(())
}

/// The save file of two nodes, line by line.
fn write_all(rt: &impl Abort, line: &mut Line) {
    let one = NodeId::new(1).expect(rt, "a node has a number below 16");
    let config = Config {
        nodes: 2,
        sets: 16,
        ways: 4,
        log: 256,
    };
    line.clear();
    write_head(line);
    assert!(rt; line.bytes().len() < 100);
    write_config(line, &config);
    assert!(rt; line.bytes().len() < 200);
    write_marks(line, 1, 8, 18);
    assert!(rt; line.bytes().len() < 300);
    write_owner(line, BlockNo::new(64), one);
    assert!(rt; line.bytes().len() < 400);
    write_given(line, one, 0x7f);
    assert!(rt; line.bytes().len() < 500);
    write_end(line);
}

#[test]
fn a_save_file_is_written_line_by_line(rt: HostRuntime) -> Result<(), Fail> {
    let mut line = Line::new(rt.alloc())?;
    write_all(&rt, &mut line);
    is_so(
        &rt,
        line.bytes()
            == b"safetynet-save 1\nconfig 2 16 4 256\nmarks 1 8 18\nowner 64 1\ngiven 1 7f\nend\n".as_slice(),
    );
    Ok(())
}
