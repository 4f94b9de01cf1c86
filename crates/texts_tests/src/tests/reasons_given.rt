//! Each row has a cause, the bytes of the file that is blamed, and the line that says why.
use elf_load::{Field, LoadCause};
use reasons::{
    Lack, Reason, TextKind, Unread, write_assembly, write_cut_off, write_lack, write_longer,
    write_program, write_refused, write_save, write_script, write_spent, write_trapped,
    write_unread,
};
use rv_asm::AsmCause;
use rv_core::{Cause, Record};
use save_text::SaveCause;
use sn_base::{Memory, NodeId};
use sn_text::ScriptCause;
use std::alloc::Global;
use std::process::Abort;
use std::test::Fail;

/// The line is the one that is wanted.
fn says(rt: &impl Abort, reason: &Reason, wanted: &str) {
    assert!(rt; reason.bytes() == wanted.as_bytes(), "{wanted}");
}

/// Three program headers, of which the last asks for 9 bytes from 803ffff8, and has 12 in the file.
const HEADERS: &[u8] = &[
    0x7f, 0, 0, 0, 0, 0, 0, 0, 0, 0, 0, 0, 0, 0, 0, 0, 0, 0, 0, 0, 0, 0, 0, 0, 0, 0, 0, 0, 52, 0,
    0, 0, //
    0, 0, 0, 0, 0, 0, 0, 0, 0, 0, 0, 0, 0, 0, 0, 0, 0, 0, 0, 0, //
    0, 0, 0, 0, 0, 0, 0, 0, 0, 0, 0, 0, 0, 0, 0, 0, 0, 0, 0, 0, 0, 0, 0, 0, 0, 0, 0, 0, 0, 0, 0, 0, //
    0, 0, 0, 0, 0, 0, 0, 0, 0, 0, 0, 0, 0, 0, 0, 0, 0, 0, 0, 0, 0, 0, 0, 0, 0, 0, 0, 0, 0, 0, 0, 0, //
    1, 0, 0, 0, 0, 0, 0, 0, 0xf8, 0xff, 0x3f, 0x80, 0, 0, 0, 0, 12, 0, 0, 0, 9, 0, 0, 0, //
    0, 0, 0, 0, 0, 0, 0, 0,
];

/// The bytes of a file, why it is refused, and the line.
type Program = (&'static [u8], LoadCause, &'static str);

const PROGRAMS: &[Program] = &[
    (b"", LoadCause::Empty, "# why: a.elf: the file is empty\n"),
    (
        b"04100513\n\n0410051\n",
        LoadCause::BadHexLine(3),
        "# why: a.elf:3: \"0410051\" isn't eight hexadecimal digits\n",
    ),
    (
        b"# put out\naddi x5, x0, 7\n",
        LoadCause::BadHexLine(2),
        "# why: a.elf:2: this is assembler; safetynet asm turns it into words\n",
    ),
    (
        b"",
        LoadCause::BadHexLine(2),
        "# why: a.elf:2: this line isn't eight hexadecimal digits\n",
    ),
    (
        b"0",
        LoadCause::TooManyWords,
        "# why: a.elf: more than 1048576 words don't fit memory\n",
    ),
    (
        b"\x7fELF",
        LoadCause::Truncated(52, 4),
        "# why: a.elf: the file ends after 4 bytes, and 52 are needed\n",
    ),
    (
        b"\x7fELF",
        LoadCause::WrongField(Field::Class, 2),
        "# why: a.elf: the class is 00000002, and a program for this machine has 00000001\n",
    ),
    (
        b"\x7fELF",
        LoadCause::WrongField(Field::Machine, 62),
        "# why: a.elf: the machine is 0000003e, and a program for this machine has 000000f3\n",
    ),
    (
        b"\x7fELF",
        LoadCause::Compressed,
        "# why: a.elf: it has compressed instructions, which this machine leaves out\n",
    ),
    (
        b"\x7fELF",
        LoadCause::TooManySegments(65),
        "# why: a.elf: 65 program headers are more than 64\n",
    ),
    (
        HEADERS,
        LoadCause::FileLargerThanMemory(2),
        "# why: a.elf: program header 2: 12 bytes in the file are more than its 9 in memory\n",
    ),
    (
        HEADERS,
        LoadCause::Outside(2),
        "# why: a.elf: program header 2: 9 bytes from 803ffff8 don't fit memory, which ends at 803fffff\n",
    ),
    (
        HEADERS,
        LoadCause::Outside(3),
        "# why: a.elf: program header 3: it doesn't fit memory, from 80000000 to 803fffff\n",
    ),
    (
        HEADERS,
        LoadCause::Overlap(0, 1),
        "# why: a.elf: program headers 0 and 1 share a byte of memory\n",
    ),
    (
        HEADERS,
        LoadCause::WritableCode(1),
        "# why: a.elf: program header 1: what is executed must not be writable\n",
    ),
    (
        HEADERS,
        LoadCause::BadEntry(0x8000_0002),
        "# why: a.elf: the entry 80000002 isn't the address of an instruction\n",
    ),
    (
        b"# nothing\n",
        LoadCause::BadEntry(0x8000_0000),
        "# why: a.elf: no line has a word\n",
    ),
];

#[test]
fn a_program_is_refused_with_what_was_found(rt: HostRuntime) -> Result<(), Fail> {
    for (bytes, cause, wanted) in PROGRAMS {
        let mut reason = Reason::new(rt.alloc());
        write_program(&mut reason, "a.elf", bytes, *cause)?;
        says(&rt, &reason, wanted);
    }
    Ok(())
}

/// What the text should be, its bytes, why it is refused on two nodes, and the line.
type Script = (TextKind, &'static [u8], ScriptCause, &'static str);

const SCRIPTS: &[Script] = &[
    (
        TextKind::Script,
        b"step 0\nstepp 0\n",
        ScriptCause::BadLine(2),
        "# why: a.script:2: this line is no event: \"stepp 0\"; did you mean step?\n",
    ),
    (
        TextKind::Script,
        b"stpe 0",
        ScriptCause::BadLine(1),
        "# why: a.script:1: this line is no event: \"stpe 0\"; did you mean step?\n",
    ),
    (
        TextKind::Script,
        b"jump 0",
        ScriptCause::BadLine(1),
        "# why: a.script:1: this line is no event: \"jump 0\"\n",
    ),
    (
        TextKind::Script,
        b"Step 0",
        ScriptCause::BadLine(1),
        "# why: a.script:1: this line is no event: \"Step 0\"; words are in lower case\n",
    ),
    (
        TextKind::Script,
        b"step\t0",
        ScriptCause::BadLine(1),
        "# why: a.script:1: this line is no event: \"step\\x090\"; words are parted by one blank and not by a tab\n",
    ),
    (
        TextKind::Script,
        b"step 0 ",
        ScriptCause::BadLine(1),
        "# why: a.script:1: this line is no event: \"step 0 \"; a blank stands at its end\n",
    ),
    (
        TextKind::Script,
        b" step 0",
        ScriptCause::BadLine(1),
        "# why: a.script:1: this line is no event: \" step 0\"; a blank stands at its front\n",
    ),
    (
        TextKind::Script,
        b"\xef\xbb\xbfstep 0",
        ScriptCause::BadLine(1),
        "# why: a.script:1: this line is no event: \"\\xef\\xbb\\xbfstep 0\"; a byte order mark stands at its front\n",
    ),
    (
        TextKind::Script,
        b"step 0 # one",
        ScriptCause::BadLine(1),
        "# why: a.script:1: this line is no event: \"step 0 # one\"; a comment has a line of its own\n",
    ),
    (
        TextKind::Script,
        b"step  0",
        ScriptCause::BadLine(1),
        "# why: a.script:1: this line is no event: \"step  0\"; words are parted by one blank\n",
    ),
    (
        TextKind::Script,
        b"step 00",
        ScriptCause::BadLine(1),
        "# why: a.script:1: this line is no event: \"step 00\"; a number has no leading zero\n",
    ),
    (
        TextKind::Script,
        b"0 00000000 0",
        ScriptCause::BadLine(1),
        "# why: a.script:1: this line is no event: \"0 00000000 0\"; it is a trace's, which check takes\n",
    ),
    (
        TextKind::Trace,
        b"step 0",
        ScriptCause::BadLine(1),
        "# why: a.script:1: this line is no record: \"step 0\"; it is a script's, which replay takes\n",
    ),
    (
        TextKind::Control,
        b"ordre 0",
        ScriptCause::BadLine(1),
        "# why: a.script:1: this line is no control: \"ordre 0\"; did you mean order?\n",
    ),
    (
        TextKind::Script,
        b"",
        ScriptCause::BadLine(7),
        "# why: a.script:7: this line is no event\n",
    ),
    (
        TextKind::Script,
        b"0123456789012345678901234567890123456789012345678901234567890",
        ScriptCause::OutOfRange(1),
        "# why: a.script:1: a machine of 2 nodes has no such node, block or switch: \
            \"012345678901234567890123456789012345678901234567890123456789\"..\n",
    ),
    (
        TextKind::Control,
        b"order 2",
        ScriptCause::OutOfRange(1),
        "# why: a.script:1: a machine of 2 nodes has no such node: \"order 2\"\n",
    ),
    (
        TextKind::Trace,
        b"2 00000000 0",
        ScriptCause::OutOfRange(1),
        "# why: a.script:1: a machine of 2 nodes has no such core: \"2 00000000 0\"\n",
    ),
    (
        TextKind::Trace,
        b"",
        ScriptCause::TooMany,
        "# why: a.script: more than 1000000 records\n",
    ),
    (
        TextKind::Accesses,
        b"0 scfial 80001000 4 00000000",
        ScriptCause::BadLine(1),
        "# why: a.script:1: this line is no access: \"0 scfial 80001000 4 00000000\"; did you mean scfail?\n",
    ),
    (
        TextKind::Accesses,
        b"int 80001000 00000000",
        ScriptCause::BadLine(1),
        "# why: a.script:1: this line is no access: \"int 80001000 00000000\"; did you mean init?\n",
    ),
    (
        TextKind::Accesses,
        b"",
        ScriptCause::TooMany,
        "# why: a.script: more than 1000000 accesses\n",
    ),
    (
        TextKind::Accesses,
        b"",
        ScriptCause::TooLong,
        "# why: a.script: more than 67108864 bytes\n",
    ),
    (
        TextKind::Script,
        b"",
        ScriptCause::TooLong,
        "# why: a.script: more than 33554432 bytes\n",
    ),
];

#[test]
fn a_script_is_refused_with_what_it_is_near_to(rt: HostRuntime) -> Result<(), Fail> {
    for (kind, bytes, cause, wanted) in SCRIPTS {
        let mut reason = Reason::new(rt.alloc());
        write_script(&mut reason, *kind, 2, "a.script", bytes, *cause)?;
        says(&rt, &reason, wanted);
    }
    Ok(())
}

/// The bytes of a save file, the line of another form, and the line that says why.
const SAVES: &[(&[u8], u64, &str)] = &[
    (
        b"safetynet-save 1\nconfig 2 1 1\nend\n",
        2,
        "# why: a.save:2: no line of a save file that may stand here: \"config 2 1 1\"\n",
    ),
    (
        b"safetynet-save 1\r\n",
        1,
        "# why: a.save:1: no line of a save file that may stand here: \"safetynet-save 1\\x0d\"\n",
    ),
    (
        b"safetynet-save 1\nend",
        2,
        "# why: a.save:2: the file ends here, and not with the line `end` and its LF\n",
    ),
    (
        b"safetynet-save 1\n",
        2,
        "# why: a.save:2: the file ends here, and not with the line `end` and its LF\n",
    ),
    (
        b"",
        2,
        "# why: a.save:2: no line of a save file that may stand here\n",
    ),
];

#[test]
fn a_save_file_is_refused_at_a_line_or_at_its_end(rt: HostRuntime) -> Result<(), Fail> {
    for (bytes, line, wanted) in SAVES {
        let mut reason = Reason::new(rt.alloc());
        write_save(&mut reason, "a.save", bytes, SaveCause::BadLine(*line))?;
        says(&rt, &reason, wanted);
    }
    Ok(())
}

const SAVED: &[u8] =
    b"safetynet-save 1\nconfig 2 1 1 256\nmarks 1 8 18\nowner 64 1\nowner 65 1\ngiven 0 41\nend\n";

fn refusals() -> [(SaveCause, &'static str); 6] {
    [
        (
            SaveCause::TooLong,
            "# why: a.save: more than 67108864 bytes\n",
        ),
        (
            SaveCause::OutOfRange(3),
            "# why: a.save:3: a number that no saved machine has, or a line that is one too many or out of its order: \"marks 1 8 18\"\n",
        ),
        (
            SaveCause::CutOff(NodeId::numbered(0), NodeId::numbered(1)),
            "# why: a.save: nodes 0 and 1 are cut off: no living switches join them\n",
        ),
        (
            SaveCause::SetFull(5),
            "# why: a.save:5: the set of that block has no place left in the cache of that node: \"owner 65 1\"\n",
        ),
        (
            SaveCause::NotLegal(3),
            "# why: a.save: this program doesn't do the instruction of `rec` line 3 after those before it\n",
        ),
        (
            SaveCause::Unread(NodeId::numbered(1)),
            "# why: a.save: node 1 has read bytes that its `given` lines don't give from the first on\n",
        ),
    ]
}

#[test]
fn what_a_save_file_says_is_refused_with_its_cause(rt: HostRuntime) -> Result<(), Fail> {
    for (cause, wanted) in &refusals() {
        let mut reason = Reason::new(rt.alloc());
        write_save(&mut reason, "a.save", SAVED, *cause)?;
        says(&rt, &reason, wanted);
    }
    Ok(())
}

/// The bytes of a text, why it is refused, and the line.
type Assembly = (&'static [u8], AsmCause, &'static str);

const TEXTS: &[Assembly] = &[
    (
        b"# a count\nspin:\n  li x5, 7 # seven\n",
        AsmCause::BadLine(3),
        "# why: spin.s:3: li is a pseudoinstruction, which this assembler leaves out; write addi x5, x0, 7\n",
    ),
    (
        b"bgt t0,t1,spin",
        AsmCause::BadLine(1),
        "# why: spin.s:1: bgt is a pseudoinstruction, which this assembler leaves out; write blt t1, t0, spin\n",
    ),
    (
        b"ret",
        AsmCause::BadLine(1),
        "# why: spin.s:1: ret is a pseudoinstruction, which this assembler leaves out; write jalr x0, 0(x1)\n",
    ),
    (
        b"adi x5, x0, 7",
        AsmCause::BadLine(1),
        "# why: spin.s:1: this line is no instruction: \"adi x5, x0, 7\"\n",
    ),
    (
        b"",
        AsmCause::BadLine(1),
        "# why: spin.s:1: this line is no instruction\n",
    ),
    (
        b"addi x5, x0, 5000",
        AsmCause::OutOfRange(1),
        "# why: spin.s:1: a number or an offset doesn't fit: \"addi x5, x0, 5000\"\n",
    ),
    (
        b"spin:\nspin:\n",
        AsmCause::LabelTwice(2),
        "# why: spin.s:2: this label stands on an earlier line too: \"spin:\"\n",
    ),
    (
        b"ecall",
        AsmCause::TooManyWords(1),
        "# why: spin.s:1: more than 1048576 words don't fit memory\n",
    ),
    (
        b"jal x0, lop",
        AsmCause::NoLabel(1),
        "# why: spin.s:1: no line has the label that this one names: \"jal x0, lop\"\n",
    ),
    (
        b"",
        AsmCause::TooLong,
        "# why: spin.s: more than 16777216 bytes\n",
    ),
];

#[test]
fn an_assembly_text_is_refused_with_what_to_write(rt: HostRuntime) -> Result<(), Fail> {
    for (bytes, cause, wanted) in TEXTS {
        let mut reason = Reason::new(rt.alloc());
        write_assembly(&mut reason, "spin.s", bytes, *cause)?;
        says(&rt, &reason, wanted);
    }
    Ok(())
}

const LACKS: &[(Lack, &str)] = &[
    (
        Lack::Output,
        "# why: not all of the output could be written\n",
    ),
    (Lack::Memory, "# why: there wasn't enough memory\n"),
    (
        Lack::File,
        "# why: a file couldn't be read, and now it can\n",
    ),
    (Lack::Text, "# why: a word isn't UTF-8\n"),
];

const UNREAD: &[(Unread, &str)] = &[
    (Unread::NotFound, "# why: missing.hex: no such file\n"),
    (
        Unread::NotAllowed,
        "# why: missing.hex: it may not be read\n",
    ),
    (Unread::Directory, "# why: missing.hex: it is a directory\n"),
    (Unread::Other, "# why: missing.hex: it couldn't be read\n"),
];

#[test]
fn what_the_system_did_not_give_is_named(rt: HostRuntime) -> Result<(), Fail> {
    for (lack, wanted) in LACKS {
        let mut reason = Reason::new(rt.alloc());
        write_lack(&mut reason, *lack)?;
        says(&rt, &reason, wanted);
    }
    for (fault, wanted) in UNREAD {
        let mut reason = Reason::new(rt.alloc());
        write_unread(&mut reason, "missing.hex", *fault)?;
        says(&rt, &reason, wanted);
    }
    Ok(())
}

fn longer(alloc: Global) -> Result<Reason, Memory> {
    let mut reason = Reason::new(alloc);
    write_longer(&mut reason, "a\n.elf", 16_777_216)?;
    Ok(reason)
}

fn spent(alloc: Global) -> Result<Reason, Memory> {
    let mut reason = Reason::new(alloc);
    write_spent(&mut reason, 500)?;
    Ok(reason)
}

#[test]
fn limits_are_named(rt: HostRuntime) -> Result<(), Fail> {
    says(
        &rt,
        &longer(rt.alloc())?,
        "# why: a\\x0a.elf: more than 16777216 bytes\n",
    );
    says(
        &rt,
        &spent(rt.alloc())?,
        "# why: the run has 500 events, which is its budget, and its cores haven't all ended\n",
    );
    Ok(())
}

const TRAPS: &[(Cause, &str)] = &[
    (
        Cause::Illegal,
        "# why: core 1 trapped: its next word is no instruction\n",
    ),
    (
        Cause::FetchFault,
        "# why: core 1 trapped: no instruction stands where it is\n",
    ),
    (
        Cause::MisalignedTarget,
        "# why: core 1 trapped: it jumped to an address that is no multiple of 4\n",
    ),
    (
        Cause::MisalignedAccess,
        "# why: core 1 trapped: the address of its access doesn't suit the width\n",
    ),
    (
        Cause::AccessFault,
        "# why: core 1 trapped: there is no memory at its access, or none that may be written\n",
    ),
    (
        Cause::UnknownCall,
        "# why: core 1 trapped: the number in a7 names no call\n",
    ),
    (Cause::Break, "# why: core 1 trapped: it met ebreak\n"),
];

#[test]
fn a_trap_and_a_cut_name_their_nodes(rt: HostRuntime) -> Result<(), Fail> {
    for (cause, wanted) in TRAPS {
        let node = NodeId::new(1).expect(&rt, "a node");
        let mut reason = Reason::new(rt.alloc());
        write_trapped(&mut reason, node, *cause)?;
        says(&rt, &reason, wanted);
    }
    let a = NodeId::new(0).expect(&rt, "a node");
    let b = NodeId::new(1).expect(&rt, "a node");
    let mut reason = Reason::new(rt.alloc());
    write_cut_off(&mut reason, a, b)?;
    says(
        &rt,
        &reason,
        "# why: nodes 0 and 1 are cut off: no living switches join them\n",
    );
    Ok(())
}

/// The trace's text, what the memory has, and the line about its second record, in which core 1 saw 0.
const VERDICTS: &[(&[u8], Option<u32>, &str)] = &[
    (
        b"# two\n0 00000000 0\n\n1 00000000 0\n",
        Some(1),
        "# why: record 2 (line 4): core 1 saw 00000000, and the memory has 00000001\n",
    ),
    (
        b"",
        None,
        "# why: record 2: core 1 saw 00000000, and the flat machine has no such step\n",
    ),
];

#[test]
fn a_trace_is_refused_at_a_record(rt: HostRuntime) -> Result<(), Fail> {
    for (bytes, memory, wanted) in VERDICTS {
        let record = Record {
            core: NodeId::new(1).expect(&rt, "a node"),
            seen: 0,
            sc_done: false,
            read: None,
        };
        let mut reason = Reason::new(rt.alloc());
        write_refused(&mut reason, 2, bytes, Some(&record), *memory)?;
        says(&rt, &reason, wanted);
    }
    Ok(())
}
