//! Why a program's file is refused.
ghost use Rattle.std.specs.Prelude.{◌≡◌, option_map, OnOk};
ghost use Rattle.reasons.specs.Reason.{begun, line_of_reason};
ghost use Rattle.reasons.specs.Programs.{field_name, field_value, field_reason, header_reason, larger, bound_text, outside, is_assembly};
ghost use Rattle.reasons.specs.Programs.{word_line, is_text, entry_reason, overlapping, truncation_reason, line_of, what_of, program_reason};

use crate::header::{Header, header_of};
use crate::place::line_at;
use crate::reason::Reason;
use elf_load::{Field, LoadCause};
use rv_statement::Line;
use sn_base::{Memory, RAM_START};

/// What the field is called.
fn field_name(field: Field) -> &'static str
    ensures { result.now ≡ field_name field }
{
    match field {
        Field::Magic => "magic number",
        Field::Class => "class",
        Field::Order => "byte order",
        Field::IdentVersion => "version of the identification",
        Field::FileKind => "kind of file",
        Field::Machine => "machine",
        Field::Version => "version",
        Field::PhEntSize => "size of a program header",
    }
}

/// The value that the field of a program has.
fn field_value(field: Field) -> u32
    ensures { result ≡ field_value field }
{
    match field {
        Field::Magic => 0x464c_457f,
        Field::Class | Field::Order | Field::IdentVersion | Field::Version => 1,
        Field::FileKind => 2,
        Field::Machine => 243,
        Field::PhEntSize => 32,
    }
}

#[tactic(auto, unfolding(crate::specs::Programs::field_reason))]
fn write_field(reason: &mut Reason, field: Field, value: u32) -> Result<(), Memory>
    ensures { OnOk result (reason.new ≡ field_reason reason.old field value) }
{
    reason.text("the ")?;
    reason.text(field_name(field))?;
    reason.text(" is ")?;
    reason.word(value)?;
    reason.text(", and a program for this machine has ")?;
    reason.word(field_value(field))
}

#[tactic(auto, unfolding(crate::specs::Programs::header_reason))]
fn write_header(reason: &mut Reason, number: u16) -> Result<(), Memory>
    ensures { OnOk result (reason.new ≡ header_reason reason.old number) }
{
    reason.counted("program header ", u64::from(number), ": ")
}

#[tactic(auto, unfolding(crate::specs::Programs::larger))]
fn write_larger(reason: &mut Reason, header: Option<Header>) -> Result<(), Memory>
    ensures { OnOk result (reason.new ≡ larger reason.old header) }
{
    let Some(header) = header else {
        return reason.text("it has more bytes in the file than in memory");
    };
    reason.number(u64::from(header.file_size))?;
    reason.counted(
        " bytes in the file are more than its ",
        u64::from(header.memory_size),
        " in memory",
    )
}

/// The end of memory that a segment passes.
fn bound_text(header: &Header) -> &'static str
    ensures { result.now ≡ bound_text header.now }
{
    if header.address < RAM_START {
        " don't fit memory, which begins at 80000000"
    } else {
        " don't fit memory, which ends at 803fffff"
    }
}

#[tactic(auto, unfolding(crate::specs::Programs::outside))]
fn write_outside(reason: &mut Reason, header: Option<Header>) -> Result<(), Memory>
    ensures { OnOk result (reason.new ≡ outside reason.old header) }
{
    let Some(header) = header else {
        return reason.text("it doesn't fit memory, from 80000000 to 803fffff");
    };
    reason.number(u64::from(header.memory_size))?;
    reason.text(" bytes from ")?;
    reason.word(header.address)?;
    reason.text(bound_text(&header))
}

/// Whether a line is one of an assembly text.
fn is_assembly(line: &[u8]) -> bool
    ensures { result ≡ is_assembly line.now }
{
    match rv_statement::line_of(line) {
        Line::Label(_) | Line::Says(_) => true,
        Line::Nothing | Line::Formless => false,
    }
}

#[tactic(auto, unfolding(crate::specs::Programs::word_line))]
fn write_word_line(reason: &mut Reason, line: Option<&[u8]>) -> Result<(), Memory>
    ensures { OnOk result (reason.new ≡ word_line reason.old (option_map (λ line. line.now) line.entry)) }
{
    let Some(line) = line else {
        return reason.text("this line isn't eight hexadecimal digits");
    };
    if is_assembly(line) {
        return reason.text("this is assembler; safetynet asm turns it into words");
    }
    reason.quoted(line)?;
    reason.text(" isn't eight hexadecimal digits")
}

/// Whether the file is a text of hexadecimal words.
fn is_text(bytes: &[u8]) -> bool
    ensures { result ≡ is_text bytes.now }
{
    match bytes {
        [first, ..] => *first != 0x7f,
        [] => false,
    }
}

#[tactic(auto, unfolding(crate::specs::Programs::entry_reason))]
fn write_entry(reason: &mut Reason, bytes: &[u8], entry: u32) -> Result<(), Memory>
    ensures { OnOk result (reason.new ≡ entry_reason reason.old bytes.now entry) }
{
    if is_text(bytes) {
        return reason.text("no line has a word");
    }
    reason.text("the entry ")?;
    reason.word(entry)?;
    reason.text(" isn't the address of an instruction")
}

#[tactic(auto, unfolding(crate::specs::Programs::overlapping))]
fn write_overlap(reason: &mut Reason, earlier: u16, later: u16) -> Result<(), Memory>
    ensures { OnOk result (reason.new ≡ overlapping reason.old earlier later) }
{
    reason.counted("program headers ", u64::from(earlier), " and ")?;
    reason.number(u64::from(later))?;
    reason.text(" share a byte of memory")
}

#[tactic(auto, unfolding(crate::specs::Programs::truncation_reason))]
fn write_truncated(reason: &mut Reason, needed: u64, found: u64) -> Result<(), Memory>
    ensures { OnOk result (reason.new ≡ truncation_reason reason.old needed found) }
{
    reason.counted("the file ends after ", found, " bytes, and ")?;
    reason.number(needed)?;
    reason.text(" are needed")
}

fn write_what(reason: &mut Reason, bytes: &[u8], cause: LoadCause) -> Result<(), Memory>
    ensures { OnOk result (reason.new ≡ what_of reason.old bytes.now cause) }
{
    match cause {
        LoadCause::Empty => reason.text("the file is empty"),
        LoadCause::BadHexLine(number) => write_word_line(reason, line_at(bytes, number)),
        LoadCause::TooManyWords => reason.text("more than 1048576 words don't fit memory"),
        LoadCause::Truncated(needed, found) => write_truncated(reason, needed, found),
        LoadCause::WrongField(field, value) => write_field(reason, field, value),
        LoadCause::Compressed => {
            reason.text("it has compressed instructions, which this machine leaves out")
        }
        LoadCause::TooManySegments(count) => {
            reason.number(u64::from(count))?;
            reason.text(" program headers are more than 64")
        }
        LoadCause::FileLargerThanMemory(number) => {
            write_header(reason, number)?;
            write_larger(reason, header_of(bytes, number))
        }
        LoadCause::Outside(number) => {
            write_header(reason, number)?;
            write_outside(reason, header_of(bytes, number))
        }
        LoadCause::Overlap(earlier, later) => write_overlap(reason, earlier, later),
        LoadCause::WritableCode(number) => {
            write_header(reason, number)?;
            reason.text("what is executed must not be writable")
        }
        LoadCause::BadEntry(entry) => write_entry(reason, bytes, entry),
    }
}

fn line_of(cause: LoadCause) -> Option<u64>
    ensures { result ≡ line_of cause }
{
    match cause {
        LoadCause::BadHexLine(number) => Some(number),
        _ => None,
    }
}

/// The line that says why the loader refuses a program's file. Without the file's bytes it says less.
#[tactic(auto, unfolding(crate::specs::Programs::program_reason))]
pub fn write_program(
    reason: &mut Reason,
    name: &str,
    bytes: &[u8],
    cause: LoadCause,
) -> Result<(), Memory>
    ensures { OnOk result (reason.new ≡ line_of_reason (program_reason (begun reason.old) name.now bytes.now cause)) }
{
    reason.begin()?;
    reason.place(name, line_of(cause))?;
    write_what(reason, bytes, cause)?;
    reason.end()
}
