//! Why an assembly text is refused.
ghost use Rattle.std.specs.Prelude.{◌≡◌, ◌++◌, map, flat_map, option_map, OnOk};
ghost use Rattle.std.specs.List.{position};
ghost use Rattle.reasons.specs.Reason.{colon_and, begun, line_of_reason};
ghost use Rattle.reasons.specs.Assembly.{is_mark, ends_word, behind_blanks, word_in, behind_word, behind_comma, operand_or_byte, instead_of};
ghost use Rattle.reasons.specs.Assembly.{pseudo, formless_by, formless_text, line_of, what_of, asm_reason};

use crate::hints::place_of;
use crate::place::line_at;
use crate::reason::Reason;
use rv_asm::AsmCause;
use sn_base::Memory;

/// The most bytes of such a text.
const LIMIT: u64 = 16_777_216;

/// The pseudoinstructions, and what stands for each; A, B and C are its operands.
const PSEUDOS: &[(&str, &str)] = &[
    ("nop", "addi x0, x0, 0"),
    ("li", "addi A, x0, B"),
    ("la", "lui and addi with the address of B"),
    ("mv", "addi A, B, 0"),
    ("not", "xori A, B, -1"),
    ("neg", "sub A, x0, B"),
    ("seqz", "sltiu A, B, 1"),
    ("snez", "sltu A, x0, B"),
    ("sltz", "slt A, B, x0"),
    ("sgtz", "slt A, x0, B"),
    ("beqz", "beq A, x0, B"),
    ("bnez", "bne A, x0, B"),
    ("blez", "bge x0, A, B"),
    ("bgez", "bge A, x0, B"),
    ("bltz", "blt A, x0, B"),
    ("bgtz", "blt x0, A, B"),
    ("bgt", "blt B, A, C"),
    ("ble", "bge B, A, C"),
    ("bgtu", "bltu B, A, C"),
    ("bleu", "bgeu B, A, C"),
    ("j", "jal x0, A"),
    ("jr", "jalr x0, 0(A)"),
    ("call", "jal x1, A"),
    ("tail", "jal x0, A"),
    ("ret", "jalr x0, 0(x1)"),
];

fn mark_in(text: &[u8]) -> Option<usize>
    ensures { result ≡ position is_mark text.now }
{
    text.iter().position(|byte| *byte != b' ' && *byte != b'\t')
}

fn word_end(text: &[u8]) -> Option<usize>
    ensures { result ≡ position ends_word text.now }
{
    text.iter().position(|byte| *byte == b' ' || *byte == b'\t' || *byte == b',' || *byte == b'#')
}

fn behind_blanks(text: &[u8]) -> &[u8]
    ensures { result.now ≡ behind_blanks text.entry.now }
{
    match mark_in(text) {
        Some(place) => &text[place..],
        None => &text[text.len()..],
    }
}

/// The first word: a mnemonic or an operand.
fn word_in(text: &[u8]) -> &[u8]
    ensures { result.now ≡ word_in text.entry.now }
{
    let rest = behind_blanks(text);
    match word_end(rest) {
        Some(end) => &rest[..end],
        None => rest,
    }
}

/// The operands: what stands behind the mnemonic.
fn behind_word(text: &[u8]) -> &[u8]
    ensures { result.now ≡ behind_word text.entry.now }
{
    let rest = behind_blanks(text);
    match word_end(rest) {
        Some(end) => &rest[end..],
        None => &rest[rest.len()..],
    }
}

fn behind_comma(text: &[u8]) -> &[u8]
    ensures { result.now ≡ behind_comma text.entry.now }
{
    match place_of(b',', text) {
        Some(place) => &text[place + 1..],
        None => &text[text.len()..],
    }
}

fn instead_of(rows: &[(&'static str, &'static str)], mnemonic: &[u8]) -> Option<&'static str>
    ensures { option_map (λ text. text.now) result ≡ instead_of (map (λ row. (row.0.now, row.1.now)) rows.now) mnemonic.now }
{
    'rows: for row in rows {
        if mnemonic == row.0.as_bytes() {
            return Some(row.1);
        }
    }
    None
}

fn write_filled_byte(reason: &mut Reason, byte: u8, operands: &[u8]) -> Result<(), Memory>
    ensures { OnOk result (reason.new ≡ reason.old ++ operand_or_byte operands.now byte) }
{
    match byte {
        b'A' => reason.shown(word_in(operands)),
        b'B' => reason.shown(word_in(behind_comma(operands))),
        b'C' => reason.shown(word_in(behind_comma(behind_comma(operands)))),
        _ => reason.byte(byte),
    }
}

/// What stands for a pseudoinstruction, with its operands.
fn write_filled(reason: &mut Reason, template: &[u8], operands: &[u8]) -> Result<(), Memory>
    ensures { OnOk result (reason.new ≡ reason.old ++ flat_map (operand_or_byte operands.now) template.now) }
{
    'bytes: for byte in template {
        write_filled_byte(reason, *byte, operands)?;
    }
    Ok(())
}

#[tactic(auto, unfolding(crate::specs::Assembly::pseudo))]
fn write_pseudo(reason: &mut Reason, line: &[u8], template: &str) -> Result<(), Memory>
    ensures { OnOk result (reason.new ≡ pseudo reason.old line.now template.now) }
{
    reason.shown(word_in(line))?;
    reason.text(" is a pseudoinstruction, which this assembler leaves out; write ")?;
    write_filled(reason, template.as_bytes(), behind_word(line))
}

/// A text that says what is wrong, and the line.
fn write_at(reason: &mut Reason, text: &str, line: Option<&[u8]>) -> Result<(), Memory>
    ensures { OnOk result (reason.new ≡ reason.old ++ text.now ++ colon_and (option_map (λ line. line.now) line.entry)) }
{
    reason.text(text)?;
    reason.seen(line)
}

fn write_formless_line(
    reason: &mut Reason,
    line: &[u8],
    template: Option<&str>,
) -> Result<(), Memory>
    ensures { OnOk result (reason.new ≡ formless_by reason.old line.now (option_map (λ text. text.now) template.entry)) }
{
    match template {
        Some(template) => write_pseudo(reason, line, template),
        None => write_at(reason, "this line is no instruction", Some(line)),
    }
}

fn write_formless(reason: &mut Reason, line: Option<&[u8]>) -> Result<(), Memory>
    ensures { OnOk result (reason.new ≡ formless_text reason.old (option_map (λ line. line.now) line.entry)) }
{
    match line {
        Some(line) => write_formless_line(reason, line, instead_of(PSEUDOS, word_in(line))),
        None => reason.text("this line is no instruction"),
    }
}

fn line_of(cause: AsmCause) -> Option<u64>
    ensures { result ≡ line_of cause }
{
    match cause {
        AsmCause::TooLong => None,
        AsmCause::BadLine(number)
        | AsmCause::OutOfRange(number)
        | AsmCause::LabelTwice(number)
        | AsmCause::TooManyWords(number)
        | AsmCause::NoLabel(number) => Some(number),
    }
}

fn write_what(reason: &mut Reason, bytes: &[u8], cause: AsmCause) -> Result<(), Memory>
    ensures { OnOk result (reason.new ≡ what_of reason.old bytes.now cause) }
{
    match cause {
        AsmCause::TooLong => reason.too_long(LIMIT),
        AsmCause::BadLine(number) => write_formless(reason, line_at(bytes, number)),
        AsmCause::OutOfRange(number) => write_at(
            reason,
            "a number or an offset doesn't fit",
            line_at(bytes, number),
        ),
        AsmCause::LabelTwice(number) => write_at(
            reason,
            "this label stands on an earlier line too",
            line_at(bytes, number),
        ),
        AsmCause::TooManyWords(_) => reason.text("more than 1048576 words don't fit memory"),
        AsmCause::NoLabel(number) => write_at(
            reason,
            "no line has the label that this one names",
            line_at(bytes, number),
        ),
    }
}

/// The line that says why an assembly text is refused. Without the file's bytes it says less.
#[tactic(auto, unfolding(crate::specs::Assembly::asm_reason))]
pub fn write_assembly(
    reason: &mut Reason,
    name: &str,
    bytes: &[u8],
    cause: AsmCause,
) -> Result<(), Memory>
    ensures { OnOk result (reason.new ≡ line_of_reason (asm_reason (begun reason.old) name.now bytes.now cause)) }
{
    reason.begin()?;
    reason.place(name, line_of(cause))?;
    write_what(reason, bytes, cause)?;
    reason.end()
}
