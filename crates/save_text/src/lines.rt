//! Reads a save file line by line.
ghost use Rattle.std.specs.Prelude.{◌≡◌, ◌+◌, ◌<◌, ◌^◌, Ok, IfOk, IfErr, OnOk, length, true};
ghost use Rattle.std.specs.List.{position};
ghost use Rattle.text_lines.specs.Lines.{is_line_feed};
ghost use Rattle.sn_base.specs.Config.{config_fits};
ghost use Rattle.sn_saved.specs.Saved.{marks_fit};
ghost use Rattle.save_text.specs.Reading.{cause_at, line_read, said_by};
ghost use Rattle.save_text.specs.Lines.{IsRefusedAs};

use crate::cause::{SaveCause, SaveFault};
use crate::reading::{LineFault, Reading};
use crate::saved::Saved;
use sn_text::Fault;
use std::alloc::Global;

fn cause_at(number: u64, fault: Fault) -> SaveCause
    ensures { result ≡ cause_at number fault }
{
    match fault {
        Fault::NotOfForm => SaveCause::BadLine(number),
        Fault::NotThere => SaveCause::OutOfRange(number),
    }
}

/// Reads a line, whose number is counted from 1.
fn read_line(reading: &mut Reading, number: u64, line: &[u8]) -> Result<(), SaveFault>
    ensures ok { OnOk result (line_read number (Ok reading.old) line.now ≡ Ok reading.new) }
    ensures refused { IfErr result (IsRefusedAs (line_read number (Ok reading.old) line.now)) }
{
    match reading.read(line) {
        Ok(()) => Ok(()),
        Err(LineFault::Refused(fault)) => Err(SaveFault::Refused(cause_at(number, fault))),
        Err(LineFault::Memory) => Err(SaveFault::Memory),
    }
}

/// Where the LF is that ends the first line.
fn end_of_line(text: &[u8]) -> Option<usize>
    ensures { result ≡ position is_line_feed text.now }
{
    text.iter().position(|byte| *byte == b'\n')
}

/// What a text says, or the first cause by its lines for which it is refused. Each byte is looked at once.
pub fn read_lines(alloc: Global, bytes: &[u8]) -> Result<Saved, SaveFault>
    requires { length bytes.now < 2 ^ 62 }
    ensures ok { IfOk result (λ saved. said_by bytes.now ≡ Ok saved) }
    ensures fits { IfOk result (λ saved. config_fits saved.config ≡ true) }
    ensures numbers { IfOk result (λ saved. marks_fit saved.marks ≡ true) }
    ensures refused { IfErr result (IsRefusedAs (said_by bytes.now)) }
{
    let mut reading = Reading::new(alloc);
    let mut number = 1u64;
    let mut rest = bytes;
    'lines: while let Some(end) = end_of_line(rest) {
        if let Err(fault) = read_line(&mut reading, number, &rest[..end]) {
            return Err(fault);
        }
        rest = &rest[end + 1..];
        number += 1;
    }
    match reading.close(rest) {
        Some(saved) => Ok(saved),
        None => Err(SaveFault::Refused(SaveCause::BadLine(number))),
    }
}
