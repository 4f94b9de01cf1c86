//! One word a row of the table, as an assembler writes it, and its neighbour in one fixed bit.
mod operations;
mod system;
mod transfers;

use rv_decode::{Illegal, Instr, decode, encode};
use std::process::Abort;

/// A word and its instruction; its neighbour, and what that is.
type Row = (u32, Instr, u32, Result<Instr, Illegal>);

fn is_met(row: &Row) -> bool {
    let (word, instr, other, found) = row;
    decode(*word) == Ok(*instr)
        && instr.fits()
        && encode(instr) == *word
        && decode(*other) == *found
}

fn all_met(rt: &impl Abort, rows: &[Row]) {
    for row in rows.iter() {
        assert!(rt; is_met(row), "{:08x}", row.0);
    }
}
