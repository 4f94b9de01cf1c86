//! What a call is given, with the programs, scripts and traces that several crates of tests give.

/// Which calls of the store, the console and the report fail; 0 is no call.
#[derive(Clone, Copy)]
pub struct Faults {
    pub store: u64,
    pub console: u64,
    pub report: u64,
}

pub const NO_FAULT: Faults = Faults {
    store: 0,
    console: 0,
    report: 0,
};

/// The words, the files a.hex and a.script beside `SAVED`, and which calls of the outside fail.
#[derive(Clone, Copy)]
pub struct Given<'a> {
    pub words: &'a str,
    pub program: &'a [u8],
    pub script: &'a [u8],
    pub faults: Faults,
}

pub const WORDS: &str = "safetynet replay --nodes 1 a.hex a.script";

/// Puts `A` and ends with code 65.
pub const PUTS_A: &str = "04100513\n00100893\n00000073\n05d00893\n00000073\n";

/// Each core adds 1 to the word at 0x80001000, in block 64, and ends with its number.
pub const COUNTS: &str = "800012b7\n00100313\n0062a3af\n05d00893\n00000073\n";

/// Takes a byte of input, puts it, and ends.
pub const ECHOES: &str = "00200893\n00000073\n00100893\n00000073\n05d00893\n00000073\n";

/// Jumps to itself.
pub const LOOPS: &str = "0000006f\n";

/// The text of a program that counts for ever.
pub const COUNTER: &str = "loop:\naddi t0, t0, 1\njal zero, loop\n";

/// A byte is put, and released at the end.
pub const VALIDATED: &str = "step 0\nstep 0\nstep 0\nedge 0\nreport 0\ndeliver 1\nvalidate\n";

/// The recovery point that `VALIDATED` leaves of `PUTS_A`, saved. It is the file a.save of each call.
pub const SAVED: &str = "\
safetynet-save 1\nconfig 1 16 4 256\nmarks 1 3 7\n\
rec 0 00000000 0\nrec 0 00000000 0\nrec 0 00000000 0\nend\n";

/// A byte is given late, and a recovery makes the core read it twice.
pub const LATE_BYTE: &str = "\
step 0\nstep 0\ninput 0 41\nstep 0\nstep 0\nstep 0\nrecover\n\
step 0\nstep 0\nstep 0\nstep 0\nedge 0\nreport 0\ndeliver 1\nvalidate\n";

/// Both cores have added, and the second has seen what the first added.
pub const ADDED: &str = "\
0 00000000 0\n0 00000000 0\n0 00000000 0\n1 00000000 0\n1 00000000 0\n1 00000001 0\n";

/// The second core hasn't seen it.
pub const UNSEEN: &str = "\
0 00000000 0\n0 00000000 0\n0 00000000 0\n1 00000000 0\n1 00000000 0\n1 00000000 0\n";
