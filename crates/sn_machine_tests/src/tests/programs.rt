//! The programs, as the words of their instructions.

/// Puts `A`, and ends.
pub const LETTER: &str = "04100513\n00100893\n00000073\n05d00893\n00000073\n";

/// Asks for a byte, puts it out, and ends.
pub const ECHO: &str = "00200893\n00000073\n00100893\n00000073\n05d00893\n00000073\n";

/// Each core adds 1 to the word at 0x80001000, in block 64.
pub const COUNT: &str = "800012b7\n00100313\n0062a3af\n05d00893\n00000073\n";

/// The first core reserves that word and stores to it conditionally, and the others store their numbers to it.
pub const RESERVE: &str = "800012b7\n00051863\n1002a32f\n1862a3af\n0000006f\n00a2a023\n0000006f\n";

/// Each core stores to the blocks 64, 65 and 66.
pub const BLOCKS: &str = "800012b7\n0002a023\n0402a023\n0802a023\n0000006f\n";

/// Each core reads the word at 0x80001000 and stores it back.
pub const COPY: &str = "800012b7\n0002a303\n0062a023\n0000006f\n";
