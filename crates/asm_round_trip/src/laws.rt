//! The laws of the assembler and the disassembler.
ghost use Rattle.std.specs.Prelude.{◌≡◌, ℕ, List, Some, pos, ◌-ℤ◌};
ghost use Rattle.rv_decode.specs.declared.instr.Instr.{Instr};
ghost use Rattle.rv_decode.specs.Decoded.{instruction_at};
ghost use Rattle.rv_statement.specs.Reading.{with_offset};
ghost use Rattle.asm_round_trip.specs.RoundTrip.{HasText, ReadsBack};
ghost use Rattle.asm_round_trip.specs.Decoding.{Names, Says, HasWord};

/// The text that a disassembler writes for a list of at most 1,048,576 words is assembled to just these words: it has a line a
/// word, none of which is refused, and each line says the word that it was written for.
pub fn a_text_reads_back()
    ensures { (words : List ℕ) → HasText words → ReadsBack words }
{}

/// The word of an instruction's line is decoded as the instruction that the line names. One that leads to a label has the
/// label's place less its own as its offset.
pub fn a_word_is_its_lines_instruction()
    ensures named { (line : List ℕ) (instr : Instr) (word : ℕ) → Names line instr → Says line word → instruction_at word ≡ Some instr }
    ensures led { (line : ℕ) (instr : Instr) (here place word : ℕ) → HasWord line instr here place word
        → instruction_at word ≡ Some (with_offset instr (pos place -ℤ pos here)) }
{}
