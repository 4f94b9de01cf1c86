//! An instruction in a row, as the disassembler writes it.
ghost use Rattle.std.specs.Prelude.{◌≡◌, ◌+◌, ◌/◌, ◌≤◌, ◌++◌, length, codes, decimal};
ghost use Rattle.std.specs.Fmt.{signed_decimal};
ghost use Rattle.rv_statement.specs.Names.{mnemonic};
ghost use Rattle.rv_asm.specs.Text.{register_text, with_comma, address_text, place_text, operands_text, instr_text};
ghost use Rattle.rv_asm.specs.Text.{word_text, instruction_of_word};
ghost use Rattle.committed_accesses.specs.Lines.{quoted_instruction};
ghost use Rattle.committed_accesses.specs.declared.row_line.TheConstants.{ROW_ROOM};

use crate::row_line::RowLine;
use rv_decode::{Instr, decode, encode};
use rv_statement::mnemonic;

/// The instruction that is written as this word.
#[tactic(auto, unfolding(rv_asm::specs::Text::instruction_of_word))]
fn instruction_of_word(word: u32) -> Option<Instr>
    ensures { result ≡ instruction_of_word word }
{
    match decode(word) {
        Ok(instr) if encode(&instr) == word => Some(instr),
        _ => None,
    }
}

// The disassembler's own calls append to a text that grows. Here no memory may be wanted between two lines, so an instruction is
// written into the row's room; the definition that both meet is the disassembler's.
impl RowLine {
    /// A register, after what stands between it and the operand before it.
    fn register(&mut self, before: &str, number: u8)
        requires before_short { length before.now ≤ 2 }
        requires room { length self.old + 6 ≤ ROW_ROOM }
        ensures text { self.new ≡ self.old ++ (before.now ++ register_text number) }
        ensures short { length self.new ≤ length self.old + 6 }
    {
        self.text(before);
        self.text("x");
        self.small(number);
    }

    fn upper(&mut self, rd: u8, imm: u32)
        requires { length self.old + 18 ≤ ROW_ROOM }
        ensures text { self.new ≡ self.old ++ (codes " " ++ with_comma (register_text rd) (decimal (imm / 4096))) }
        ensures short { length self.new ≤ length self.old + 18 }
    {
        self.register(" ", rd);
        self.text(", ");
        self.number(imm / 4096);
    }

    fn jump(&mut self, rd: u8, offset: i32)
        requires { length self.old + 19 ≤ ROW_ROOM }
        ensures text { self.new ≡ self.old ++ (codes " " ++ with_comma (register_text rd) (signed_decimal offset)) }
        ensures short { length self.new ≤ length self.old + 19 }
    {
        self.register(" ", rd);
        self.text(", ");
        self.signed(offset);
    }

    fn numbered(&mut self, one: u8, other: u8, number: i32)
        requires { length self.old + 25 ≤ ROW_ROOM }
        ensures text { self.new ≡
            self.old ++ (codes " " ++ with_comma (register_text one) (with_comma (register_text other) (signed_decimal number))) }
        ensures short { length self.new ≤ length self.old + 25 }
    {
        self.register(" ", one);
        self.register(", ", other);
        self.text(", ");
        self.signed(number);
    }

    fn registers(&mut self, rd: u8, rs1: u8, rs2: u8)
        requires { length self.old + 18 ≤ ROW_ROOM }
        ensures text { self.new ≡
            self.old ++ (codes " " ++ with_comma (register_text rd) (with_comma (register_text rs1) (register_text rs2))) }
        ensures short { length self.new ≤ length self.old + 18 }
    {
        self.register(" ", rd);
        self.register(", ", rs1);
        self.register(", ", rs2);
    }

    /// The address that a register holds.
    fn address(&mut self, base: u8)
        requires { length self.old + 7 ≤ ROW_ROOM }
        ensures text { self.new ≡ self.old ++ address_text base }
        ensures short { length self.new ≤ length self.old + 7 }
    {
        self.register("(", base);
        self.text(")");
    }

    fn place(&mut self, one: u8, number: i32, base: u8)
        requires { length self.old + 26 ≤ ROW_ROOM }
        ensures text { self.new ≡ self.old ++ (codes " " ++ with_comma (register_text one) (place_text number base)) }
        ensures short { length self.new ≤ length self.old + 26 }
    {
        self.register(" ", one);
        self.text(", ");
        self.signed(number);
        self.address(base);
    }

    fn reserved(&mut self, rd: u8, base: u8)
        requires { length self.old + 15 ≤ ROW_ROOM }
        ensures text { self.new ≡ self.old ++ (codes " " ++ with_comma (register_text rd) (address_text base)) }
        ensures short { length self.new ≤ length self.old + 15 }
    {
        self.register(" ", rd);
        self.text(", ");
        self.address(base);
    }

    fn atomic(&mut self, rd: u8, rs2: u8, base: u8)
        requires { length self.old + 21 ≤ ROW_ROOM }
        ensures text { self.new ≡
            self.old ++ (codes " " ++ with_comma (register_text rd) (with_comma (register_text rs2) (address_text base))) }
        ensures short { length self.new ≤ length self.old + 21 }
    {
        self.register(" ", rd);
        self.register(", ", rs2);
        self.text(", ");
        self.address(base);
    }

    fn operands(&mut self, instr: &Instr)
        requires { length self.old + 26 ≤ ROW_ROOM }
        ensures text { self.new ≡ self.old ++ operands_text instr.now }
        ensures short { length self.new ≤ length self.old + 26 }
    {
        match *instr {
            Instr::Lui { rd, imm } => self.upper(rd, imm),
            Instr::Auipc { rd, imm } => self.upper(rd, imm),
            Instr::Jal { rd, offset } => self.jump(rd, offset),
            Instr::Branch {
                rs1,
                rs2,
                offset,
                ..
            } => self.numbered(rs1, rs2, offset),
            Instr::Jalr { rd, rs1, imm } => self.place(rd, imm, rs1),
            Instr::Load { rd, rs1, imm, .. } => self.place(rd, imm, rs1),
            Instr::Store { rs1, rs2, imm, .. } => self.place(rs2, imm, rs1),
            Instr::OpImm { rd, rs1, imm, .. } => self.numbered(rd, rs1, imm),
            Instr::Op { rd, rs1, rs2, .. } => self.registers(rd, rs1, rs2),
            Instr::Fence | Instr::Ecall | Instr::Ebreak => {}
            Instr::Lr { rd, rs1 } => self.reserved(rd, rs1),
            Instr::Sc { rd, rs1, rs2 } => self.atomic(rd, rs2, rs1),
            Instr::Amo { rd, rs1, rs2, .. } => self.atomic(rd, rs2, rs1),
        }
    }

    #[tactic(auto, using(crate::proofs::Mnemonics::mnemonic_short))]
    fn mnemonic(&mut self, instr: &Instr)
        requires { length self.old + 9 ≤ ROW_ROOM }
        ensures text { self.new ≡ self.old ++ mnemonic instr.now }
        ensures short { length self.new ≤ length self.old + 9 }
    {
        self.text(mnemonic(instr));
    }

    #[tactic(auto, unfolding(rv_asm::specs::Text::instr_text))]
    fn instr(&mut self, instr: &Instr)
        requires { length self.old + 35 ≤ ROW_ROOM }
        ensures text { self.new ≡ self.old ++ instr_text instr.now }
        ensures short { length self.new ≤ length self.old + 35 }
    {
        self.mnemonic(instr);
        self.operands(instr);
    }

    /// A word as `dis` writes it, without the end of its line.
    #[tactic(auto, unfolding(rv_asm::specs::Text::word_text))]
    fn disassembled(&mut self, word: u32)
        requires { length self.old + 35 ≤ ROW_ROOM }
        ensures text { self.new ≡ self.old ++ word_text word }
        ensures short { length self.new ≤ length self.old + 35 }
    {
        match instruction_of_word(word) {
            Some(instr) => self.instr(&instr),
            None => {
                self.text(".word 0x");
                self.word(word);
            }
        }
    }

    /// The instruction of a word that was fetched, between double quotes.
    pub(crate) fn instruction(&mut self, word: Option<u32>)
        requires { length self.old + 37 ≤ ROW_ROOM }
        ensures text { self.new ≡ self.old ++ quoted_instruction word }
        ensures short { length self.new ≤ length self.old + 37 }
    {
        self.text("\"");
        if let Some(word) = word {
            self.disassembled(word);
        }
        self.text("\"");
    }
}
