//! One instruction: what it wants, and what it does.
ghost use Rattle.std.specs.Prelude.{◌≡◌, true, is_some, IfOk};
ghost use Rattle.sn_base.specs.Image.{word_fetched};
ghost use Rattle.rv_decode.specs.Table.{instr_fits};
ghost use Rattle.rv_core.specs.Core.{is_running, is_input, holds_reservation};
ghost use Rattle.rv_core.specs.Step.{want_of, next_of, instruction_of, wants, wants_next, wants_unless, does_next};

use crate::access::{fault, width_of};
use crate::state::{Cause, CoreState};
use rv_decode::{Instr, decode};
use sn_base::{Image, NodeId, Width, Write};

/// The access that a core's next instruction wants, with its byte address; or a byte of the core's input; or nothing
/// from outside, as a trap and every other instruction.
#[derive(Clone, Copy, PartialEq, Eq, Debug)]
pub enum Want {
    Nothing,
    Load(u32),
    Store(u32),
    Amo(u32),
    Lr(u32),
    Sc(u32),
    Input,
}

/// What an instruction does outside its core: at most one write to memory, and at most one byte put out.
#[derive(Clone, Copy, PartialEq, Eq, Debug)]
pub struct Effect {
    pub write: Option<Write>,
    pub out: Option<u8>,
}

/// One instruction as a trace keeps it: the core that did it, the aligned word that it saw (0 where it read none),
/// whether it was a store-conditional that was done, and the byte of input that it read.
#[derive(Clone, Copy, PartialEq, Eq, Debug)]
pub struct Record {
    pub core: NodeId,
    pub seen: u32,
    pub sc_done: bool,
    pub read: Option<u8>,
}

impl CoreState {
    /// The instruction of the word at the program counter, or why there is none. `want` and `finish` fetch and decode it
    /// each for itself; a caller of both may do so once, and hand it to `want_by` and `finish_by`.
    pub fn instruction(&self, image: &Image) -> Result<Instr, Cause>
        ensures same { result ≡ instruction_of (word_fetched image.now.segments self.now.pc) }
        ensures fits { IfOk result (λ instr. instr_fits instr ≡ true) }
    {
        let Some(word) = image.fetch(self.pc) else {
            return Err(Cause::FetchFault);
        };
        match decode(word) {
            Ok(instr) => Ok(instr),
            Err(_illegal) => Err(Cause::Illegal),
        }
    }

    /// What the next instruction of a running core wants.
    #[tactic(auto, unfolding(crate::specs::Step::want_of))]
    pub fn want(&self, image: &Image) -> Want
        requires { is_running self.now.end ≡ true }
        ensures { result ≡ want_of image.now self.now }
    {
        self.want_by(image, self.instruction(image))
    }

    /// What an instruction wants, as `want` does of the next one; a trap, where there is none, wants nothing.
    pub fn want_by(&self, image: &Image, instruction: Result<Instr, Cause>) -> Want
        requires running { is_running self.now.end ≡ true }
        requires fits { IfOk instruction (λ instr. instr_fits instr ≡ true) }
        ensures { result ≡ wants_next image.now instruction self.now }
    {
        match instruction {
            Ok(instr) => self.wanted(image, instr),
            Err(_cause) => Want::Nothing,
        }
    }

    fn wanted(&self, image: &Image, instr: Instr) -> Want
        requires { instr_fits instr ≡ true }
        ensures { result ≡ wants image.now instr self.now }
    {
        match instr {
            Instr::Load { op, rs1, imm, .. } => {
                let address = self.address(rs1, imm);
                unless_fault(
                    fault(image, width_of(op), false, address),
                    Want::Load(address),
                )
            }
            Instr::Store { op, rs1, imm, .. } => {
                let address = self.address(rs1, imm);
                unless_fault(fault(image, op, true, address), Want::Store(address))
            }
            Instr::Ecall if self.register(17) == 2 => Want::Input,
            Instr::Lr { rs1, .. } => {
                let address = self.register(rs1);
                unless_fault(fault(image, Width::Word, false, address), Want::Lr(address))
            }
            Instr::Sc { rs1, .. } => {
                let address = self.register(rs1);
                unless_fault(fault(image, Width::Word, true, address), Want::Sc(address))
            }
            Instr::Amo { rs1, .. } => {
                let address = self.register(rs1);
                unless_fault(fault(image, Width::Word, true, address), Want::Amo(address))
            }
            _ => Want::Nothing,
        }
    }

    /// Does the next instruction of a running core: `seen` is the aligned word that holds the accessed bytes where the
    /// core reads memory, and 0 otherwise; `sc_done` says that a store-conditional is done; `read` is the byte of input
    /// where the core wants one.
    #[tactic(auto, unfolding(crate::specs::Step::want_of, crate::specs::Step::next_of))]
    pub fn finish(&mut self, image: &Image, seen: u32, sc_done: bool, read: Option<u8>) -> Effect
        requires running { is_running self.old.end ≡ true }
        requires reserved { sc_done ≡ true → holds_reservation self.old (want_of image.now self.old) ≡ true }
        requires byte { is_some read ≡ is_input (want_of image.now self.old) }
        ensures core { self.new ≡ (next_of image.now self.old seen sc_done read).core }
        ensures effect { result ≡ (next_of image.now self.old seen sc_done read).effect }
    {
        let instruction = self.instruction(image);
        self.finish_by(image, instruction, seen, sc_done, read)
    }

    /// Does an instruction, or traps where there is none, as `finish` does with the next one; `seen`, `sc_done` and
    /// `read` are as there.
    pub fn finish_by(
        &mut self,
        image: &Image,
        instruction: Result<Instr, Cause>,
        seen: u32,
        sc_done: bool,
        read: Option<u8>,
    ) -> Effect
        requires running { is_running self.old.end ≡ true }
        requires fits { IfOk instruction (λ instr. instr_fits instr ≡ true) }
        requires reserved { sc_done ≡ true → holds_reservation self.old (wants_next image.now instruction self.old) ≡ true }
        requires byte { is_some read ≡ is_input (wants_next image.now instruction self.old) }
        ensures core { self.new ≡ (does_next image.now instruction self.old seen sc_done read).core }
        ensures effect { result ≡ (does_next image.now instruction self.old seen sc_done read).effect }
    {
        match instruction {
            Ok(instr) => self.execute(image, instr, seen, sc_done, read),
            Err(cause) => self.trap(cause),
        }
    }
}

fn unless_fault(fault: Option<Cause>, want: Want) -> Want
    ensures { result ≡ wants_unless fault want }
{
    match fault {
        None => want,
        Some(_cause) => Want::Nothing,
    }
}
