//! What each instruction does to its core and outside.
ghost use Rattle.std.specs.Prelude.{◌≡◌, ◌<◌, true, false, Option, Some};
ghost use Rattle.rv_decode.specs.Table.{instr_fits};
ghost use Rattle.rv_core.specs.Core.{register, with_register, core_with_trap};
ghost use Rattle.rv_core.specs.Arithmetic.{as_word, load_result, amo_result};
ghost use Rattle.rv_core.specs.Access.{fault_of, width_of};
ghost use Rattle.rv_core.specs.Step.{does, becomes, writing, core_in_order, gets, branches, jumps, address_in, reserves, conditionally};
ghost use Rattle.rv_core.specs.Step.{next_of_call, unless_fault};

use crate::access::{fault, width_of};
use crate::arithmetic::{amo_result, imm_result, is_taken, loaded, reg_result};
use crate::state::{Cause, CoreState, End};
use crate::step::Effect;
use rv_decode::{AmoOp, Instr, LoadOp};
use sn_base::{BlockNo, Image, Width, Write};

const QUIET: Effect = Effect {
    write: None,
    out: None,
};

fn writes(address: u32, width: Width, value: u32) -> Effect
    ensures { result ≡ record { write = Some (record { address = address; width = width; value = value }); out = None } }
{
    Effect {
        write: Some(Write {
            address,
            width,
            value,
        }),
        out: None,
    }
}

impl CoreState {
    /// A register's value.
    pub(crate) fn register(&self, number: u8) -> u32
        requires { number < 32 }
        ensures { result ≡ register self.now number }
    {
        if number == 0 {
            0
        } else {
            self.x[usize::from(number)]
        }
    }

    /// The address of an access, or of a jump before its lowest bit is cleared.
    pub(crate) fn address(&self, rs1: u8, imm: i32) -> u32
        requires { rs1 < 32 }
        ensures { result ≡ address_in self.now rs1 (as_word imm) }
    {
        self.register(rs1).wrapping_add(imm.cast_unsigned())
    }

    pub(crate) fn execute(
        &mut self,
        image: &Image,
        instr: Instr,
        seen: u32,
        sc_done: bool,
        read: Option<u8>,
    ) -> Effect
        requires { instr_fits instr ≡ true }
        ensures core { self.new ≡ (does image.now instr self.old seen sc_done read).core }
        ensures effect { result ≡ (does image.now instr self.old seen sc_done read).effect }
    {
        match instr {
            Instr::Lui { rd, imm } => self.get(rd, imm),
            Instr::Auipc { rd, imm } => {
                let sum = self.pc.wrapping_add(imm);
                self.get(rd, sum)
            }
            Instr::Jal { rd, offset } => {
                let target = self.pc.wrapping_add(offset.cast_unsigned());
                self.jump(rd, target)
            }
            Instr::Jalr { rd, rs1, imm } => {
                let target = self.address(rs1, imm) / 2 * 2;
                self.jump(rd, target)
            }
            Instr::Branch {
                op,
                rs1,
                rs2,
                offset,
            } if is_taken(op, self.register(rs1), self.register(rs2)) => {
                let target = self.pc.wrapping_add(offset.cast_unsigned());
                self.branch(target)
            }
            Instr::Branch { .. } | Instr::Fence => self.pass(),
            Instr::Load { op, rd, rs1, imm } => {
                let address = self.address(rs1, imm);
                self.load(image, op, rd, address, seen)
            }
            Instr::Store { op, rs1, rs2, imm } => {
                let (address, value) = (self.address(rs1, imm), self.register(rs2));
                self.store(image, op, address, value)
            }
            Instr::OpImm { op, rd, rs1, imm } => {
                let value = imm_result(op, self.register(rs1), imm.cast_unsigned());
                self.get(rd, value)
            }
            Instr::Op { op, rd, rs1, rs2 } => {
                let value = reg_result(op, self.register(rs1), self.register(rs2));
                self.get(rd, value)
            }
            Instr::Ecall => self.call(read),
            Instr::Ebreak => self.trap(Cause::Break),
            Instr::Lr { rd, rs1 } => {
                let address = self.register(rs1);
                self.load_reserved(image, rd, address, seen)
            }
            Instr::Sc { rd, rs1, rs2 } => {
                let (address, value) = (self.register(rs1), self.register(rs2));
                self.store_conditional(image, rd, address, value, sc_done)
            }
            Instr::Amo { op, rd, rs1, rs2 } => {
                let (address, value) = (self.register(rs1), self.register(rs2));
                self.atomic(image, op, rd, address, value, seen)
            }
        }
    }

    /// A trap ends the core and changes nothing else.
    pub(crate) fn trap(&mut self, cause: Cause) -> Effect
        ensures core { self.new ≡ core_with_trap self.old cause }
        ensures effect { result ≡ (becomes self.old).effect }
    {
        self.end = End::Trapped(cause);
        QUIET
    }

    fn pass(&mut self) -> Effect
        ensures core { self.new ≡ core_in_order self.old }
        ensures effect { result ≡ (becomes self.old).effect }
    {
        self.pc = self.pc.wrapping_add(4);
        QUIET
    }

    /// Writes a register; x0 isn't written.
    fn set_register(&mut self, number: u8, value: u32)
        requires { number < 32 }
        ensures { self.new ≡ record self.old { x = with_register self.old number value } }
    {
        if number != 0 {
            self.x[usize::from(number)] = value;
        }
    }

    fn get(&mut self, rd: u8, value: u32) -> Effect
        requires { rd < 32 }
        ensures core { self.new ≡ gets self.old rd value }
        ensures effect { result ≡ (becomes self.old).effect }
    {
        self.set_register(rd, value);
        self.pass()
    }

    fn branch(&mut self, target: u32) -> Effect
        ensures core { self.new ≡ branches self.old target }
        ensures effect { result ≡ (becomes self.old).effect }
    {
        if target % 4 != 0 {
            return self.trap(Cause::MisalignedTarget);
        }
        self.pc = target;
        QUIET
    }

    fn jump(&mut self, rd: u8, target: u32) -> Effect
        requires { rd < 32 }
        ensures core { self.new ≡ jumps self.old rd target }
        ensures effect { result ≡ (becomes self.old).effect }
    {
        let next = self.pc.wrapping_add(4);
        if target % 4 != 0 {
            return self.trap(Cause::MisalignedTarget);
        }
        self.set_register(rd, next);
        self.pc = target;
        QUIET
    }

    fn load(&mut self, image: &Image, op: LoadOp, rd: u8, address: u32, seen: u32) -> Effect
        requires { rd < 32 }
        ensures core { self.new
            ≡ (unless_fault (fault_of image.now (width_of op) false address) self.old
            (becomes (gets self.old rd (load_result op address seen)))).core }
        ensures effect { result ≡ (becomes self.old).effect }
    {
        match fault(image, width_of(op), false, address) {
            Some(cause) => self.trap(cause),
            None => self.get(rd, loaded(op, address, seen)),
        }
    }

    fn store(&mut self, image: &Image, width: Width, address: u32, value: u32) -> Effect
        ensures core { self.new
            ≡ (unless_fault (fault_of image.now width true address) self.old (writing (core_in_order self.old) address width value)).core }
        ensures effect { result
            ≡ (unless_fault (fault_of image.now width true address) self.old (writing (core_in_order self.old) address width value)).effect }
    {
        if let Some(cause) = fault(image, width, true, address) {
            return self.trap(cause);
        }
        self.pass();
        writes(address, width, value)
    }

    fn load_reserved(&mut self, image: &Image, rd: u8, address: u32, seen: u32) -> Effect
        requires { rd < 32 }
        ensures core { self.new
            ≡ (unless_fault (fault_of image.now Width.Word false address) self.old (becomes (reserves self.old rd address seen))).core }
        ensures effect { result ≡ (becomes self.old).effect }
    {
        if let Some(cause) = fault(image, Width::Word, false, address) {
            return self.trap(cause);
        }
        self.reservation = BlockNo::of(address);
        self.get(rd, seen)
    }

    fn store_conditional(
        &mut self,
        image: &Image,
        rd: u8,
        address: u32,
        value: u32,
        done: bool,
    ) -> Effect
        requires { rd < 32 }
        ensures core { self.new
            ≡ (unless_fault (fault_of image.now Width.Word true address) self.old (conditionally done self.old rd address value)).core }
        ensures effect { result
            ≡ (unless_fault (fault_of image.now Width.Word true address) self.old (conditionally done self.old rd address value)).effect }
    {
        if let Some(cause) = fault(image, Width::Word, true, address) {
            return self.trap(cause);
        }
        self.reservation = None;
        self.get(rd, u32::from(!done));
        if done {
            writes(address, Width::Word, value)
        } else {
            QUIET
        }
    }

    fn atomic(
        &mut self,
        image: &Image,
        op: AmoOp,
        rd: u8,
        address: u32,
        value: u32,
        seen: u32,
    ) -> Effect
        requires { rd < 32 }
        ensures core { self.new
            ≡ (unless_fault (fault_of image.now Width.Word true address) self.old
            (writing (gets self.old rd seen) address Width.Word (amo_result op seen value))).core }
        ensures effect { result
            ≡ (unless_fault (fault_of image.now Width.Word true address) self.old
            (writing (gets self.old rd seen) address Width.Word (amo_result op seen value))).effect }
    {
        if let Some(cause) = fault(image, Width::Word, true, address) {
            return self.trap(cause);
        }
        self.get(rd, seen);
        writes(address, Width::Word, amo_result(op, seen, value))
    }

    /// ECALL: the number of the call stands in a7.
    fn call(&mut self, read: Option<u8>) -> Effect
        ensures core { self.new ≡ (next_of_call self.old read).core }
        ensures effect { result ≡ (next_of_call self.old read).effect }
    {
        match self.register(17) {
            1 => {
                let byte = (self.register(10) % 256) as u8;
                self.pass();
                Effect {
                    write: None,
                    out: Some(byte),
                }
            }
            2 => self.get(10, u32::from(read.unwrap_or(0))),
            93 => {
                self.end = End::Exited(self.register(10));
                QUIET
            }
            _ => self.trap(Cause::UnknownCall),
        }
    }
}
