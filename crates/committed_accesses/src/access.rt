//! What a record's instruction does in memory, and the core after it.
ghost use Rattle.std.specs.Prelude.{◌≡◌, ◌<◌, true, IfOk};
ghost use Rattle.sn_base.specs.Image.{word_fetched};
ghost use Rattle.rv_decode.specs.Table.{instr_fits};
ghost use Rattle.rv_core.specs.Core.{register};
ghost use Rattle.rv_core.specs.Access.{width_of};
ghost use Rattle.rv_core.specs.Step.{next_of};
ghost use Rattle.access_check.specs.Legal.{part_of};
ghost use Rattle.access_check.specs.Executions.{access_of, access_by, load_width, low_of, sc_of};
ghost use Rattle.committed_accesses.specs.Cores.{MayDo, attempt_of};

use access_check::{Access, Operation};
use rv_core::{Cause, CoreState, Record, Want};
use rv_decode::{Instr, LoadOp};
use sn_base::{Image, Width, Write};

/// The bytes from an address on of the aligned word that holds it.
fn part_of(word: u32, address: u32, width: &Width) -> u32
    ensures { result ≡ part_of word address width.now }
{
    let from = word >> (8 * (address % 4));
    match width {
        Width::Byte => from % 0x100,
        Width::Half => from % 0x1_0000,
        Width::Word => from,
    }
}

/// The low bytes of a value.
fn low_of(width: &Width, value: u32) -> u32
    ensures { result ≡ low_of width.now value }
{
    match width {
        Width::Byte => value % 0x100,
        Width::Half => value % 0x1_0000,
        Width::Word => value,
    }
}

fn width_of(op: &LoadOp) -> Width
    ensures { result ≡ width_of op.now }
{
    match op {
        LoadOp::Lb | LoadOp::Lbu => Width::Byte,
        LoadOp::Lh | LoadOp::Lhu => Width::Half,
        LoadOp::Lw => Width::Word,
    }
}

/// How many bytes a load reads.
fn load_width(instruction: &Result<Instr, Cause>) -> Width
    ensures { result ≡ load_width instruction.now }
{
    match instruction {
        Ok(Instr::Load { op, .. }) => width_of(op),
        _ => Width::Word,
    }
}

/// A register's value.
fn register(core: &CoreState, number: u8) -> u32
    requires { number < 32 }
    ensures { result ≡ register core.now number }
{
    if number == 0 {
        0
    } else {
        core.x[usize::from(number)]
    }
}

/// What a store-conditional writes if it is done.
fn attempt_of(want: &Want, instruction: &Result<Instr, Cause>, core: &CoreState) -> Option<Write>
    requires { IfOk instruction.now (λ instr. instr_fits instr ≡ true) }
    ensures { result ≡ attempt_of want.now instruction.now core.now }
{
    match (want, instruction) {
        (Want::Sc(address), Ok(Instr::Sc { rs2, .. })) => Some(Write {
            address: *address,
            width: Width::Word,
            value: register(core, *rs2),
        }),
        _ => None,
    }
}

fn sc_of(done: bool, value: u32) -> Operation
    ensures { result ≡ sc_of done value }
{
    if done {
        Operation::Sc(value)
    } else {
        Operation::ScFail(value)
    }
}

/// An access of the record's core.
fn access_at(taken: &Record, address: u32, width: &Width, operation: Operation) -> Access
    ensures { result ≡ record { core = taken.now.core; address = address; width = width.now; operation = operation } }
{
    Access {
        core: taken.core,
        address,
        width: *width,
        operation,
    }
}

/// The access of an instruction that wants this: by the width of a load, and by what the instruction writes, and would write if it
/// were a store-conditional that is done.
fn access_by(
    want: &Want,
    width: &Width,
    write: &Option<Write>,
    attempt: &Option<Write>,
    taken: &Record,
) -> Option<Access>
    ensures { result ≡ access_by want.now width.now write.now attempt.now taken.now.core taken.now.seen taken.now.sc_done }
{
    let seen = taken.seen;
    match want {
        Want::Nothing | Want::Input => None,
        Want::Load(address) => {
            let value = part_of(seen, *address, width);
            Some(access_at(taken, *address, width, Operation::Read(value)))
        }
        Want::Lr(address) => {
            let value = part_of(seen, *address, &Width::Word);
            Some(access_at(taken, *address, &Width::Word, Operation::Lr(value)))
        }
        Want::Store(address) => {
            let Write { width, value, .. } = write.as_ref()?;
            let value = low_of(width, *value);
            Some(access_at(taken, *address, width, Operation::Write(value)))
        }
        Want::Amo(address) => {
            let Write { width, value, .. } = write.as_ref()?;
            let new = low_of(width, *value);
            let old = part_of(seen, *address, width);
            Some(access_at(taken, *address, width, Operation::Amo { new, old }))
        }
        Want::Sc(address) => {
            let Write { width, value, .. } = attempt.as_ref()?;
            let value = low_of(width, *value);
            Some(access_at(taken, *address, width, sc_of(taken.sc_done, value)))
        }
    }
}

/// Does a record, and says what its instruction does in memory.
#[tactic(auto, unfolding(rv_core::specs::Step::want_of, rv_core::specs::Step::next_of))]
pub fn do_record(core: &mut CoreState, image: &Image, taken: &Record) -> Option<Access>
    requires { MayDo image.now core.old taken.now }
    ensures access { result ≡ access_of image.now core.old taken.now }
    ensures core { core.new ≡ (next_of image.now core.old taken.now.seen taken.now.sc_done taken.now.read).core }
{
    let instruction = core.instruction(image);
    let want = core.want_by(image, instruction);
    let attempt = attempt_of(&want, &instruction, core);
    let effect = core.finish_by(image, instruction, taken.seen, taken.sc_done, taken.read);
    let width = load_width(&instruction);
    access_by(&want, &width, &effect.write, &attempt, taken)
}
