//! The machine and its steps.
ghost use Rattle.std.specs.Prelude.{◌≡◌, ◌+◌, ◌%◌, ◌<◌, ◌≤◌, ◌↔◌, length, map, Some, IfSome, IfOk, IsOk, OnErr, OnOk, IsTrue, is_some};
ghost use Rattle.std.specs.Prelude.{true, ◌*◌, ◌++◌, ◌^◌, take, drop, replicate};
ghost use Rattle.sn_base.specs.Blocks.{ram_start, ram_size, bytes_of};
ghost use Rattle.sn_base.specs.Image.{bytes_from};
ghost use Rattle.rv_core.specs.Core.{start_of, block_of, is_input, holds_reservation};
ghost use Rattle.sn_flat.specs.Reservations.{without};
ghost use Rattle.rv_core.specs.Wanted.{IsInside, IsAddress};
ghost use Rattle.rv_core.specs.Flat.{HasStep, flat_start, flat_step, first_cores, initial_memory, core_at, word_at, seen_by, memory_after_write};
ghost use Rattle.rv_core.specs.Flat.{after_write, next_by};

use byteorder::{ByteOrder, LittleEndian};
use rv_core::{CoreState, End, Record, Want};
use sn_base::{
    BLOCK_SIZE, BLOCKS, Block, BlockNo, Image, Memory, NodeId, RAM_SIZE, RAM_START, Width, Write,
};
use std::alloc::Global;
use std::marker::Model;

/// The record is no step of the flat machine.
#[derive(Clone, Copy, PartialEq, Eq, Debug)]
pub struct NotLegal;

/// One memory of 4 MiB and one core per node.
#[derive(Drop)]
pub struct Flat {
    memory: Vec<u8>,
    cores: Vec<CoreState>,
}

impl Model for Flat {
    ghost use Rattle.std.specs.Prelude.{length, ◌≡◌, ◌≤◌};
    ghost use Rattle.sn_base.specs.Blocks.{ram_size};
    ghost use Rattle.rv_core.specs.Flat.{FlatState};

    ghost Value = { FlatState };

    ghost view = { λ f. record { memory = f.memory.items; cores = f.cores.items } };

    ghost invariant = { λ f. length f.memory.items ≡ ram_size };
}

impl Flat {
    /// The start of a program on 1 to 16 nodes: memory as the program gives it, and each core at its entry.
    pub fn start(alloc: Global, image: &Image, nodes: u8) -> Result<Flat, Memory>
        requires some { 1 ≤ nodes }
        requires few { nodes ≤ 16 }
        ensures state { IfOk result (λ flat. flat ≡ flat_start image.now nodes) }
        ensures nodes { IfOk result (λ flat. length flat.cores ≡ nodes) }
    {
        let memory = first_memory(alloc, image)?;
        let cores = starting_cores(alloc, image.entry(), nodes)?;
        Ok(Flat { memory, cores })
    }

    /// Does the record's step, where it is one, and answers the byte that it puts out, if any. Where it is none, nothing
    /// changes.
    pub fn step(&mut self, image: &Image, taken: &Record) -> Result<Option<u8>, NotLegal>
        ensures legal { IsOk result ↔ HasStep image.now self.old taken.now }
        ensures out { IfOk result (λ out. out ≡ (next_by image.now self.old taken.now).effect.out) }
        ensures state { OnOk result (self.new ≡ flat_step image.now self.old taken.now) }
        ensures unchanged { OnErr result (self.new ≡ self.old) }
        ensures nodes { length self.new.cores ≡ length self.old.cores }
    {
        if !self.has_step(image, taken) {
            return Err(NotLegal);
        }
        Ok(self.take(image, taken))
    }

    /// Whether the record is a step.
    fn has_step(&self, image: &Image, taken: &Record) -> bool
        ensures { IsTrue result ↔ HasStep image.now self.now taken.now }
    {
        let node = usize::from(taken.core.number());
        if node >= self.cores.len() {
            return false;
        }
        let core = self.cores[node];
        core.end == End::Running && self.agrees(&core, core.want(image), taken)
    }

    /// Whether a record of a core that wants this has the word seen, the success and the byte that it may have.
    fn agrees(&self, core: &CoreState, want: Want, taken: &Record) -> bool
        requires { IsInside want }
        ensures { IsTrue result ↔ ((taken.now.seen ≡ seen_by want self.now.memory)
            × (taken.now.sc_done ≡ true → holds_reservation core.now want ≡ true) × (is_some taken.now.read ≡ is_input want)) }
    {
        taken.seen == seen_word(self.memory.as_slice(), want)
            && (!taken.sc_done || holds(core, want))
            && taken.read.is_some() == (want == Want::Input)
    }

    fn take(&mut self, image: &Image, taken: &Record) -> Option<u8>
        requires { HasStep image.now self.old taken.now }
        ensures out { result ≡ (next_by image.now self.old taken.now).effect.out }
        ensures state { self.new ≡ flat_step image.now self.old taken.now }
        ensures nodes { length self.new.cores ≡ length self.old.cores }
    {
        let node = usize::from(taken.core.number());
        let mut core = self.cores[node];
        let effect = core.finish(image, taken.seen, taken.sc_done, taken.read);
        self.write(effect.write);
        self.cores[node] = core;
        effect.out
    }

    /// A write reaches memory, and clears the reservations of its block.
    fn write(&mut self, write: Option<Write>)
        requires { IfSome write (λ w. (ram_start ≤ w.address) × (w.address + bytes_of w.width ≤ ram_start + ram_size)) }
        ensures { self.new ≡ record { memory = memory_after_write self.old.memory write; cores = map (after_write write) self.old.cores } }
    {
        match write {
            None => {}
            Some(write) => {
                store(self.memory.as_mut_slice(), &write);
                lose_reservations(self.cores.as_mut_slice(), block_at(write.address));
            }
        }
    }

    /// The core of a node that is there.
    pub fn core(&self, node: NodeId) -> &CoreState
        requires { node < length self.now.cores }
        ensures { result.now ≡ core_at self.now node }
    {
        &self.cores[usize::from(node.number())]
    }

    /// The bytes of a block of memory.
    pub fn block(&self, block: BlockNo) -> Block
        ensures { result ≡ take 64 (drop (64 * block) self.now.memory) }
    {
        block_in(self.memory.as_slice(), 64 * usize::from(block.number()))
    }

    /// The word at an address of memory that is a multiple of 4.
    pub fn word(&self, address: u32) -> u32
        requires aligned { address % 4 ≡ 0 }
        requires inside { IsAddress address }
        ensures { result ≡ word_at self.now.memory address }
    {
        word_in(self.memory.as_slice(), address)
    }
}

/// The aligned word that holds an address of memory.
fn word_in(memory: &[u8], address: u32) -> u32
    requires size { length memory.now ≡ ram_size }
    requires inside { IsAddress address }
    ensures { result ≡ word_at memory.now address }
{
    let place = (address - RAM_START) as usize / 4 * 4;
    LittleEndian::read_u32(&memory[place..])
}

/// The 64 bytes of memory from a place on.
fn block_in(memory: &[u8], start: usize) -> Block
    requires { start + 64 ≤ length memory.now }
    ensures { result ≡ take 64 (drop start memory.now) }
{
    let mut content = Block::zero();
    'bytes: for place in 0..64usize {
        content.store(place, Width::Byte, u32::from(memory[start + place]));
    }
    content
}

/// The word that an instruction sees.
fn seen_word(memory: &[u8], want: Want) -> u32
    requires size { length memory.now ≡ ram_size }
    requires inside { IsInside want }
    ensures { result ≡ seen_by want memory.now }
{
    match want {
        Want::Load(address) | Want::Amo(address) | Want::Lr(address) => word_in(memory, address),
        Want::Nothing | Want::Store(_) | Want::Sc(_) | Want::Input => 0,
    }
}

/// Whether the core wants to do a store-conditional on the block that it has reserved.
fn holds(core: &CoreState, want: Want) -> bool
    requires { IsInside want }
    ensures { result ≡ holds_reservation core.now want }
{
    match want {
        Want::Sc(address) => core.reservation.is_some() && core.reservation == BlockNo::of(address),
        _ => false,
    }
}

/// Writes the low bytes of a value into memory.
fn store(memory: &mut [u8], write: &Write)
    requires size { length memory.old ≡ ram_size }
    requires above { ram_start ≤ write.now.address }
    requires below { write.now.address + bytes_of write.now.width ≤ ram_start + ram_size }
    ensures { memory.new ≡ memory_after_write memory.old (Some write.now) }
{
    let place = (write.address - RAM_START) as usize;
    let bytes = write.value.to_le_bytes();
    match write.width {
        Width::Byte => memory[place..place + 1].copy_from_slice(&bytes[..1]),
        Width::Half => memory[place..place + 2].copy_from_slice(&bytes[..2]),
        Width::Word => memory[place..place + 4].copy_from_slice(&bytes),
    }
}

/// The block that has an address of memory.
fn block_at(address: u32) -> BlockNo
    requires { IsAddress address }
    ensures { result ≡ block_of address }
{
    BlockNo::of(address).unwrap()
}

/// No core keeps a reservation of the block.
fn lose_reservations(cores: &mut [CoreState], block: BlockNo)
    ensures { cores.new ≡ map (without block) cores.old }
{
    'cores: for core in cores.iter_mut() {
        lose_reservation(core, block);
    }
}

fn lose_reservation(core: &mut CoreState, block: BlockNo)
    ensures { core.new ≡ without block core.old }
{
    if core.reservation == Some(block) {
        core.reservation = None;
    }
}

/// The bytes that memory begins with.
fn first_memory(alloc: Global, image: &Image) -> Result<Vec<u8>, Memory>
    ensures { IfOk result (λ memory. memory.items ≡ initial_memory image.now) }
{
    let mut memory = Vec::with_capacity(alloc, RAM_SIZE as usize)?;
    'numbers: for number in 0..BLOCKS {
        push_block(&mut memory, image, block_of_number(number))?;
    }
    Ok(memory)
}

fn block_of_number(number: usize) -> BlockNo
    requires { number < 65536 }
    ensures { result ≡ number }
{
    BlockNo::new(number as u16)
}

/// Adds the bytes that a block begins with.
fn push_block(memory: &mut Vec<u8>, image: &Image, block: BlockNo) -> Result<(), Memory>
    ensures { OnOk result (memory.new.items ≡ memory.old.items ++ bytes_from 64 image.now.segments (ram_start + 64 * block)) }
{
    // Most blocks are given nothing, and there are 65,536.
    if is_zero(&image.block(block)) {
        memory.extend_from_slice(&[0; 64])?;
        return Ok(());
    }
    push_bytes(
        memory,
        image,
        RAM_START + BLOCK_SIZE * u32::from(block.number()),
    )
}

fn is_zero(block: &Block) -> bool
    ensures { result ≡ true → block.now ≡ replicate 64 0 }
{
    *block == Block::zero()
}

/// Adds the 64 bytes from an address on, one by one.
fn push_bytes(memory: &mut Vec<u8>, image: &Image, start: u32) -> Result<(), Memory>
    requires { start + 64 < 2 ^ 32 }
    ensures { OnOk result (memory.new.items ≡ memory.old.items ++ bytes_from 64 image.now.segments start) }
{
    'bytes: for place in 0..BLOCK_SIZE {
        memory.push(image.byte(start + place))?;
    }
    Ok(())
}

fn starting_cores(alloc: Global, entry: u32, nodes: u8) -> Result<Vec<CoreState>, Memory>
    requires few { nodes ≤ 16 }
    ensures cores { IfOk result (λ cores. cores.items ≡ first_cores nodes entry) }
    ensures nodes { IfOk result (λ cores. length cores.items ≡ nodes) }
{
    let mut cores = Vec::with_capacity(alloc, usize::from(nodes))?;
    'nodes: for number in 0..nodes {
        let unreserved: Option<BlockNo> = None;
        let core = CoreState {
            reservation: unreserved,
            ..first_core(number, entry)
        };
        cores.push(core)?;
    }
    Ok(cores)
}

fn first_core(number: u8, entry: u32) -> CoreState
    requires { number < 16 }
    ensures { result ≡ start_of number entry }
{
    CoreState::start(NodeId::new(number).unwrap(), entry)
}
