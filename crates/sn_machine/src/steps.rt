//! A node's step: its core's next instruction.
ghost use Rattle.std.specs.Prelude.{◌≡◌, ◌<◌, ◌≤◌, ◌+◌, length, true, false, None, IfSome, IsNone};
ghost use Rattle.sn_base.specs.Blocks.{ram_start, ram_size};
ghost use Rattle.sn_base.specs.Image.{ImageData};
ghost use Rattle.rv_core.specs.Core.{block_of};
ghost use Rattle.rv_core.specs.Step.{want_of};
ghost use Rattle.sn_model.specs.Access.{step_of_access, word_found};
ghost use Rattle.sn_model.specs.Fabric.{node_at};
ghost use Rattle.sn_model.specs.Machine.{processor_at};
ghost use Rattle.sn_model.specs.Instructions.{step_of_retirement, step_of_instruction, machine_step_of, record_with, found_at, nothing_found, written_by};
ghost use Rattle.sn_model.specs.Instructions.{machine_step_refused};
ghost use Rattle.consistent_cuts.specs.Accesses.{CanRetire};
ghost use Rattle.sn_machine.specs.Parts.{state_of, IsWhole, HasRoom, Does, held_as};
ghost use Rattle.sn_machine.specs.Sound.{IsSound};
ghost use Rattle.sn_machine.specs.Turns.{MayGoOn, IsNext, ComesTo, IsAccess, IsConditional, IsInput, CanWriteAny, PutsOut};

use crate::hardware::Hardware;
use crate::processor::is_reserved;
use output_commit::OutBuffer;
use rv_core::{Cause, Record, Want};
use rv_decode::Instr;
use sn_base::{Answer, BlockNo, Image, Interval, NodeId, Write};
use sn_fabric::{Fabric, Need};

/// What a node's step comes to: its instruction retires with this record, it misses, or it is refused.
#[derive(Clone, Copy)]
pub enum NodeStep {
    Retires(Record),
    Misses(BlockNo, Need),
    Refused(Answer),
}

/// The record of an instruction that saw nothing from outside.
fn quiet(core: NodeId) -> Record
    ensures { result ≡ record_with core nothing_found }
{
    Record {
        core,
        seen: 0,
        sc_done: false,
        read: None,
    }
}

/// The block of an address of memory.
pub fn block_at(address: u32) -> BlockNo
    requires low { ram_start ≤ address }
    requires high { address < ram_start + ram_size }
    ensures { result ≡ block_of address }
{
    BlockNo::of(address).unwrap()
}

/// What an instruction writes, if anything, is in the fabric.
fn write(fabric: &mut Fabric, node: NodeId, written: Option<Write>)
    requires { CanWriteAny fabric.old.config fabric.old.fabric node written }
    ensures fabric { fabric.new.fabric ≡ written_by fabric.old.fabric node written }
    ensures sizes { fabric.new.config ≡ fabric.old.config }
{
    if let Some(write) = written {
        fabric.store(node, &write);
    }
}

/// The byte that an instruction puts out, if any, is held for its interval.
fn put_out(output: &mut OutBuffer, interval: Interval, out: Option<u8>)
    requires { 1 ≤ output.old.room }
    ensures { PutsOut output.old output.new interval out }
{
    if let Some(byte) = out {
        output.put(interval, byte);
    }
}

impl Hardware {
    /// A node's core does its next instruction, if what that wants is served.
    pub fn step(&mut self, image: &Image, node: NodeId) -> Answer
        requires whole { IsWhole self.old }
        requires sound { IsSound (state_of self.old) }
        requires here { node < length self.old.fabric.fabric.nodes }
        requires room { HasRoom 1 self.old }
        ensures { Does self.old self.new result (step_of_instruction image.now self.old.fabric.config (state_of self.old) node) }
    {
        if let Some(answer) = self.refusal(node) {
            self.is_carried = false;
            return answer;
        }
        let instruction = self.instruction(image, node);
        match self.look(image, node, instruction) {
            NodeStep::Retires(did) => self.retire(image, node, instruction, did),
            NodeStep::Misses(block, need) => self.miss(node, block, need),
            NodeStep::Refused(answer) => {
                self.is_carried = false;
                answer
            }
        }
    }

    /// The answer that `step` would give now.
    pub fn foresee_step(&self, image: &Image, node: NodeId) -> Answer
        requires whole { IsWhole self.now }
        requires sound { IsSound (state_of self.now) }
        requires here { node < length self.now.fabric.fabric.nodes }
        ensures { result ≡ (step_of_instruction image.now self.now.fabric.config (state_of self.now) node).answer }
    {
        if let Some(answer) = self.refusal(node) {
            return answer;
        }
        let instruction = self.instruction(image, node);
        match self.look(image, node, instruction) {
            NodeStep::Retires(_) => Answer::Retired,
            NodeStep::Misses(_, _) => Answer::Missed,
            NodeStep::Refused(answer) => answer,
        }
    }

    /// Why a node does no instruction now, whichever comes next: its core has ended, or it waits for a block.
    fn refusal(&self, node: NodeId) -> Option<Answer>
        requires whole { IsWhole self.now }
        requires here { node < length self.now.fabric.fabric.nodes }
        ensures some { IfSome result (λ answer. (image : ImageData) →
            step_of_instruction image self.now.fabric.config (state_of self.now) node ≡ machine_step_refused (state_of self.now) answer) }
        ensures none { IsNone result → MayGoOn (state_of self.now) node }
    {
        let core = &self.processors[usize::from(node.number())].core;
        if !core.is_running() {
            return Some(Answer::Ended);
        }
        if self.fabric.miss_open(node) {
            return Some(Answer::Waits);
        }
        None
    }

    /// A node's next instruction, or why there is none. A step fetches and decodes it here alone.
    fn instruction(&self, image: &Image, node: NodeId) -> Result<Instr, Cause>
        requires whole { IsWhole self.now }
        requires here { node < length self.now.fabric.fabric.nodes }
        ensures { IsNext image.now (state_of self.now) node result }
    {
        self.processors[usize::from(node.number())]
            .core
            .instruction(image)
    }

    /// What the step of a node that may go on comes to.
    fn look(&self, image: &Image, node: NodeId, instruction: Result<Instr, Cause>) -> NodeStep
        requires whole { IsWhole self.now }
        requires here { node < length self.now.fabric.fabric.nodes }
        requires may { MayGoOn (state_of self.now) node }
        requires next { IsNext image.now (state_of self.now) node instruction }
        ensures { ComesTo image.now self.now.fabric.config (state_of self.now) node
            (step_of_instruction image.now self.now.fabric.config (state_of self.now) node) result }
    {
        let core = &self.processors[usize::from(node.number())].core;
        match core.want_by(image, instruction) {
            Want::Nothing => NodeStep::Retires(quiet(node)),
            Want::Input => self.look_input(node),
            Want::Load(address) => self.look_load(node, address, Need::Read),
            Want::Lr(address) => self.look_load(node, address, Need::Read),
            Want::Store(address) => self.look_access(node, address, Need::Write),
            Want::Amo(address) => self.look_load(node, address, Need::Write),
            Want::Sc(address) => self.look_conditional(node, address),
        }
    }

    /// An access that an instruction wants: it is served, and then nothing is found yet; it misses; or it is refused.
    fn look_access(&self, node: NodeId, address: u32, need: Need) -> NodeStep
        requires here { node < length self.now.fabric.fabric.nodes }
        requires low { ram_start ≤ address }
        requires high { address < ram_start + ram_size }
        ensures { IsAccess self.now.fabric.config self.now.fabric.fabric node (block_of address) need nothing_found result }
    {
        let block = block_at(address);
        match self.fabric.foresee_access(node, block, need) {
            Answer::Retired => NodeStep::Retires(quiet(node)),
            Answer::Missed => NodeStep::Misses(block, need),
            answer => NodeStep::Refused(answer),
        }
    }

    /// The same of one that sees the word at its address.
    fn look_load(&self, node: NodeId, address: u32, need: Need) -> NodeStep
        requires here { node < length self.now.fabric.fabric.nodes }
        requires low { ram_start ≤ address }
        requires high { address < ram_start + ram_size }
        ensures { IsAccess self.now.fabric.config self.now.fabric.fabric node (block_of address) need
            (record nothing_found { seen = word_found self.now.fabric.fabric node address }) result }
    {
        match self.look_access(node, address, need) {
            NodeStep::Retires(quiet) => NodeStep::Retires(Record {
                seen: self.fabric.load(node, address),
                ..quiet
            }),
            turn => turn,
        }
    }

    /// A store-conditional, which is done where the core has reserved the block.
    fn look_conditional(&self, node: NodeId, address: u32) -> NodeStep
        requires here { node < length self.now.fabric.fabric.nodes }
        requires low { ram_start ≤ address }
        requires high { address < ram_start + ram_size }
        requires whole { IsWhole self.now }
        ensures { IsConditional self.now.fabric.config (state_of self.now) node address result }
    {
        let core = &self.processors[usize::from(node.number())].core;
        if !is_reserved(core, block_at(address)) {
            return NodeStep::Retires(quiet(node));
        }
        match self.look_access(node, address, Need::Write) {
            NodeStep::Retires(quiet) => NodeStep::Retires(Record {
                sc_done: true,
                ..quiet
            }),
            turn => turn,
        }
    }

    /// A byte of input, where one is left.
    fn look_input(&self, node: NodeId) -> NodeStep
        requires whole { IsWhole self.now }
        requires here { node < length self.now.fabric.fabric.nodes }
        ensures { IsInput (state_of self.now) node result }
    {
        let given = self.processors[usize::from(node.number())].input.given();
        let taken = self.history.taken(node) as usize;
        if taken >= given.len() {
            return NodeStep::Refused(Answer::NoInput);
        }
        NodeStep::Retires(Record {
            read: Some(given[taken]),
            ..quiet(node)
        })
    }

    /// A node's access misses: a request goes to the block's home.
    fn miss(&mut self, node: NodeId, block: BlockNo, need: Need) -> Answer
        requires whole { IsWhole self.old }
        requires sound { IsSound (state_of self.old) }
        requires here { node < length self.old.fabric.fabric.nodes }
        ensures { Does self.old self.new result
            (machine_step_of (state_of self.old) (step_of_access self.old.fabric.config self.old.fabric.fabric node block need)) }
    {
        self.is_carried = true;
        self.fabric.access(node, block, need)
    }

    /// A node's instruction is done, and its record and its byte wait for the validation of its interval.
    fn retire(
        &mut self,
        image: &Image,
        node: NodeId,
        instruction: Result<Instr, Cause>,
        did: Record,
    ) -> Answer
        requires whole { IsWhole self.old }
        requires can { CanRetire image.now self.old.fabric.config (state_of self.old) node }
        requires next { IsNext image.now (state_of self.old) node instruction }
        requires found { did ≡ record_with node (found_at image.now (state_of self.old) node) }
        requires room { HasRoom 1 self.old }
        ensures { Does self.old self.new result (step_of_retirement image.now (state_of self.old) node) }
    {
        let interval = self.fabric.now(node);
        let processor = &mut self.processors[usize::from(node.number())];
        let effect = processor
            .core
            .finish_by(image, instruction, did.seen, did.sc_done, did.read);
        write(&mut self.fabric, node, effect.write);
        put_out(&mut self.output, interval, effect.out);
        self.history.add(interval, did);
        self.is_carried = false;
        Answer::Retired
    }
}
