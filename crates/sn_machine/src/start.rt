//! The parts at a program's start, and the room that they take beforehand.
ghost use Rattle.std.specs.Prelude.{◌≡◌, ℕ, ◌<◌, ◌≤◌, true, length, IfOk, OnOk};
ghost use Rattle.sn_base.specs.Config.{config_fits};
ghost use Rattle.sn_machine.specs.Parts.{unit_at, HasRoom};
ghost use Rattle.sn_machine.specs.Start.{first_unit, units_below, IsFirst, AreRoomier, IsRoomier};

use crate::hardware::Hardware;
use crate::input::Input;
use crate::processor::Processor;
use output_commit::OutBuffer;
use reg_ckpt::RegCheckpoints;
use rv_core::CoreState;
use sn_base::{Config, Image, Memory, NodeId};
use sn_fabric::Fabric;
use sn_history::History;
use std::alloc::Global;
use validation::Controller;

fn first_processor(alloc: Global, node: NodeId, entry: u32) -> Result<Processor, Memory>
    ensures { IfOk result (λ p. p ≡ first_unit entry node) }
{
    let checkpoints = RegCheckpoints::new(alloc, CoreState::start(node, entry))?;
    let input = Input::new(alloc);
    Ok(Processor {
        core: CoreState::start(node, entry),
        checkpoints,
        input,
    })
}

fn first_processors(alloc: Global, nodes: u8, entry: u32) -> Result<Vec<Processor>, Memory>
    requires few { nodes ≤ 16 }
    ensures { IfOk result (λ processors. processors.items ≡ units_below nodes entry) }
{
    let mut processors = Vec::with_capacity(alloc, usize::from(nodes))?;
    'nodes: for number in 0..nodes {
        let node = NodeId::new(number).unwrap();
        let processor = first_processor(alloc, node, entry)?;
        processors.push(processor)?;
    }
    Ok(processors)
}

/// Each processor has the room for so many bytes more.
fn reserve_inputs(processors: &mut Vec<Processor>, bytes: usize) -> Result<(), Memory>
    ensures same { AreRoomier processors.old.items processors.new.items }
    ensures ok { OnOk result ((n : ℕ) → n < length processors.new.items → bytes ≤ (unit_at processors.new.items n).input.room) }
{
    let count = processors.len();
    'processors: for place in 0..count {
        let processor = &mut processors[place];
        processor.input.reserve(bytes)?;
    }
    Ok(())
}

impl Hardware {
    pub fn new(alloc: Global, image: &Image, config: Config) -> Result<Hardware, Memory>
        requires { config_fits config ≡ true }
        ensures { IfOk result (λ h. IsFirst h image.now config) }
    {
        let fabric = Fabric::new(alloc, image, config)?;
        let processors = first_processors(alloc, config.nodes, image.entry())?;
        Ok(Hardware {
            fabric,
            processors,
            controller: Controller::new(config.nodes),
            history: History::new(alloc),
            output: OutBuffer::new(alloc),
            is_carried: false,
        })
    }

    /// Makes room for so many more events.
    pub fn reserve(&mut self, events: u32) -> Result<(), Memory>
        ensures same { IsRoomier self.old self.new }
        ensures ok { OnOk result (HasRoom events self.new) }
    {
        self.history.reserve(events as usize)?;
        self.output.reserve(events as usize)?;
        reserve_inputs(&mut self.processors, events as usize)
    }
}
