//! The parts of a machine that goes on from a recovery point.
ghost use Rattle.std.specs.Prelude.{◌≡◌, ◌+◌, ◌<◌, ◌≤◌, [], ◌++◌, length, option_to_list, IfOk};
ghost use Rattle.rv_core.specs.Core.{bare};
ghost use Rattle.rv_core.specs.Flat.{HasStep, flat_step, next_by};
ghost use Rattle.rv_core.specs.Execution.{IsExecution, end_of, out_of};
ghost use Rattle.sn_saved.specs.Saved.{IsAccepted, given_to};
ghost use Rattle.sn_machine.specs.Resumed.{saved_by, of_interval_0, unit_resumed, units_resumed, HasContents, IsResumed};

use crate::hardware::Hardware;
use crate::input::Input;
use crate::processor::Processor;
use output_commit::OutBuffer;
use reg_ckpt::RegCheckpoints;
use rv_core::{CoreState, Record};
use sn_base::{BLOCKS, Block, BlockNo, Config, Image, Interval, Memory, NodeId};
use sn_fabric::Fabric;
use sn_flat::Flat;
use sn_history::History;
use sn_saved::Marks;
use std::alloc::Global;
use validation::Controller;

/// The content of each block, in order of their numbers.
fn contents_of(alloc: Global, flat: &Flat) -> Result<Vec<Block>, Memory>
    ensures { IfOk result (λ contents. HasContents flat.now.memory contents.items) }
{
    let mut contents = Vec::with_capacity(alloc, BLOCKS)?;
    'numbers: for number in 0..BLOCKS {
        contents.push(flat.block(BlockNo::new(number as u16)))?;
    }
    Ok(contents)
}

/// How many bytes were given to a node.
fn count_given(given: &[(NodeId, u8)], node: NodeId) -> usize
    ensures { result ≡ length (given_to given.now node) }
{
    let mut count = 0;
    'bytes: for place in 0..given.len() {
        if given[place].0 == node {
            count += 1;
        }
    }
    count
}

/// The bytes that were given to a node, with room for no more.
fn input_of(alloc: Global, given: &[(NodeId, u8)], node: NodeId) -> Result<Input, Memory>
    ensures { IfOk result (λ i. i ≡ record { given = given_to given.now node; room = 0 }) }
{
    let mut input = Input::new(alloc);
    input.reserve(count_given(given, node))?;
    'bytes: for place in 0..given.len() {
        let (receiver, byte) = given[place];
        if receiver == node {
            input.give(byte);
        }
    }
    Ok(input)
}

fn without_reservation(core: &CoreState) -> CoreState
    ensures { result ≡ bare core.now }
{
    let mut kept = *core;
    kept.reservation = None;
    kept
}

fn resumed_processor(
    alloc: Global,
    node: NodeId,
    flat: &Flat,
    given: &[(NodeId, u8)],
    point: Interval,
) -> Result<Processor, Memory>
    requires { node < length flat.now.cores }
    ensures { IfOk result (λ p. p ≡ unit_resumed flat.now given.now point node) }
{
    let checkpoints = RegCheckpoints::at(alloc, point, *flat.core(node))?;
    let input = input_of(alloc, given, node)?;
    Ok(Processor {
        core: without_reservation(flat.core(node)),
        checkpoints,
        input,
    })
}

fn resumed_processors(
    alloc: Global,
    nodes: u8,
    flat: &Flat,
    given: &[(NodeId, u8)],
    point: Interval,
) -> Result<Vec<Processor>, Memory>
    requires few { nodes ≤ 16 }
    requires cores { length flat.now.cores ≡ nodes }
    ensures { IfOk result (λ processors. processors.items ≡ units_resumed nodes flat.now given.now point) }
{
    let mut processors = Vec::with_capacity(alloc, usize::from(nodes))?;
    'nodes: for number in 0..nodes {
        let node = NodeId::new(number).unwrap();
        let processor = resumed_processor(alloc, node, flat, given, point)?;
        processors.push(processor)?;
    }
    Ok(processors)
}

/// The records as the committed trace: they retired in interval 0, and checkpoint 1 is validated.
fn resumed_history(alloc: Global, records: &[Record]) -> Result<History, Memory>
    requires { length records.now ≤ 1000000 }
    ensures { IfOk result (λ h. h ≡ record { pending = []; committed = records.now; room = 0 }) }
{
    let mut history = History::new(alloc);
    history.reserve(records.len())?;
    'records: for place in 0..records.len() {
        history.add(0, records[place]);
    }
    history.commit_below(1);
    Ok(history)
}

/// Does a record that is a step, and answers the byte that it puts out, if any.
fn replay_one(flat: &mut Flat, image: &Image, taken: &Record) -> Option<u8>
    requires { HasStep image.now flat.old taken.now }
    ensures out { result ≡ (next_by image.now flat.old taken.now).effect.out }
    ensures state { flat.new ≡ flat_step image.now flat.old taken.now }
{
    flat.step(image, taken).unwrap()
}

/// Holds the byte, if there is one.
fn hold_byte(output: &mut OutBuffer, byte: Option<u8>)
    requires { 0 < output.old.room }
    ensures held { output.new.held ≡ output.old.held ++ of_interval_0 (option_to_list byte) }
    ensures released { output.new.released ≡ output.old.released }
    ensures room { output.old.room ≤ output.new.room + 1 }
{
    if let Some(byte) = byte {
        output.put(0, byte);
    }
}

/// The bytes that the records put out, which are released.
fn resumed_output(
    alloc: Global,
    image: &Image,
    nodes: u8,
    records: &[Record],
) -> Result<OutBuffer, Memory>
    requires some { 1 ≤ nodes }
    requires few { nodes ≤ 16 }
    requires legal { IsExecution image.now nodes records.now }
    ensures { IfOk result (λ o. (o.held ≡ []) × (o.released ≡ out_of image.now nodes records.now)) }
{
    let mut flat = Flat::start(alloc, image, nodes)?;
    let mut output = OutBuffer::new(alloc);
    output.reserve(records.len())?;
    'records: for place in 0..records.len() {
        let byte = replay_one(&mut flat, image, &records[place]);
        hold_byte(&mut output, byte);
    }
    output.release_below(1);
    Ok(output)
}

impl Hardware {
    pub fn at_cut(
        alloc: Global,
        image: &Image,
        config: Config,
        flat: &Flat,
        records: &[Record],
        owners: &[(BlockNo, NodeId)],
        given: &[(NodeId, u8)],
        marks: Marks,
    ) -> Result<Hardware, Memory>
        requires accepted { IsAccepted image.now (saved_by config marks owners.now given.now records.now) }
        requires flat { flat.now ≡ end_of image.now config.nodes records.now }
        ensures { IfOk result (λ h. IsResumed h image.now (saved_by config marks owners.now given.now records.now)) }
    {
        let contents = contents_of(alloc, flat)?;
        let processors = resumed_processors(alloc, config.nodes, flat, given, marks.point)?;
        let history = resumed_history(alloc, records)?;
        let output = resumed_output(alloc, image, config.nodes, records)?;
        let fabric = Fabric::at_cut(
            alloc,
            image,
            config,
            contents.as_slice(),
            owners,
            marks.point,
            marks.next_id,
            marks.dead,
        )?;
        Ok(Hardware {
            fabric,
            processors,
            controller: Controller::at(config.nodes, marks.point),
            history,
            output,
            is_carried: false,
        })
    }
}
