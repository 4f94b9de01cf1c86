//! A recovery point is written, line by line.
ghost use Rattle.std.specs.Prelude.{◌≡◌, ℕ, ◌*◌, ◌<◌, ◌≤◌, false, map, flat_map, length, None, Ok, OnOk, OnErr};
ghost use Rattle.std.specs.List.{All};
ghost use Rattle.sn_base.specs.declared.event.Event.TheVariants.{Recover};
ghost use Rattle.sn_io.specs.Outside.{Rose, followed_by};
ghost use Rattle.sink_pieces.specs.Pieces.{HasBeginning};
ghost use Rattle.route_plan.specs.Distances.{is_dead};
ghost use Rattle.route_plan.specs.Routes.{first_cut_off};
ghost use Rattle.sn_model.specs.PointEvents.{living_switches};
ghost use Rattle.sn_text.specs.Written.{HasValues};
ghost use Rattle.sn_saved.specs.Resumed.{resumed};
ghost use Rattle.sn_saved.specs.Saved.{most_applied, given_from, owners_at, saved_of};
ghost use Rattle.sn_machine.specs.Machine.{next_of};
ghost use Rattle.save_text.specs.Reading.{said_by};
ghost use Rattle.save_text.specs.Text.{dead_line, dead_switches, owner_line, given_line, record_line, saved_text};
ghost use Rattle.sn_resume.specs.Saving.{IsSavable, Puts};

use crate::lines::{
    put_byte, put_config, put_end, put_first, put_marks, put_owner, put_record, put_switch,
};
use rv_core::Record;
use sn_base::{BLOCKS, BlockNo, NodeId};
use sn_io::{Failed, Sink};
use sn_machine::Machine;
use sn_text::Line;

/// The dead switches.
fn save_dead<R: Sink>(line: &mut Line, machine: &Machine, sink: &mut R) -> Result<(), Failed>
    requires { (k : ℕ) → 2 * machine.now.config.nodes ≤ k → is_dead machine.now.state.fabric.net.dead k ≡ false }
    ensures { Puts (R.written sink.old) (R.written sink.new) (R.faults sink.old) (R.faults sink.new)
        (flat_map dead_line (dead_switches machine.now.state.fabric.net.dead)) result }
{
    let count = 2 * machine.config().nodes;
    'switches: for number in 0..count {
        put_switch(line, machine, number, sink)?;
    }
    Ok(())
}

/// The blocks that caches own at the cut.
fn save_owners<R: Sink>(line: &mut Line, machine: &Machine, sink: &mut R) -> Result<(), Failed>
    ensures { Puts (R.written sink.old) (R.written sink.new) (R.faults sink.old) (R.faults sink.new)
        (flat_map owner_line (owners_at machine.now.state.fabric machine.now.state.fabric.point)) result }
{
    'memory: for number in 0..BLOCKS {
        put_owner(line, machine, BlockNo::new(number as u16), sink)?;
    }
    Ok(())
}

/// The bytes of a node, in order.
fn put_bytes<R: Sink>(
    line: &mut Line,
    node: NodeId,
    bytes: &[u8],
    sink: &mut R,
) -> Result<(), Failed>
    ensures put { Puts (R.written sink.old) (R.written sink.new) (R.faults sink.old) (R.faults sink.new)
        (flat_map given_line (map (λ byte. (node, byte)) bytes.now)) result }
    ensures numbers { OnOk result (All (λ byte. byte < 256) bytes.now) }
{
    'bytes: for byte in bytes {
        put_byte(line, node, *byte, sink)?;
    }
    Ok(())
}

/// The bytes that were given to the nodes.
fn save_given<R: Sink>(line: &mut Line, machine: &Machine, sink: &mut R) -> Result<(), Failed>
    requires { length machine.now.state.processors ≡ machine.now.config.nodes }
    ensures put { Puts (R.written sink.old) (R.written sink.new) (R.faults sink.old) (R.faults sink.new)
        (flat_map given_line (given_from 0 machine.now.state.processors)) result }
    ensures numbers { OnOk result (All (λ byte. byte.1 < 256) (given_from 0 machine.now.state.processors)) }
{
    'nodes: for number in 0..machine.config().nodes {
        let node = NodeId::numbered(number);
        put_bytes(line, node, machine.recovered().given(node), sink)?;
    }
    Ok(())
}

/// Records, in order.
fn put_records<R: Sink>(line: &mut Line, records: &[Record], sink: &mut R) -> Result<(), Failed>
    ensures put { Puts (R.written sink.old) (R.written sink.new) (R.faults sink.old) (R.faults sink.new)
        (flat_map record_line records.now) result }
    ensures values { OnOk result (All HasValues records.now) }
{
    'records: for taken in records {
        put_record(line, taken, sink)?;
    }
    Ok(())
}

/// The committed trace.
fn save_records<R: Sink>(line: &mut Line, machine: &Machine, sink: &mut R) -> Result<(), Failed>
    ensures put { Puts (R.written sink.old) (R.written sink.new) (R.faults sink.old) (R.faults sink.new)
        (flat_map record_line machine.now.state.committed) result }
    ensures values { OnOk result (All HasValues machine.now.state.committed) }
{
    put_records(line, machine.recovered().committed(), sink)
}

/// All lines.
fn put_all<R: Sink>(line: &mut Line, machine: &Machine, sink: &mut R) -> Result<(), Failed>
    requires marks { (k : ℕ) → 2 * machine.now.config.nodes ≤ k → is_dead machine.now.state.fabric.net.dead k ≡ false }
    requires processors { length machine.now.state.processors ≡ machine.now.config.nodes }
    ensures put { Puts (R.written sink.old) (R.written sink.new) (R.faults sink.old) (R.faults sink.new)
        (saved_text (saved_of machine.now.config machine.now.state machine.now.applied)) result }
    ensures numbers { OnOk result (All (λ byte. byte.1 < 256) (given_from 0 machine.now.state.processors)) }
    ensures values { OnOk result (All HasValues machine.now.state.committed) }
{
    put_first(line, sink)?;
    put_config(line, machine, sink)?;
    put_marks(line, machine, sink)?;
    save_dead(line, machine, sink)?;
    save_owners(line, machine, sink)?;
    save_given(line, machine, sink)?;
    save_records(line, machine, sink)?;
    put_end(line, sink)
}

/// Writes the recovery point of a machine, a line in one piece: its sizes and numbers, what is dead, what caches own at the cut,
/// the bytes given and the committed trace. What is pending isn't written. It takes no memory; where the sink fails, a beginning
/// of the text is put. What is written is read back as it is, and a machine that goes on from it is as this one would be after a
/// recovery, if no node is cut off.
pub fn save<R: Sink>(line: &mut Line, machine: &Machine, sink: &mut R) -> Result<(), Failed>
    requires { IsSavable machine.now.state }
    ensures whole { OnOk result (R.written sink.new
        ≡ followed_by (R.written sink.old) (saved_text (saved_of machine.now.config machine.now.state machine.now.applied))) }
    ensures part { OnErr result
        (HasBeginning (saved_text (saved_of machine.now.config machine.now.state machine.now.applied)) (R.written sink.old) (R.written sink.new)) }
    ensures later { R.faults sink.old ≤ R.faults sink.new }
    ensures cause { OnErr result (Rose (R.faults sink.old) (R.faults sink.new)) }
    ensures read_back { OnOk result (machine.now.applied ≤ most_applied → said_by
        (saved_text (saved_of machine.now.config machine.now.state machine.now.applied))
        ≡ Ok (saved_of machine.now.config machine.now.state machine.now.applied)) }
    ensures goes_on { first_cut_off (living_switches machine.now.state.fabric) ≡ None → (next_of machine.now Recover).state
        ≡ resumed machine.now.image (saved_of machine.now.config machine.now.state machine.now.applied) }
{
    // For the prover alone: what holds of a machine after a run.
    let _view = machine.recovered();
    put_all(line, machine, sink)
}
