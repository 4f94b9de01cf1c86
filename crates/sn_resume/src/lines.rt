//! Lines of a save file, each put in one piece.
ghost use Rattle.std.specs.Prelude.{◌≡◌, ◌*◌, ◌<◌, [], length, IfSome, flat_map};
ghost use Rattle.sn_model.specs.Cuts.{names_at};
ghost use Rattle.sn_text.specs.Written.{HasValues};
ghost use Rattle.sn_saved.specs.Saved.{owner_named};
ghost use Rattle.save_text.specs.Text.{head_line, config_line, marks_line, owner_line, given_line, record_line, end_line};
ghost use Rattle.sn_resume.specs.Saving.{Puts, switch_lines};

use rv_core::Record;
use save_text::{
    write_config, write_dead, write_end, write_given, write_head, write_marks, write_owner,
    write_record,
};
use sn_base::{BlockNo, NodeId, SwitchId};
use sn_io::{Failed, Sink};
use sn_machine::{Machine, Owner};
use sn_text::Line;

/// Puts what stands in the line.
fn put<R: Sink>(line: &Line, sink: &mut R) -> Result<(), Failed>
    ensures { Puts (R.written sink.old) (R.written sink.new) (R.faults sink.old) (R.faults sink.new) line.now result }
{
    sink.put(line.bytes())
}

/// The first line.
pub fn put_first<R: Sink>(line: &mut Line, sink: &mut R) -> Result<(), Failed>
    ensures { Puts (R.written sink.old) (R.written sink.new) (R.faults sink.old) (R.faults sink.new) head_line result }
{
    line.clear();
    write_head(line);
    put(line, sink)
}

/// The line of the sizes.
pub fn put_config<R: Sink>(line: &mut Line, machine: &Machine, sink: &mut R) -> Result<(), Failed>
    ensures { Puts (R.written sink.old) (R.written sink.new) (R.faults sink.old) (R.faults sink.new)
        (config_line machine.now.config) result }
{
    line.clear();
    write_config(line, machine.config());
    put(line, sink)
}

/// The line of the numbers.
pub fn put_marks<R: Sink>(line: &mut Line, machine: &Machine, sink: &mut R) -> Result<(), Failed>
    ensures { Puts (R.written sink.old) (R.written sink.new) (R.faults sink.old) (R.faults sink.new)
        (marks_line machine.now.state.fabric.point machine.now.state.fabric.net.next_id machine.now.applied) result }
{
    let point = machine.recovered().point();
    let next_id = machine.net().next_id();
    line.clear();
    write_marks(line, point, next_id, machine.applied());
    put(line, sink)
}

/// The switch of a number.
fn switch_of(number: u8) -> SwitchId
    requires { number < 32 }
    ensures { result ≡ number }
{
    let node = NodeId::numbered(number / 2);
    if number % 2 == 0 {
        SwitchId::a(node)
    } else {
        SwitchId::b(node)
    }
}

/// The line of the switch of a number, if it is dead.
pub fn put_switch<R: Sink>(
    line: &mut Line,
    machine: &Machine,
    number: u8,
    sink: &mut R,
) -> Result<(), Failed>
    requires { number < 2 * machine.now.config.nodes }
    ensures { Puts (R.written sink.old) (R.written sink.new) (R.faults sink.old) (R.faults sink.new)
        (switch_lines machine.now.state.fabric.net.dead number) result }
{
    // The prover learns here that there are 16 nodes at most.
    let _sizes = machine.config();
    let switch = switch_of(number);
    if !machine.is_dead(switch) {
        return Ok(());
    }
    line.clear();
    write_dead(line, switch);
    put(line, sink)
}

/// The line of a block, if a cache owns it at the cut.
pub fn put_owner<R: Sink>(
    line: &mut Line,
    machine: &Machine,
    block: BlockNo,
    sink: &mut R,
) -> Result<(), Failed>
    ensures { Puts (R.written sink.old) (R.written sink.new) (R.faults sink.old) (R.faults sink.new)
        (flat_map owner_line (owner_named block (names_at machine.now.state.fabric block machine.now.state.fabric.point))) result }
{
    match machine.recovered().owner(block) {
        Owner::Home => Ok(()),
        Owner::Cache(node) => {
            line.clear();
            write_owner(line, block, node);
            put(line, sink)
        }
    }
}

/// The line of a byte.
pub fn put_byte<R: Sink>(
    line: &mut Line,
    node: NodeId,
    byte: u8,
    sink: &mut R,
) -> Result<(), Failed>
    ensures put { Puts (R.written sink.old) (R.written sink.new) (R.faults sink.old) (R.faults sink.new) (given_line (node, byte)) result }
    ensures number { byte < 256 }
{
    line.clear();
    write_given(line, node, byte);
    put(line, sink)
}

// What a type says of a byte, for the prover alone.
fn note_byte(read: Option<u8>)
    ensures { IfSome read (λ byte. byte < 256) }
{
    if let Some(_byte) = read {}
}

// And of a record's fields.
fn note_values(taken: &Record)
    ensures { HasValues taken.now }
{
    let _seen = taken.seen;
    note_byte(taken.read);
}

/// The line of a record.
pub fn put_record<R: Sink>(line: &mut Line, taken: &Record, sink: &mut R) -> Result<(), Failed>
    ensures put { Puts (R.written sink.old) (R.written sink.new) (R.faults sink.old) (R.faults sink.new) (record_line taken.now) result }
    ensures values { HasValues taken.now }
{
    note_values(taken);
    line.clear();
    write_record(line, taken);
    put(line, sink)
}

/// The last line.
pub fn put_end<R: Sink>(line: &mut Line, sink: &mut R) -> Result<(), Failed>
    ensures { Puts (R.written sink.old) (R.written sink.new) (R.faults sink.old) (R.faults sink.new) end_line result }
{
    line.clear();
    write_end(line);
    put(line, sink)
}
