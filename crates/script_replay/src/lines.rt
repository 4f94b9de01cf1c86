//! The lines of one event and of the end, written into a line.
ghost use Rattle.std.specs.Prelude.{◌≡◌, ◌+◌, ◌<◌, ◌≤◌, ◌++◌, take, length, slice_get, IfSome};
ghost use Rattle.due_events.specs.Machine.{flat_of};
ghost use Rattle.sn_probe.specs.Probes.{meters_in};
ghost use Rattle.script_replay.specs.Pieces.{core_lines, watch_lines, cut_lines, summary_of, tally_lines};
ghost use Rattle.script_replay.specs.Played.{group_now, since, IsAlone, IsWatchable};
ghost use Rattle.sn_text.specs.declared.line.TheConstants.{LINE_ROOM};

use due_events::sn_machine::Machine;
use sn_base::{Answer, Event, NodeId};
use sn_probe::ProbeSet;
use sn_text::Line;

// How many numbers of a probe the summary shows at most.
const PLACES: usize = 16;

// The lines of all cores at the recovery point.
fn write_cores(line: &mut Line, before: &str, machine: &Machine)
    requires room { length line.old + 7808 ≤ LINE_ROOM }
    requires before_short { length before.now ≤ 2 }
    ensures text { line.new ≡ line.old ++ core_lines before.now (flat_of machine.now) machine.now.config.nodes }
    ensures short { length line.new ≤ length line.old + 7808 }
{
    let view = machine.recovered();
    'cores: for number in 0..machine.config().nodes {
        let node = NodeId::new(number).unwrap();
        line.core(before, node, view.core(node));
    }
}

// The line of the watched word at the recovery point, where one is watched.
fn write_watch(line: &mut Line, before: &str, machine: &Machine, watch: Option<u32>)
    requires room { length line.old + 32 ≤ LINE_ROOM }
    requires before_short { length before.now ≤ 2 }
    requires watched { IsWatchable watch }
    ensures { line.new ≡ line.old ++ watch_lines before.now (flat_of machine.now) watch }
{
    if let Some(address) = watch {
        let view = machine.recovered();
        line.watch(before, address, view.word(address));
    }
}

// The lines of both.
fn write_cut(line: &mut Line, before: &str, machine: &Machine, watch: Option<u32>)
    requires room { length line.old + 7840 ≤ LINE_ROOM }
    requires before_short { length before.now ≤ 2 }
    requires watched { IsWatchable watch }
    ensures { line.new ≡ line.old ++ cut_lines before.now (flat_of machine.now) machine.now.config.nodes watch }
{
    write_cores(line, before, machine);
    write_watch(line, before, machine, watch);
}

/// The group of one event, which was the machine's last; so many were applied before those that are counted. A recovery sends
/// nothing, and the cut stands below it.
pub fn write_group(
    line: &mut Line,
    before: u32,
    event: &Event,
    answer: &Answer,
    machine: &Machine,
    watch: Option<u32>,
)
    requires alone { IsAlone answer.now machine.now.sent }
    requires counted { before ≤ machine.now.applied }
    requires watched { IsWatchable watch }
    ensures { line.new ≡ group_now (since before machine.now) watch event.now answer.now }
{
    line.clear();
    line.event(u64::from(machine.applied() - before), event, answer);
    match answer {
        Answer::Recovered(_) => write_cut(line, "  ", machine, watch),
        _ => line.all_sent(machine.sent()),
    }
}

/// What the summary says of so many events and of the machine, with `before` before each of its lines.
#[tactic(auto, unfolding(crate::specs::Pieces::summary_of))]
pub fn write_summary(
    line: &mut Line,
    before: &str,
    events: u64,
    machine: &Machine,
    watch: Option<u32>,
)
    requires before_short { length before.now ≤ 2 }
    requires watched { IsWatchable watch }
    ensures { line.new ≡ summary_of before.now machine.now.image machine.now.config watch events machine.now.state }
{
    let view = machine.recovered();
    line.clear();
    line.count(before, "events", events);
    line.count(before, "point", u64::from(view.point()));
    line.count(before, "committed", view.committed().len() as u64);
    line.count(before, "released", view.released().len() as u64);
    write_cut(line, before, machine, watch);
}

/// What the summary says of one probe, with `before` before each of its lines.
pub fn write_tally(line: &mut Line, before: &str, probes: &ProbeSet, probe: usize)
    requires before_short { length before.now ≤ 2 }
    requires there { probe < length probes.now.probes.items }
    ensures { IfSome (slice_get (meters_in first tally step probes.now.probes.items) probe) (λ m.
        line.new ≡ tally_lines before.now probe 0 (take 16 m.tally)) }
{
    line.clear();
    'places: for place in 0..PLACES {
        let Some(value) = probes.line(probe, place) else {
            return;
        };
        line.probe(before, probe as u64, place as u64, value);
    }
}
