//! Statistics put to the report.
ghost use Rattle.std.specs.Prelude.{◌≡◌, ℕ, List, [], ◌∷◌, ◌≤◌, ◌++◌, true, Option, length, All, IfOk, OnOk, Err};
ghost use Rattle.sn_base.specs.Config.{config_fits};
ghost use Rattle.sn_base.specs.Events.{event_fits};
ghost use Rattle.sn_io.specs.Outside.{Rose};
ghost use Rattle.sn_base.specs.declared.limits.TheConstants.{EVENTS};
ghost use Rattle.sink_pieces.specs.Pieces.{Report, ends, after, Breaks};
ghost use Rattle.run_statistics.specs.Statistics.{statistics_of};
ghost use Rattle.run_statistics.specs.Lines.{answer_lines, message_lines, wait_lines, recovered_lines, node_lines, recovery_lines, statistics_lines};

use crate::count::Count;
use crate::counting::statistics_of_run;
use crate::lines::{
    write_answer_lines, write_message_lines, write_node_lines, write_recovered_lines,
    write_recovery, write_wait_lines,
};
use crate::recoveries::Recovery;
use crate::statistics::Statistics;
use sink_pieces::put_report;
use sn_base::{Config, Event, Image, Memory, NodeId};
use sn_io::Sink;
use sn_text::Line;
use std::alloc::Global;

/// Why statistics weren't put.
#[derive(Clone, Copy)]
pub enum StatisticsFault {
    /// The report took less than the whole of them.
    Sink,
    /// Memory was wanted and not given. Nothing is put.
    Memory,
}

/// The lines of the first nodes.
#[tactic(auto, unfolding(crate::specs::Lines::node_lines))]
fn add_nodes(text: &mut Vec<u8>, line: &mut Line, x: &Statistics, nodes: u8) -> Result<(), Memory>
    requires few { nodes ≤ 16 }
    ensures { OnOk result (text.new.items ≡ text.old.items ++ node_lines x.now nodes) }
{
    'nodes: for number in 0..nodes {
        write_node_lines(line, x, NodeId::numbered(number));
        text.extend_from_slice(line.bytes())?;
    }
    Ok(())
}

/// The lines of recoveries.
#[tactic(auto, unfolding(crate::specs::Lines::recovery_lines))]
fn add_recoveries(
    text: &mut Vec<u8>,
    line: &mut Line,
    recoveries: &[Recovery],
) -> Result<(), Memory>
    ensures { OnOk result (text.new.items ≡ text.old.items ++ recovery_lines 1 recoveries.now) }
{
    let mut number = 1u64;
    'recoveries: for recovery in recoveries {
        write_recovery(line, number, recovery);
        text.extend_from_slice(line.bytes())?;
        number += 1;
    }
    Ok(())
}

/// The lines of the machine.
fn add_machine(text: &mut Vec<u8>, line: &mut Line, x: &Statistics) -> Result<(), Memory>
    ensures { OnOk result (text.new.items ≡ text.old.items ++ (answer_lines x.now ++ message_lines x.now.messages
        ++ wait_lines x.now ++ recovered_lines x.now.recoveries)) }
{
    write_answer_lines(line, x);
    text.extend_from_slice(line.bytes())?;
    write_message_lines(line, &x.messages);
    text.extend_from_slice(line.bytes())?;
    write_wait_lines(line, x);
    text.extend_from_slice(line.bytes())?;
    write_recovered_lines(line, &x.recoveries);
    text.extend_from_slice(line.bytes())?;
    Ok(())
}

/// All lines of a run on so many nodes.
#[tactic(auto, unfolding(crate::specs::Lines::statistics_lines))]
fn text_of(alloc: Global, x: &Statistics, nodes: u8) -> Result<Vec<u8>, Memory>
    requires few { nodes ≤ 16 }
    ensures { IfOk result (λ text. text.items ≡ statistics_lines nodes x.now) }
{
    let mut text = Vec::new(alloc);
    let mut line = Line::new(alloc)?;
    add_machine(&mut text, &mut line, x)?;
    add_nodes(&mut text, &mut line, x, nodes)?;
    add_recoveries(&mut text, &mut line, x.recoveries.all.all())?;
    Ok(text)
}

impl Count {
    /// The lines of what it counted. An error is want of memory, now or while it counted.
    pub fn text(&self, alloc: Global, nodes: u8) -> Result<Vec<u8>, Memory>
        requires few { nodes ≤ 16 }
        ensures on { OnOk result (self.now.on ≡ true) }
        ensures lines { IfOk result (λ text. text.items ≡ statistics_lines nodes self.now.statistics) }
    {
        if !self.on {
            return Err(Memory);
        }
        text_of(alloc, &self.statistics, nodes)
    }
}

/// The lines of the statistics of a run, for whoever puts them later: no memory is wanted then. The run is counted anew. An error is
/// want of memory.
pub fn statistics_text(
    alloc: Global,
    program: &Image,
    config: Config,
    events: &[Event],
) -> Result<Vec<u8>, Memory>
    requires sizes { config_fits config ≡ true }
    requires fit { All (λ event. event_fits config.nodes event ≡ true) events.now }
    requires few { length events.now ≤ EVENTS }
    ensures { IfOk result (λ text. text.items ≡ statistics_lines config.nodes (statistics_of program.now config events.now)) }
{
    let nodes = config.nodes;
    let statistics = statistics_of_run(alloc, program, config, events)?;
    let text = text_of(alloc, &statistics, nodes);
    drop(statistics);
    text
}

/// Counts a run anew, and puts its statistics to the report in one piece.
pub fn put_statistics<R: Sink>(
    alloc: Global,
    program: &Image,
    config: Config,
    events: &[Event],
    report: &mut R,
) -> Result<(), StatisticsFault>
    requires sizes { config_fits config ≡ true }
    requires fit { All (λ event. event_fits config.nodes event ≡ true) events.now }
    requires few { length events.now ≤ EVENTS }

    // The report has the lines of the run's statistics.
    ensures ok { OnOk result ((c : Option (List ℕ)) → ends c (R.written report.new) ≡ after (ends c (R.written report.old))
        (Report (statistics_lines config.nodes (statistics_of program.now config events.now)) ∷ [])) }

    // It took a beginning of them.
    ensures sink { result ≡ Err StatisticsFault.Sink → (c : Option (List ℕ)) →
        Breaks (Report (statistics_lines config.nodes (statistics_of program.now config events.now)) ∷ [])
        (ends c (R.written report.old)) (ends c (R.written report.new)) }

    // Memory was lacking, and nothing is put.
    ensures memory { result ≡ Err StatisticsFault.Memory → report.new ≡ report.old }
    ensures later { R.faults report.old ≤ R.faults report.new }
    ensures cause { result ≡ Err StatisticsFault.Sink → Rose (R.faults report.old) (R.faults report.new) }
{
    let Ok(text) = statistics_text(alloc, program, config, events) else {
        return Err(StatisticsFault::Memory);
    };
    match put_report(report, text.as_slice()) {
        Ok(()) => Ok(()),
        Err(_) => Err(StatisticsFault::Sink),
    }
}
