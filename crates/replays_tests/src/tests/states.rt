//! A small replay whose lines are known: each stands here as the definitions have it.
ghost use Rattle.std.specs.Prelude.{IfOk};
ghost use Rattle.shown_states.specs.Shown.{MayBegin};

use elf_load::load;
use option_values::Places;
use script_replay::Script;
use shown_states::{StatesFault, StatesReplay, replay_states};
use sn_base::{Config, Event, Memory, NodeId};
use sn_io::MemSink;
use sn_probe::ProbeSet;
use std::alloc::Global;
use std::process::Abort;
use std::test::Fail;

/// The core adds 1 to the word at 0x80001000.
const ADDS: &str = "800012b7\n00100313\n0062a3af\n05d00893\n00000073\n";

/// The start, each event and the summary. The validation is refused, and the recovery drops the report on its way.
const ALL: &str = "\
{\"form\":\"safetynet states 1\",\"nodes\":1,\"sets\":16,\"ways\":4,\"log\":256,\"entry\":\"80000000\",\"events\":0,\"state\":{\"nodes\":[{\"node\":0,\"now\":0,\"known\":0,\"core\":{\"pc\":\"80000000\",\"end\":\"running\",\"registers\":{},\"reservation\":null},\"lines\":[],\"miss\":null,\"put\":null,\"log\":[],\"given\":\"\",\"taken\":0,\"waiting\":[]}],\"homes\":[],\"net\":{\"messages\":[],\"dead\":[],\"next\":\"1\"},\"controller\":{\"point\":0,\"reported\":[0],\"committed\":0,\"held\":[],\"released\":0}}}\n\
{\"place\":1,\"event\":\"step 0\",\"answer\":\"retired\",\"step\":{\"pc\":\"80000000\",\"instruction\":\"lui x5, 524289\",\"did\":{\"seen\":\"00000000\",\"done\":false,\"read\":null,\"wrote\":null,\"out\":null}},\"sent\":[],\"parts\":{\"nodes\":[{\"node\":0,\"now\":0,\"known\":0,\"core\":{\"pc\":\"80000004\",\"end\":\"running\",\"registers\":{\"x5\":\"80001000\"},\"reservation\":null},\"lines\":[],\"miss\":null,\"put\":null,\"log\":[],\"given\":\"\",\"taken\":0,\"waiting\":[{\"interval\":0,\"seen\":\"00000000\",\"done\":false,\"read\":null}]}],\"homes\":[],\"net\":null,\"controller\":{\"point\":0,\"reported\":[0],\"committed\":0,\"held\":[],\"released\":0}}}\n\
{\"place\":2,\"event\":\"validate\",\"answer\":\"notready 0\",\"unready\":[{\"node\":0,\"now\":0,\"reported\":0,\"miss\":null,\"put\":null,\"transactions\":[]}],\"sent\":[],\"parts\":{\"nodes\":[],\"homes\":[],\"net\":null,\"controller\":null}}\n\
{\"place\":3,\"event\":\"edge 0\",\"answer\":\"edged 1\",\"sent\":[],\"parts\":{\"nodes\":[{\"node\":0,\"now\":1,\"known\":0,\"core\":{\"pc\":\"80000004\",\"end\":\"running\",\"registers\":{\"x5\":\"80001000\"},\"reservation\":null},\"lines\":[],\"miss\":null,\"put\":null,\"log\":[],\"given\":\"\",\"taken\":0,\"waiting\":[{\"interval\":0,\"seen\":\"00000000\",\"done\":false,\"read\":null}]}],\"homes\":[],\"net\":null,\"controller\":null}}\n\
{\"place\":4,\"event\":\"report 0\",\"answer\":\"reported 1\",\"unready\":[],\"sent\":[{\"message\":{\"id\":\"1\",\"kind\":\"ready\",\"from\":0,\"to\":0,\"tag\":1,\"checkpoint\":1},\"lost\":false}],\"parts\":{\"nodes\":[],\"homes\":[],\"net\":{\"messages\":[{\"message\":{\"id\":\"1\",\"kind\":\"ready\",\"from\":0,\"to\":0,\"tag\":1,\"checkpoint\":1},\"switch\":\"a0\"}],\"dead\":[],\"next\":\"2\"},\"controller\":null}}\n\
{\"place\":5,\"event\":\"recover\",\"answer\":\"recovered 0 undone 0 dropped 1\",\"recovery\":{\"undone\":[],\"dropped\":[{\"message\":{\"id\":\"1\",\"kind\":\"ready\",\"from\":0,\"to\":0,\"tag\":1,\"checkpoint\":1},\"switch\":\"a0\"}],\"taken_back\":[1]},\"sent\":[],\"state\":{\"nodes\":[{\"node\":0,\"now\":0,\"known\":0,\"core\":{\"pc\":\"80000000\",\"end\":\"running\",\"registers\":{},\"reservation\":null},\"lines\":[],\"miss\":null,\"put\":null,\"log\":[],\"given\":\"\",\"taken\":0,\"waiting\":[]}],\"homes\":[],\"net\":{\"messages\":[],\"dead\":[],\"next\":\"2\"},\"controller\":{\"point\":0,\"reported\":[0],\"committed\":0,\"held\":[],\"released\":0}}}\n\
{\"summary\":{\"events\":5,\"point\":0,\"committed\":0,\"released\":0,\"cores\":[{\"pc\":\"80000000\",\"end\":\"running\",\"registers\":{},\"reservation\":null}],\"watch\":{\"address\":\"80001000\",\"word\":\"00000000\"},\"probes\":[]}}\n\
";

/// The start alone.
const START: &str = "\
{\"form\":\"safetynet states 1\",\"nodes\":1,\"sets\":16,\"ways\":4,\"log\":256,\"entry\":\"80000000\",\"events\":0,\"state\":{\"nodes\":[{\"node\":0,\"now\":0,\"known\":0,\"core\":{\"pc\":\"80000000\",\"end\":\"running\",\"registers\":{},\"reservation\":null},\"lines\":[],\"miss\":null,\"put\":null,\"log\":[],\"given\":\"\",\"taken\":0,\"waiting\":[]}],\"homes\":[],\"net\":{\"messages\":[],\"dead\":[],\"next\":\"1\"},\"controller\":{\"point\":0,\"reported\":[0],\"committed\":0,\"held\":[],\"released\":0}}}\n\
";

/// The state before the recovery, its line and the summary.
const RECOVERY_ALONE: &str = "\
{\"form\":\"safetynet states 1\",\"nodes\":1,\"sets\":16,\"ways\":4,\"log\":256,\"entry\":\"80000000\",\"events\":4,\"state\":{\"nodes\":[{\"node\":0,\"now\":1,\"known\":0,\"core\":{\"pc\":\"80000004\",\"end\":\"running\",\"registers\":{\"x5\":\"80001000\"},\"reservation\":null},\"lines\":[],\"miss\":null,\"put\":null,\"log\":[],\"given\":\"\",\"taken\":0,\"waiting\":[{\"interval\":0,\"seen\":\"00000000\",\"done\":false,\"read\":null}]}],\"homes\":[],\"net\":{\"messages\":[{\"message\":{\"id\":\"1\",\"kind\":\"ready\",\"from\":0,\"to\":0,\"tag\":1,\"checkpoint\":1},\"switch\":\"a0\"}],\"dead\":[],\"next\":\"2\"},\"controller\":{\"point\":0,\"reported\":[0],\"committed\":0,\"held\":[],\"released\":0}}}\n\
{\"place\":5,\"event\":\"recover\",\"answer\":\"recovered 0 undone 0 dropped 1\",\"recovery\":{\"undone\":[],\"dropped\":[{\"message\":{\"id\":\"1\",\"kind\":\"ready\",\"from\":0,\"to\":0,\"tag\":1,\"checkpoint\":1},\"switch\":\"a0\"}],\"taken_back\":[1]},\"sent\":[],\"state\":{\"nodes\":[{\"node\":0,\"now\":0,\"known\":0,\"core\":{\"pc\":\"80000000\",\"end\":\"running\",\"registers\":{},\"reservation\":null},\"lines\":[],\"miss\":null,\"put\":null,\"log\":[],\"given\":\"\",\"taken\":0,\"waiting\":[]}],\"homes\":[],\"net\":{\"messages\":[],\"dead\":[],\"next\":\"2\"},\"controller\":{\"point\":0,\"reported\":[0],\"committed\":0,\"held\":[],\"released\":0}}}\n\
{\"summary\":{\"events\":5,\"point\":0,\"committed\":0,\"released\":0,\"cores\":[{\"pc\":\"80000000\",\"end\":\"running\",\"registers\":{},\"reservation\":null}],\"watch\":{\"address\":\"80001000\",\"word\":\"00000000\"},\"probes\":[]}}\n\
";

/// A step, a validation that is refused, and a recovery while a report is on its way, of which these are shown.
fn recovers(rt: &impl Abort, alloc: Global, only: Option<Places>) -> Result<StatesReplay, Fail>
    ensures { IfOk result (λ r. MayBegin r) }
{
    let config = Config {
        nodes: 1,
        sets: 16,
        ways: 4,
        log: 256,
    };
    assert!(rt; config.fits());
    let node = NodeId::numbered(0);
    let mut events = Vec::new(alloc);
    events.push(Event::Step(node))?;
    events.push(Event::Validate)?;
    events.push(Event::Edge(node))?;
    events.push(Event::Report(node))?;
    events.push(Event::Recover)?;
    Ok(StatesReplay {
        program: load(alloc, ADDS.as_bytes())?,
        config,
        watch: Some(0x8000_1000),
        only,
        script: Script::new(events),
    })
}

/// Whether the replay is done, with the memory that it wants; the sink then has its report.
fn is_shown(
    rt: &impl Abort,
    alloc: Global,
    only: Option<Places>,
    report: &mut MemSink,
) -> Result<bool, Fail> {
    let job = recovers(rt, alloc, only)?;
    let mut console = MemSink::with_room(alloc, 8)?;
    let mut probes = ProbeSet::new(Vec::new(alloc));
    match replay_states(alloc, job, &mut probes, &mut console, report) {
        Ok(()) => Ok(true),
        Err(StatesFault::Sink) => Ok(false),
        Err(StatesFault::Memory) => Err(Fail::from(Memory)),
    }
}

/// Replays it where the report fails at this call, or at none: whether it is done, and what the report has then.
fn comes_to(
    rt: &impl Abort,
    alloc: Global,
    only: Option<Places>,
    failing: u64,
    done: bool,
    wanted: &str,
) -> Result<(), Fail> {
    let mut report = MemSink::with_room(alloc, 10_000)?;
    report.fail_call(failing)?;
    let whole = is_shown(rt, alloc, only, &mut report)?;
    assert!(rt; whole == done && report.bytes() == wanted.as_bytes());
    Ok(())
}

#[test]
fn each_event_has_its_line_between_the_first_and_the_summary(rt: HostRuntime) -> Result<(), Fail> {
    comes_to(&rt, rt.alloc(), None, 0, true, ALL)
}

#[test]
fn some_events_alone_follow_the_state_before_them(rt: HostRuntime) -> Result<(), Fail> {
    let only = Some(Places { from: 5, to: 5 });
    comes_to(&rt, rt.alloc(), only, 0, true, RECOVERY_ALONE)
}

#[test]
fn a_report_that_breaks_has_the_lines_before(rt: HostRuntime) -> Result<(), Fail> {
    comes_to(&rt, rt.alloc(), None, 2, false, START)
}

#[test]
fn a_report_that_breaks_at_once_has_nothing(rt: HostRuntime) -> Result<(), Fail> {
    comes_to(&rt, rt.alloc(), None, 1, false, "")
}
