//! One call, and what it leaves.
ghost use Rattle.std.specs.Prelude.{◌≢◌, IfOk};

use crate::given::{Given, SAVED};
use call_status::Status;
use safetynet_main::safetynet;
use sn_base::Memory;
use sn_io::{MemSink, MemStore, OpenGate};
use sn_probe::Probe;
use std::alloc::Global;
use std::sync::Wait;
use std::thread::Threads;

/// What a call left that had the memory that it wants.
#[derive(Drop)]
pub struct Left {
    pub status: Status,
    pub console: MemSink,
    pub report: MemSink,
}

pub type Probes = Vec<Box<dyn Probe + Send>>;

fn words_in(alloc: Global, text: &str) -> Result<Vec<String>, Memory> {
    let mut words = Vec::new(alloc);
    for word in text.split_whitespace() {
        words.push(String::from_str(alloc, word)?)?;
    }
    Ok(words)
}

fn store_of(alloc: Global, given: &Given<'_>) -> Result<MemStore, Memory> {
    let mut store = MemStore::new(alloc);
    store.add("a.hex", given.program)?;
    store.add("a.script", given.script)?;
    store.add("a.save", SAVED.as_bytes())?;
    store.fail_call(given.faults.store)?;
    Ok(store)
}

/// A sink for 2,000 bytes.
fn sink_that_fails(alloc: Global, call: u64) -> Result<MemSink, Memory> {
    let mut sink = MemSink::with_room(alloc, 2000)?;
    sink.fail_call(call)?;
    Ok(sink)
}

/// A call that is handed these probes.
pub fn call_with<T: Threads + Wait + Sync>(
    rt: &T,
    alloc: Global,
    given: &Given<'_>,
    probes: Probes,
) -> Result<Left, Memory>
    ensures { IfOk result (λ left. left.status ≢ Status.Memory) }
{
    let words = words_in(alloc, given.words)?;
    let mut store = store_of(alloc, given)?;
    let mut console = sink_that_fails(alloc, given.faults.console)?;
    let mut report = sink_that_fails(alloc, given.faults.report)?;
    let status = safetynet(
        rt,
        alloc,
        words.as_slice(),
        &mut store,
        &mut console,
        &mut report,
        probes,
        &OpenGate::new(),
    );
    if status == Status::Memory {
        return Err(Memory);
    }
    Ok(Left {
        status,
        console,
        report,
    })
}

/// A call that is handed no probe.
pub fn call<T: Threads + Wait + Sync>(
    rt: &T,
    alloc: Global,
    given: &Given<'_>,
) -> Result<Left, Memory>
    ensures { IfOk result (λ left. left.status ≢ Status.Memory) }
{
    call_with(rt, alloc, given, Vec::new(alloc))
}
