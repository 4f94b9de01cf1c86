//! A run of node threads.
ghost use Rattle.std.specs.Prelude.{◌≡◌, ℕ, ◌+◌, ◌<◌, ◌≤◌, List, [], length, Option, IfOk, OnErr};
ghost use Rattle.sn_probe.specs.Probes.{meters_in};
ghost use Rattle.sn_console.specs.declared.ends.Outbox.{Outbox};
ghost use Rattle.sn_console.specs.Ends.{bytes_passed, bytes_taken, AreEnds, SameInbox};
ghost use Rattle.shared_machine.specs.Shared.{begins_with};
ghost use Rattle.node_threads.specs.Finishes.{IsRunOf, Ends, Put};
ghost use Rattle.node_threads.specs.Told.{told_all};

use crate::bell::Bell;
use crate::closing::{close, finish_after, put_rest};
use crate::finished::Finished;
use crate::pump::pump;
use crate::slots::{Slot, gather, make_slots, work};
use crate::telling::tell;
use crate::turnstile::Turnstile;
use shared_machine::{Ended, Locked, RunName, SharedMachine};
use sn_base::Memory;
use sn_console::{Failed, Inbox, Outbox, outbox};
use sn_io::{Gate, Sink};
use sn_probe::ProbeSet;
use std::alloc::Global;
use std::marker::Brand;
use std::sync::ledger::{Blank, Share};
use std::sync::{Mutex, Wait};
use std::thread;
use std::thread::{Threads, join_mut};

/// How many bytes wait for the console at most.
const ROOM: usize = 4096;

/// The workers' turns, and the console's worker beside them.
fn turns<L: RunName + Send + Sync, T: Threads + Wait + Sync, C: Sink + Send, G: Gate + Sync>(
    rt: &T,
    lock: &Mutex<Locked<L>>,
    slots: &mut [Slot<L>],
    inbox: &mut Inbox,
    console: &mut C,
    gate: &G,
) -> Result<(), Failed>
    requires { 0 < length slots.old }
    ensures end { SameInbox inbox.old inbox.new }
    ensures put { bytes_taken inbox.old ≡ [] →
        Put result (bytes_taken inbox.new) (C.written console.old) (C.written console.new) (C.faults console.old) (C.faults console.new) }
    ensures later { C.faults console.old ≤ C.faults console.new }
{
    let bell = Bell::new();
    let bell = &bell;
    let count = slots.len();
    let turnstile = Turnstile::new(count);
    let turnstile = &turnstile;
    // The first of the two has the new thread, or where there is none comes last. The console's worker waits for the others, so it
    // is that one: it then finds that they have ended.
    let (drained, _) = join_mut(
        rt,
        &mut || pump(rt, lock, inbox, console, bell),
        &mut ||
            requires { 0 < count }
        {
            thread::for_each_mut(
                rt,
                slots,
                count,
                &|_, slot| work(rt, lock, turnstile, bell, gate, slot),
            );
            bell.end();
        },
    );
    drained
}

/// What the run leaves, with all in one hand: the closing turns, and the rest of what is released.
fn finish<L: RunName, C: Sink>(
    locked: Locked<L>,
    all: Share<L>,
    inbox: Inbox,
    drained: Result<(), Failed>,
    console: &mut C,
) -> Finished
    requires nodes { 0 < L.began.config.nodes }
    requires parts { (0 < all.parts) × (all.parts ≡ L.parts) }
    requires ends { (outbox : Outbox) → L.of_ring outbox → AreEnds outbox inbox }
    ensures run { IsRunOf L.began result.machine result.journal.items result.answers.items }
    ensures ends { (before : Option (List ℕ)) (was : ℕ) →
        Put drained (bytes_taken inbox) before (C.written console.old) was (C.faults console.old)
        → Ends L.began result.journal.items result.finish result.machine.state.released before (C.written console.new) was
        (C.faults console.new) }
    ensures later { C.faults console.old ≤ C.faults console.new }
{
    let mut locked = locked;
    let mut all = all;
    let closed = close(&drained, &mut locked, &mut all);
    let count = locked.audit(&mut all);
    let Ended {
        machine,
        journal,
        answers,
        outbox,
    } = locked.end();
    let holds = count == journal.len() as u64;
    prove!(holds);
    let put = put_rest(
        drained,
        outbox,
        inbox,
        machine.recovered().released(),
        console,
    );
    Finished {
        machine,
        journal,
        answers,
        finish: finish_after(&put, closed),
    }
}

/// The same under the run's name.
fn run_named<L: RunName + Send + Sync, T: Threads + Wait + Sync, C: Sink + Send, G: Gate + Sync>(
    rt: &T,
    alloc: Global,
    shared: SharedMachine,
    gate: &G,
    console: &mut C,
    outbox: Outbox,
    inbox: Inbox,
    blank: Blank,
) -> Result<Finished, Memory>
    requires name { blank.name ≡ L.name }
    requires parts { (blank.parts ≡ L.parts) × (blank.parts ≡ shared.machine.config.nodes + 1) }
    requires began { begins_with shared ≡ L.began }
    requires ring { L.of_ring outbox }
    requires ends { (other : Outbox) → L.of_ring other → AreEnds other inbox }
    requires fresh { (bytes_passed outbox ≡ []) × (bytes_taken inbox ≡ []) }
    ensures memory { OnErr result (console.new ≡ console.old) }
    ensures run { IfOk result (λ f. IsRunOf L.began f.machine f.journal.items f.answers.items) }
    ensures ends { IfOk result (λ f. Ends L.began f.journal.items f.finish f.machine.state.released
        (C.written console.old) (C.written console.new) (C.faults console.old) (C.faults console.new)) }
    ensures later { C.faults console.old ≤ C.faults console.new }
{
    let nodes = shared.workers();
    let (book, mut all) = blank.open::<L>();
    let Ok(mut slots) = make_slots(alloc, nodes, &mut all) else {
        drop(shared);
        return Err(Memory);
    };
    let mut inbox = inbox;
    let lock = Mutex::new(shared.begin(book, outbox));
    let drained = turns(rt, &lock, slots.as_mut_slice(), &mut inbox, console, gate);
    gather(slots, &mut all);
    Ok(finish(lock.into_inner(), all, inbox, drained, console))
}

/// Runs a machine by one worker a node, each in a thread of its own, and writes what is released to the console beside them.
/// Where a thread can't be started, its caller does that worker's turns, or writes to the console once they are done. Once all have
/// ended, the probes are told what was done. The run is stopped only where the console failed. On want of memory no turn was had.
pub fn run_nodes<T: Threads + Wait + Sync, C: Sink + Send, G: Gate + Sync>(
    rt: &T,
    alloc: Global,
    shared: SharedMachine,
    gate: &G,
    console: &mut C,
    probes: &mut ProbeSet,
) -> Result<Finished, Memory>
    ensures run { IfOk result (λ f. IsRunOf (begins_with shared) f.machine f.journal.items f.answers.items) }
    ensures ends { IfOk result (λ f. Ends (begins_with shared) f.journal.items f.finish f.machine.state.released
        (C.written console.old) (C.written console.new) (C.faults console.old) (C.faults console.new)) }
    ensures told { IfOk result (λ f. meters_in first tally step probes.new.probes.items
        ≡ told_all f.journal.items f.answers.items (meters_in first tally step probes.old.probes.items)) }
    ensures later { C.faults console.old ≤ C.faults console.new }
    ensures memory { OnErr result ((console.new ≡ console.old) × (probes.new ≡ probes.old)) }
{
    let Ok((outbox, inbox)) = outbox(alloc, ROOM) else {
        drop(shared);
        return Err(Memory);
    };
    let parts = u64::from(shared.workers()) + 1;
    let Ok(finished) = run_named::<Brand, T, C, G>(
        rt,
        alloc,
        shared,
        gate,
        console,
        outbox,
        inbox,
        Blank::new(parts),
    ) else {
        return Err(Memory);
    };
    tell(&finished.journal, &finished.answers, probes);
    Ok(finished)
}
