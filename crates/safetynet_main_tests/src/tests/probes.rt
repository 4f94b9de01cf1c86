//! Each probe is handed to a call, and what the call leaves of it is what stands beside it.
ghost use Rattle.std.specs.Prelude.{[], ◌∷◌};
ghost use Rattle.sn_probe.specs.Tally.{tally_with_one};
ghost use Rattle.safetynet_main_tests.specs.Held.{place_of_held};

use super::{End, status_of};
use call_status::{ProgramCause, Status};
use calls_in_memory::{
    COUNTS, Faults, Given, NO_FAULT, PUTS_A, Probes, VALIDATED, WORDS, call_with,
};
use elf_load::LoadCause;
use sn_base::{Answer, Event, Memory};
use sn_probe::{EventTally, Probe};
use std::alloc::{AllocError, Global};
use std::sync::atomic::{AtomicU64, Ordering};
use std::sync::{Arc, Wait};
use std::test::Fail;
use std::thread::Threads;

/// What a tally of the events of a validated byte is.
const TALLIED: &str = "\
probe 0 0 3
probe 0 1 0
probe 0 2 1
probe 0 3 0
probe 0 4 1
probe 0 5 0
probe 0 6 0
probe 0 7 1
probe 0 8 1
probe 0 9 0
";

fn tally(alloc: Global) -> Result<Probes, AllocError> {
    let mut probes: Probes = Vec::new(alloc);
    probes.push(Box::new(alloc, EventTally::new())?)?;
    Ok(probes)
}

/// Whether a call that is handed these probes is done, and its report ends so.
fn is_shown(
    rt: &(impl Threads + Wait + Sync),
    alloc: Global,
    given: &Given<'_>,
    probes: Probes,
    end: &str,
) -> Result<bool, Memory> {
    let left = call_with(rt, alloc, given, probes)?;
    Ok(left.status == Status::Done && left.report.bytes().ends_with(end.as_bytes()))
}

#[test]
fn the_summary_ends_with_what_the_probes_measured(rt: HostRuntime) -> Result<(), Fail> {
    let probes = tally(rt.alloc())?;
    let given = Given {
        words: WORDS,
        program: PUTS_A.as_bytes(),
        script: VALIDATED.as_bytes(),
        faults: NO_FAULT,
    };
    let is_so = is_shown(&rt, rt.alloc(), &given, probes, TALLIED)?;
    assert!(rt; is_so);
    Ok(())
}

/// Has no number. It counts its drop.
struct Witness {
    drops: Arc<AtomicU64, Global>,
}

impl Drop for Witness {
    fn drop(self) {
        let Witness { drops } = self;
        drops.fetch_add(1, Ordering::SeqCst);
    }
}

impl Probe for Witness {
    ghost first = { λ _. [] };

    ghost tally = { λ _. [] };

    ghost step = { λ _ tally number event answer. tally };

    fn told(&mut self, _number: u64, _event: &Event, _answer: &Answer) {}

    fn line(&self, _place: usize) -> Option<u64> {
        None
    }
}

/// Counts the deliveries of messages that are held, and its drop.
struct HeldCount {
    held: u64,
    drops: Arc<AtomicU64, Global>,
}

impl Drop for HeldCount {
    fn drop(self) {
        let HeldCount { held: _, drops } = self;
        drops.fetch_add(1, Ordering::SeqCst);
    }
}

impl Probe for HeldCount {
    ghost first = { λ _. 0 ∷ [] };

    ghost tally = { λ p. p.held ∷ [] };

    ghost step = { λ _ tally number event answer. tally_with_one tally (place_of_held answer) };

    fn told(&mut self, _number: u64, _event: &Event, answer: &Answer) {
        if let Answer::Held = answer {
            self.held = self.held.saturating_add(1);
        }
    }

    fn line(&self, place: usize) -> Option<u64> {
        if place == 0 { Some(self.held) } else { None }
    }
}

/// So many probes, the first of which counts what is held, while the others have no number.
fn witnesses(
    alloc: Global,
    count: u64,
    drops: &Arc<AtomicU64, Global>,
) -> Result<Probes, AllocError> {
    let mut probes: Probes = Vec::new(alloc);
    if count > 0 {
        let drops = Arc::try_clone(drops)?;
        probes.push(Box::new(alloc, HeldCount { held: 0, drops })?)?;
    }
    for _ in 1..count {
        let drops = Arc::try_clone(drops)?;
        probes.push(Box::new(alloc, Witness { drops })?)?;
    }
    Ok(probes)
}

/// A request of a later interval is held twice before its receiver comes there.
const HELD: &str = "\
edge 1\nstep 1\nstep 1\nstep 1\nhop 1\ndeliver 1\ndeliver 1\nedge 0\ndeliver 1\n";

const HELD_TALLIED: &str = "core 1 80000000 running x10=00000001\nprobe 0 0 2\n";

#[test]
fn a_probe_without_a_number_has_no_line(rt: HostRuntime) -> Result<(), Fail> {
    let drops = Arc::new(rt.alloc(), AtomicU64::new(0))?;
    let probes = witnesses(rt.alloc(), 100, &drops)?;
    let given = Given {
        words: "safetynet replay --nodes 2 a.hex a.script",
        program: COUNTS.as_bytes(),
        script: HELD.as_bytes(),
        faults: NO_FAULT,
    };
    let is_so = is_shown(&rt, rt.alloc(), &given, probes, HELD_TALLIED)?;
    assert!(rt; is_so);
    Ok(())
}

/// A call that is given so many probes: its words, its program, which calls of the outside fail, and how it ends.
#[derive(Clone, Copy)]
struct Ending {
    words: &'static str,
    program: &'static str,
    faults: Faults,
    probes: u64,
    end: End,
}

const DONE: Ending = Ending {
    words: WORDS,
    program: PUTS_A,
    faults: NO_FAULT,
    probes: 0,
    end: End::Done,
};

const BROKEN_OFF: Ending = Ending {
    faults: Faults {
        report: 1,
        ..NO_FAULT
    },
    end: End::SinkFault,
    ..DONE
};

const REFUSED: Ending = Ending {
    program: "",
    end: End::BadProgram(ProgramCause::Load(LoadCause::Empty)),
    ..DONE
};

const ENDS: &[Ending] = &[
    DONE,
    Ending { probes: 1, ..DONE },
    Ending {
        probes: 100,
        ..DONE
    },
    BROKEN_OFF,
    Ending {
        probes: 1,
        ..BROKEN_OFF
    },
    Ending {
        probes: 100,
        ..BROKEN_OFF
    },
    REFUSED,
    Ending {
        probes: 1,
        ..REFUSED
    },
    Ending {
        probes: 100,
        ..REFUSED
    },
    Ending {
        words: "safetynet fly",
        probes: 100,
        end: End::Usage,
        ..DONE
    },
    Ending {
        words: "safetynet run --nodes 1 --budget 5 a.hex",
        probes: 100,
        end: End::Budget,
        ..DONE
    },
    Ending {
        words: "safetynet monitor --nodes 1 --budget 5 a.hex",
        probes: 100,
        end: End::Budget,
        ..DONE
    },
    Ending {
        words: "safetynet run --nodes 1 a.hex",
        faults: Faults {
            console: 1,
            ..NO_FAULT
        },
        probes: 100,
        ..BROKEN_OFF
    },
];

/// How a call ends whose probes count their drops there.
fn status_left(
    rt: &(impl Threads + Wait + Sync),
    alloc: Global,
    ending: &Ending,
    drops: &Arc<AtomicU64, Global>,
) -> Result<Status, Memory> {
    let probes = witnesses(alloc, ending.probes, drops)?;
    let given = Given {
        words: ending.words,
        program: ending.program.as_bytes(),
        script: VALIDATED.as_bytes(),
        faults: ending.faults,
    };
    let left = call_with(rt, alloc, &given, probes)?;
    Ok(left.status)
}

/// Whether a call ends so, and has dropped each of its probes once.
fn drops_each(
    rt: &(impl Threads + Wait + Sync),
    alloc: Global,
    ending: &Ending,
) -> Result<bool, Memory> {
    let drops = Arc::new(alloc, AtomicU64::new(0))?;
    let status = status_left(rt, alloc, ending, &drops)?;
    Ok(status == status_of(&ending.end) && drops.load(Ordering::SeqCst) == ending.probes)
}

#[test]
fn each_probe_is_dropped_once_however_the_call_ends(rt: HostRuntime) -> Result<(), Fail> {
    for ending in ENDS {
        let is_so = drops_each(&rt, rt.alloc(), ending)?;
        assert!(rt; is_so, "of {}", ending.words);
    }
    Ok(())
}
