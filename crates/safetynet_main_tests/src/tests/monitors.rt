//! Runs that are watched, on one node, of which one cut is published or none: so what is seen doesn't hang on when the watcher looks.
use super::{Case, End, each_is_left};
use calls_in_memory::{Faults, LOOPS, NO_FAULT, PUTS_A};
use std::test::Fail;

const ENDED_REPORT: &str = "\
seen 1 5
events 12
point 1
committed 5
released 1
core 0 80000010 exited 65 x10=00000041 x17=0000005d
";

const SPENT_REPORT: &str = "\
events 50
point 0
committed 0
released 0
core 0 80000000 running
";

const ENDED: Case = Case {
    words: "safetynet monitor --nodes 1 a.hex",
    program: PUTS_A,
    script: "",
    faults: NO_FAULT,
    end: End::Done,
    console: "A",
    report: ENDED_REPORT,
};

const SHOWN: &[Case] = &[
    ENDED,
    Case {
        words: "safetynet monitor --nodes=1 --budget 50 a.hex",
        program: LOOPS,
        end: End::Budget,
        console: "",
        report: SPENT_REPORT,
        ..ENDED
    },
];

#[test]
fn the_last_cut_is_seen_unless_none_was_validated(rt: HostRuntime) -> Result<(), Fail> {
    each_is_left(&rt, rt.alloc(), SHOWN)
}

const BROKEN_OFF: &[Case] = &[
    Case {
        faults: Faults {
            console: 1,
            ..NO_FAULT
        },
        end: End::SinkFault,
        console: "",
        report: "",
        ..ENDED
    },
    Case {
        faults: Faults {
            report: 2,
            ..NO_FAULT
        },
        end: End::SinkFault,
        report: "seen 1 5\n",
        ..ENDED
    },
];

#[test]
fn what_was_seen_is_reported_after_the_console_has_all(rt: HostRuntime) -> Result<(), Fail> {
    each_is_left(&rt, rt.alloc(), BROKEN_OFF)
}
