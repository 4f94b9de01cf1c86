//! Runs by workers, on one node, where each is the same.
use super::{Case, End, each_is_left, leaves};
use call_status::Status;
use calls_in_memory::{Faults, Given, LOOPS, NO_FAULT, PUTS_A};
use rv_core::Cause;
use sn_base::NodeId;
use std::test::Fail;

/// No instruction.
const TRAPS: &str = "00000000\n";

const SPENT_REPORT: &str = "\
events 3
point 0
committed 0
released 0
core 0 80000000 running
";

const SPENT_JOURNAL: &str = "\
# worker 0
step 0
# worker 0
step 0
# worker 0
step 0
# events 3
# point 0
# committed 0
# released 0
# core 0 80000000 running
";

const ENDED_REPORT: &str = "\
events 12
point 1
committed 5
released 1
core 0 80000010 exited 65 x10=00000041 x17=0000005d
";

const TRAPPED_REPORT: &str = "\
events 5
point 1
committed 1
released 0
core 0 80000000 trapped illegal
";

const RUN: &str = "safetynet run --nodes 1 a.hex";

const SPENT_RUN: Case = Case {
    words: "safetynet run --nodes 1 --budget 3 a.hex",
    program: LOOPS,
    script: "",
    faults: NO_FAULT,
    end: End::Budget,
    console: "",
    report: SPENT_REPORT,
};

const SPENT: &[Case] = &[
    SPENT_RUN,
    Case {
        words: "safetynet run --journal --nodes 1 --budget 3 a.hex",
        report: SPENT_JOURNAL,
        ..SPENT_RUN
    },
];

#[test]
fn a_run_ends_with_its_budget(rt: HostRuntime) -> Result<(), Fail> {
    each_is_left(&rt, rt.alloc(), SPENT)
}

const ENDED: Case = Case {
    words: RUN,
    program: PUTS_A,
    script: "",
    faults: NO_FAULT,
    end: End::Done,
    console: "A",
    report: ENDED_REPORT,
};

const EXITED: &[Case] = &[ENDED];

#[test]
fn a_run_ends_with_all_exits(rt: HostRuntime) -> Result<(), Fail> {
    each_is_left(&rt, rt.alloc(), EXITED)
}

/// On one node each order gives its turns to the one worker.
const ORDERED: &[Case] = &[
    Case {
        words: "safetynet run --nodes 1 --order round a.hex",
        ..ENDED
    },
    Case {
        words: "safetynet run --nodes 1 --order=drawn a.hex",
        ..ENDED
    },
    Case {
        words: "safetynet run --journal --order round --nodes 1 --budget 3 a.hex",
        report: SPENT_JOURNAL,
        ..SPENT_RUN
    },
    Case {
        words: "safetynet run --nodes 1 --order drawn a.hex",
        faults: Faults {
            console: 1,
            ..NO_FAULT
        },
        end: End::SinkFault,
        console: "",
        report: "",
        ..ENDED
    },
];

#[test]
fn a_run_has_its_turns_in_an_order(rt: HostRuntime) -> Result<(), Fail> {
    each_is_left(&rt, rt.alloc(), ORDERED)
}

#[test]
fn a_run_ends_with_its_least_trap(rt: HostRuntime) -> Result<(), Fail> {
    let first = NodeId::numbered(0);
    let given = Given {
        words: RUN,
        program: TRAPS.as_bytes(),
        script: b"",
        faults: NO_FAULT,
    };
    let status = Status::Trapped(first, Cause::Illegal);
    leaves(&rt, rt.alloc(), &given, &status, "", TRAPPED_REPORT)
}

const BROKEN_OFF: &[Case] = &[Case {
    faults: Faults {
        console: 1,
        ..NO_FAULT
    },
    end: End::SinkFault,
    console: "",
    report: "",
    ..ENDED
}];

#[test]
fn a_run_whose_console_fails_reports_nothing(rt: HostRuntime) -> Result<(), Fail> {
    each_is_left(&rt, rt.alloc(), BROKEN_OFF)
}
