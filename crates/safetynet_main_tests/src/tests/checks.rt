//! Traces that are judged.
use super::{Case, End, each_is_left};
use calls_in_memory::{ADDED, COUNTS, ECHOES, Faults, NO_FAULT, UNSEEN};
use sn_text::ScriptCause;
use std::test::Fail;

const UNREAD: &str = "0 00000000 0\n0 00000000 0\n0 00000000 0\n0 00000000 0\n";

const ONE_NODE: &str = "safetynet check --nodes 1 a.hex a.script";

const TWO_NODES: &str = "safetynet check a.hex --nodes=2 a.script";

/// The report's first call fails.
const BROKEN: Faults = Faults {
    store: 0,
    console: 0,
    report: 1,
};

const VERDICTS: &[Case] = &[
    Case {
        words: TWO_NODES,
        program: COUNTS,
        script: ADDED,
        faults: NO_FAULT,
        end: End::Done,
        console: "",
        report: "legal 6\n",
    },
    Case {
        words: TWO_NODES,
        program: COUNTS,
        script: UNSEEN,
        faults: NO_FAULT,
        end: End::Refused(6),
        console: "",
        report: "refused 6\n",
    },
    Case {
        words: TWO_NODES,
        program: COUNTS,
        script: "2 00000000 0\n",
        faults: NO_FAULT,
        end: End::BadScript(ScriptCause::OutOfRange(1)),
        console: "",
        report: "",
    },
    Case {
        words: ONE_NODE,
        program: ECHOES,
        script: UNREAD,
        faults: BROKEN,
        end: End::SinkFault,
        console: "",
        report: "",
    },
];

#[test]
fn a_trace_is_judged_by_its_first_record_without_a_step(rt: HostRuntime) -> Result<(), Fail> {
    each_is_left(&rt, rt.alloc(), VERDICTS)
}
