//! Accesses that are judged by themselves.
use super::{Case, End, each_is_left};
use calls_in_memory::{Faults, NO_FAULT};
use sn_text::ScriptCause;
use std::test::Fail;

/// A write, and a read of it by another core.
const PASSED: Case = Case {
    words: "safetynet judge a.script",
    program: "",
    script: "init 80001000 00000007\n0 w 80001000 4 0000002a\n1 r 80001000 4 0000002a\n",
    faults: NO_FAULT,
    end: End::Done,
    console: "",
    report: "legal 2\n",
};

const VERDICTS: &[Case] = &[
    PASSED,
    Case {
        script: "init 80001000 00000007\n0 w 80001000 4 0000002a\n1 r 80001000 4 00000007\n",
        end: End::Refused(2),
        report: "refused 2\nexpected 0000002a since 1\n",
        ..PASSED
    },
    Case {
        script: "1 sc 80001000 4 00000001\n",
        end: End::Refused(1),
        report: "refused 1\nunreserved since 0\n",
        ..PASSED
    },
    Case {
        script: "16 r 80001000 4 00000000\n",
        end: End::BadScript(ScriptCause::OutOfRange(1)),
        report: "",
        ..PASSED
    },
    Case {
        words: "safetynet judge b.script",
        end: End::StoreFault,
        report: "",
        ..PASSED
    },
    Case {
        faults: Faults {
            report: 1,
            ..NO_FAULT
        },
        end: End::SinkFault,
        report: "",
        ..PASSED
    },
];

#[test]
fn accesses_are_judged_by_the_first_that_is_not_legal(rt: HostRuntime) -> Result<(), Fail> {
    each_is_left(&rt, rt.alloc(), VERDICTS)
}
