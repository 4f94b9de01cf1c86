//! Commands that need no script: words from a text, a text from words, and a generated run.
use super::{Case, End, each_is_left};
use calls_in_memory::{COUNTER, NO_FAULT, PUTS_A};
use std::test::Fail;

const DEMO_REPORT: &str = "\
events 20
point 0
committed 0
released 0
core 0 80000000 running
core 1 80000000 running x10=00000001
core 2 80000000 running x10=00000002
core 3 80000000 running x10=00000003
";

const COUNTER_WORDS: &str = "00128293\nffdff06f\n";

const LISTING: &str = "\
# 80000000
addi x10, x0, 65
addi x17, x0, 1
ecall
addi x17, x0, 93
ecall
";

const TEXTS: &[Case] = &[
    Case {
        words: "safetynet asm a.hex",
        program: COUNTER,
        script: "",
        faults: NO_FAULT,
        end: End::Done,
        console: COUNTER_WORDS,
        report: "",
    },
    Case {
        words: "safetynet dis a.hex",
        program: PUTS_A,
        script: "",
        faults: NO_FAULT,
        end: End::Done,
        console: LISTING,
        report: "",
    },
    Case {
        words: "safetynet demo 20",
        program: "",
        script: "",
        faults: NO_FAULT,
        end: End::Done,
        console: "",
        report: DEMO_REPORT,
    },
];

#[test]
fn other_commands_put_their_texts(rt: HostRuntime) -> Result<(), Fail> {
    each_is_left(&rt, rt.alloc(), TEXTS)
}
