//! Recovery points that are saved, machines that go on from one, and save files that are refused.
use super::{Case, End, each_is_left};
use calls_in_memory::{NO_FAULT, PUTS_A, SAVED, VALIDATED};
use sn_text::ScriptCause;
use std::test::Fail;

const SAVE: &str = "safetynet save --nodes 1 a.hex a.script";

const RESUME: &str = "safetynet resume a.hex a.save a.script";

/// The script is taken for the save file too.
const RESUME_SCRIPT: &str = "safetynet resume a.hex a.script a.script";

const RESUMED_REPORT: &str = "\
1 step 0: retired
2 step 0: retired
events 2
point 1
committed 3
released 1
core 0 8000000c running x10=00000041 x17=00000001
";

const SPOILED: &str = "\
safetynet-save 1\nconfig 1 16 4 256\nmarks 1 3 7\n\
rec 0 00000000 0\nrec 0 00000000 0\nrec 0 00000001 0\nend\n";

const WITHOUT_END: &str = "\
safetynet-save 1\nconfig 1 16 4 256\nmarks 1 3 7\n\
rec 0 00000000 0\nrec 0 00000000 0\nrec 0 00000000 0\n";

const SAVES: &[Case] = &[
    Case {
        words: SAVE,
        program: PUTS_A,
        script: VALIDATED,
        faults: NO_FAULT,
        end: End::Done,
        console: "A",
        report: SAVED,
    },
    Case {
        words: RESUME,
        program: PUTS_A,
        script: "step 0\nstep 0\n",
        faults: NO_FAULT,
        end: End::Done,
        console: "",
        report: RESUMED_REPORT,
    },
];

#[test]
fn a_machine_goes_on_from_what_another_saved(rt: HostRuntime) -> Result<(), Fail> {
    each_is_left(&rt, rt.alloc(), SAVES)
}

const REFUSED: &[Case] = &[
    Case {
        words: RESUME_SCRIPT,
        program: PUTS_A,
        script: SPOILED,
        faults: NO_FAULT,
        end: End::SaveNotLegal(3),
        console: "",
        report: "",
    },
    Case {
        words: RESUME_SCRIPT,
        program: PUTS_A,
        script: WITHOUT_END,
        faults: NO_FAULT,
        end: End::BadSaveLine(7),
        console: "",
        report: "",
    },
    Case {
        words: RESUME_SCRIPT,
        program: PUTS_A,
        script: SAVED,
        faults: NO_FAULT,
        end: End::BadScript(ScriptCause::BadLine(1)),
        console: "",
        report: "",
    },
    Case {
        words: RESUME,
        program: PUTS_A,
        script: "step 1\n",
        faults: NO_FAULT,
        end: End::BadScript(ScriptCause::OutOfRange(1)),
        console: "",
        report: "",
    },
];

#[test]
fn a_save_file_is_refused_before_the_script(rt: HostRuntime) -> Result<(), Fail> {
    each_is_left(&rt, rt.alloc(), REFUSED)
}
