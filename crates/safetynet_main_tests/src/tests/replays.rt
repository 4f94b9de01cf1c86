//! Replays: what they put, what their options show, and what is there where a sink fails.
use super::{Case, End, each_is_left, leaves};
use call_status::Status;
use calls_in_memory::{ECHOES, Faults, Given, LATE_BYTE, NO_FAULT, PUTS_A, VALIDATED, WORDS};
use std::test::Fail;

const RECOVERED: &str = "step 0\nstep 0\nstep 0\nedge 0\nreport 0\nrecover\n";

const VALIDATED_EVENTS: &str = "\
1 step 0: retired
2 step 0: retired
3 step 0: retired
4 edge 0: edged 1
5 report 0: reported 1
  msg 1 ready 0 0 1 1
6 deliver 1: delivered
";

const VALIDATED_REPORT: &str = "\
1 step 0: retired
2 step 0: retired
3 step 0: retired
4 edge 0: edged 1
5 report 0: reported 1
  msg 1 ready 0 0 1 1
6 deliver 1: delivered
7 validate: validated 1
  msg 2 advance 0 0 1 1
events 7
point 1
committed 3
released 1
core 0 8000000c running x10=00000041 x17=00000001
";

const WATCHED_REPORT: &str = "\
1 step 0: retired
2 step 0: retired
3 step 0: retired
4 edge 0: edged 1
5 report 0: reported 1
  msg 1 ready 0 0 1 1
6 recover: recovered 0 undone 0 dropped 1
  core 0 80000000 running
  watch 80000000 04100513
events 6
point 0
committed 0
released 0
core 0 80000000 running
watch 80000000 04100513
";

const LATE_TRACE: &str = "\
0 00000000 0
0 00000000 0 41
0 00000000 0
0 00000000 0
# events 15
# point 1
# committed 4
# released 1
# core 0 80000010 running x10=00000041 x17=00000001
";

const STATES_REPORT: &str = "\
{\"form\":\"safetynet states 1\",\"nodes\":1,\"sets\":16,\"ways\":4,\"log\":256,\"entry\":\"80000000\",\"events\":6,\"state\":{\"nodes\":[{\"node\":0,\"now\":1,\"known\":0,\"core\":{\"pc\":\"8000000c\",\"end\":\"running\",\"registers\":{\"x10\":\"00000041\",\"x17\":\"00000001\"},\"reservation\":null},\"lines\":[],\"miss\":null,\"put\":null,\"log\":[],\"given\":\"\",\"taken\":0,\"waiting\":[{\"interval\":0,\"seen\":\"00000000\",\"done\":false,\"read\":null},{\"interval\":0,\"seen\":\"00000000\",\"done\":false,\"read\":null},{\"interval\":0,\"seen\":\"00000000\",\"done\":false,\"read\":null}]}],\"homes\":[],\"net\":{\"messages\":[],\"dead\":[],\"next\":\"2\"},\"controller\":{\"point\":0,\"reported\":[1],\"committed\":0,\"held\":[{\"interval\":0,\"byte\":\"41\"}],\"released\":0}}}
{\"place\":7,\"event\":\"validate\",\"answer\":\"validated 1\",\"sent\":[{\"message\":{\"id\":\"2\",\"kind\":\"advance\",\"from\":0,\"to\":0,\"tag\":1,\"point\":1},\"lost\":false}],\"parts\":{\"nodes\":[{\"node\":0,\"now\":1,\"known\":0,\"core\":{\"pc\":\"8000000c\",\"end\":\"running\",\"registers\":{\"x10\":\"00000041\",\"x17\":\"00000001\"},\"reservation\":null},\"lines\":[],\"miss\":null,\"put\":null,\"log\":[],\"given\":\"\",\"taken\":0,\"waiting\":[]}],\"homes\":[],\"net\":{\"messages\":[{\"message\":{\"id\":\"2\",\"kind\":\"advance\",\"from\":0,\"to\":0,\"tag\":1,\"point\":1},\"switch\":\"a0\"}],\"dead\":[],\"next\":\"3\"},\"controller\":{\"point\":1,\"reported\":[1],\"committed\":3,\"held\":[],\"released\":1}}}
{\"summary\":{\"events\":7,\"point\":1,\"committed\":3,\"released\":1,\"cores\":[{\"pc\":\"8000000c\",\"end\":\"running\",\"registers\":{\"x10\":\"00000041\",\"x17\":\"00000001\"},\"reservation\":null}],\"watch\":null,\"probes\":[]}}
";

/// A byte is put and released.
const RELEASED: Case = Case {
    words: WORDS,
    program: PUTS_A,
    script: VALIDATED,
    faults: NO_FAULT,
    end: End::Done,
    console: "A",
    report: VALIDATED_REPORT,
};

const SHOWN: &[Case] = &[
    RELEASED,
    Case {
        words: "safetynet replay a.hex --watch=80000000 --nodes=1 a.script",
        program: PUTS_A,
        script: RECOVERED,
        faults: NO_FAULT,
        end: End::Done,
        console: "",
        report: WATCHED_REPORT,
    },
    Case {
        words: "safetynet replay --nodes 1 --trace --log 4 --sets 1 --ways 1 a.hex a.script",
        program: ECHOES,
        script: LATE_BYTE,
        faults: NO_FAULT,
        end: End::Done,
        console: "A",
        report: LATE_TRACE,
    },
    Case {
        words: "safetynet replay --states --only 7-7 --nodes 1 a.hex a.script",
        program: PUTS_A,
        script: VALIDATED,
        faults: NO_FAULT,
        end: End::Done,
        console: "A",
        report: STATES_REPORT,
    },
];

#[test]
fn a_replay_shows_what_its_options_ask(rt: HostRuntime) -> Result<(), Fail> {
    each_is_left(&rt, rt.alloc(), SHOWN)
}

/// The ELF file of `PUTS_A`, as a linker writes it.
const FILE: [u8; 104] = [
    0x7f, 0x45, 0x4c, 0x46, 1, 1, 1, 0, 0, 0, 0, 0, 0, 0, 0, 0, // e_ident
    2, 0, 0xf3, 0, 1, 0, 0, 0, 0, 0, 0, 0x80, 52, 0, 0, 0, // e_type to e_phoff
    0, 0, 0, 0, 0, 0, 0, 0, 52, 0, 32, 0, 1, 0, 0, 0, 0, 0, 0, 0, // e_shoff to e_shstrndx
    1, 0, 0, 0, 84, 0, 0, 0, 0, 0, 0, 0x80, 0, 0, 0, 0x80, // p_type, p_offset, p_vaddr, p_paddr
    20, 0, 0, 0, 20, 0, 0, 0, 5, 0, 0, 0, 1, 0, 0, 0, // p_filesz, p_memsz, p_flags, p_align
    0x13, 0x05, 0x10, 0x04, 0x93, 0x08, 0x10, 0, 0x73, 0, 0, 0, // the program
    0x93, 0x08, 0xd0, 0x05, 0x73, 0, 0, 0,
];

#[test]
fn an_elf_file_is_run_as_its_words_are(rt: HostRuntime) -> Result<(), Fail> {
    let given = Given {
        words: WORDS,
        program: &FILE,
        script: VALIDATED.as_bytes(),
        faults: NO_FAULT,
    };
    leaves(
        &rt,
        rt.alloc(),
        &given,
        &Status::Done,
        "A",
        VALIDATED_REPORT,
    )
}

const BROKEN_OFF: &[Case] = &[
    Case {
        faults: Faults {
            store: 1,
            ..NO_FAULT
        },
        end: End::StoreFault,
        console: "",
        report: "",
        ..RELEASED
    },
    Case {
        faults: Faults {
            console: 1,
            ..NO_FAULT
        },
        end: End::SinkFault,
        console: "",
        report: VALIDATED_EVENTS,
        ..RELEASED
    },
    Case {
        faults: Faults {
            report: 2,
            ..NO_FAULT
        },
        end: End::SinkFault,
        console: "",
        report: "1 step 0: retired\n",
        ..RELEASED
    },
    Case {
        faults: Faults {
            report: 7,
            ..NO_FAULT
        },
        end: End::SinkFault,
        report: VALIDATED_EVENTS,
        ..RELEASED
    },
];

#[test]
fn a_call_that_fails_leaves_the_beginning_of_each_text(rt: HostRuntime) -> Result<(), Fail> {
    each_is_left(&rt, rt.alloc(), BROKEN_OFF)
}
