//! The commands, each with all that it puts.
use super::Outside::{Console, Report};
use super::{Command, End};
use calls_in_memory::{
    ADDED, COUNTER, COUNTS, ECHOES, LATE_BYTE, LOOPS, PUTS_A, UNSEEN, VALIDATED,
};

/// A recovery undoes a request that stands at its receiver.
const RECOVERED: &str = "step 0\nstep 1\nstep 1\nstep 1\nhop 1\nrecover\nedge 0\n";

pub const COMMANDS: &[Command] = &[
    Command {
        words: "safetynet replay --nodes 1 a.hex a.script",
        program: PUTS_A,
        script: VALIDATED,
        fetches: 2,
        end: End::Done,
        pieces: &[
            (Report, "1 step 0: retired\n"),
            (Report, "2 step 0: retired\n"),
            (Report, "3 step 0: retired\n"),
            (Report, "4 edge 0: edged 1\n"),
            (
                Report,
                "\
5 report 0: reported 1
  msg 1 ready 0 0 1 1
",
            ),
            (Report, "6 deliver 1: delivered\n"),
            (Console, "A"),
            (
                Report,
                "\
7 validate: validated 1
  msg 2 advance 0 0 1 1
",
            ),
            (
                Report,
                "\
events 7
point 1
committed 3
released 1
core 0 8000000c running x10=00000041 x17=00000001
",
            ),
        ],
        console: 1,
        report: 8,
    },
    Command {
        words: "safetynet replay a.hex --nodes=2 --watch=80001000 a.script",
        program: COUNTS,
        script: RECOVERED,
        fetches: 2,
        end: End::Done,
        pieces: &[
            (Report, "1 step 0: retired\n"),
            (Report, "2 step 1: retired\n"),
            (Report, "3 step 1: retired\n"),
            (
                Report,
                "\
4 step 1: missed
  msg 1 getm 1 0 0 64
",
            ),
            (Report, "5 hop 1: hopped\n"),
            (
                Report,
                "\
6 recover: recovered 0 undone 0 dropped 1
  core 0 80000000 running
  core 1 80000000 running x10=00000001
  watch 80001000 00000000
",
            ),
            (Report, "7 edge 0: edged 1\n"),
            (
                Report,
                "\
events 7
point 0
committed 0
released 0
core 0 80000000 running
core 1 80000000 running x10=00000001
watch 80001000 00000000
",
            ),
        ],
        console: 0,
        report: 8,
    },
    Command {
        words: "safetynet replay --nodes 1 --trace --log 4 --sets 1 --ways 1 a.hex a.script",
        program: ECHOES,
        script: LATE_BYTE,
        fetches: 2,
        end: End::Done,
        pieces: &[
            (Console, "A"),
            (Report, "0 00000000 0\n"),
            (Report, "0 00000000 0 41\n"),
            (Report, "0 00000000 0\n"),
            (Report, "0 00000000 0\n"),
            (
                Report,
                "\
# events 15
# point 1
# committed 4
# released 1
# core 0 80000010 running x10=00000041 x17=00000001
",
            ),
        ],
        console: 1,
        report: 5,
    },
    Command {
        words: "safetynet check --nodes 2 a.hex a.script",
        program: COUNTS,
        script: ADDED,
        fetches: 2,
        end: End::Done,
        pieces: &[(Report, "legal 6\n")],
        console: 0,
        report: 1,
    },
    Command {
        words: "safetynet check a.hex a.script --nodes=2",
        program: COUNTS,
        script: UNSEEN,
        fetches: 2,
        end: End::Refused(6),
        pieces: &[(Report, "refused 6\n")],
        console: 0,
        report: 1,
    },
    Command {
        words: "safetynet judge a.script",
        program: "",
        script: "1 sc 80001000 4 00000001\n",
        fetches: 1,
        end: End::Refused(1),
        pieces: &[(Report, "refused 1\nunreserved since 0\n")],
        console: 0,
        report: 1,
    },
    Command {
        words: "safetynet asm a.hex",
        program: COUNTER,
        script: "",
        fetches: 1,
        end: End::Done,
        pieces: &[(
            Console,
            "\
00128293
ffdff06f
",
        )],
        console: 1,
        report: 0,
    },
    Command {
        words: "safetynet dis a.hex",
        program: PUTS_A,
        script: "",
        fetches: 1,
        end: End::Done,
        pieces: &[(
            Console,
            "\
# 80000000
addi x10, x0, 65
addi x17, x0, 1
ecall
addi x17, x0, 93
ecall
",
        )],
        console: 1,
        report: 0,
    },
    Command {
        words: "safetynet demo 20",
        program: "",
        script: "",
        fetches: 0,
        end: End::Done,
        pieces: &[(
            Report,
            "\
events 20
point 0
committed 0
released 0
core 0 80000000 running
core 1 80000000 running x10=00000001
core 2 80000000 running x10=00000002
core 3 80000000 running x10=00000003
",
        )],
        console: 0,
        report: 1,
    },
    Command {
        words: "safetynet run --nodes 1 a.hex",
        program: PUTS_A,
        script: "",
        fetches: 1,
        end: End::Done,
        pieces: &[
            (Console, "A"),
            (
                Report,
                "\
events 12
point 1
committed 5
released 1
core 0 80000010 exited 65 x10=00000041 x17=0000005d
",
            ),
        ],
        console: 1,
        report: 1,
    },
    Command {
        words: "safetynet run --nodes 1 --trace a.hex",
        program: PUTS_A,
        script: "",
        fetches: 1,
        end: End::Done,
        pieces: &[
            (Console, "A"),
            (Report, "0 00000000 0\n"),
            (Report, "0 00000000 0\n"),
            (Report, "0 00000000 0\n"),
            (Report, "0 00000000 0\n"),
            (Report, "0 00000000 0\n"),
            (
                Report,
                "\
# events 12
# point 1
# committed 5
# released 1
# core 0 80000010 exited 65 x10=00000041 x17=0000005d
",
            ),
        ],
        console: 1,
        report: 6,
    },
    Command {
        words: "safetynet monitor --nodes 1 a.hex",
        program: PUTS_A,
        script: "",
        fetches: 1,
        end: End::Done,
        pieces: &[
            (Console, "A"),
            (Report, "seen 1 5\n"),
            (
                Report,
                "\
events 12
point 1
committed 5
released 1
core 0 80000010 exited 65 x10=00000041 x17=0000005d
",
            ),
        ],
        console: 1,
        report: 2,
    },
    Command {
        words: "safetynet run --nodes 1 --budget 3 --journal a.hex",
        program: LOOPS,
        script: "",
        fetches: 1,
        end: End::Budget,
        pieces: &[
            (
                Report,
                "\
# worker 0
step 0
",
            ),
            (
                Report,
                "\
# worker 0
step 0
",
            ),
            (
                Report,
                "\
# worker 0
step 0
",
            ),
            (
                Report,
                "\
# events 3
# point 0
# committed 0
# released 0
# core 0 80000000 running
",
            ),
        ],
        console: 0,
        report: 4,
    },
];
