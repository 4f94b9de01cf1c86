//! Bytes that come and go: what waits for its checkpoint, what is released, and what a recovery takes back.
use super::programs::{ECHO, LETTER};
use super::{Look, Schedule};

/// A machine to which nothing was done yet.
pub const BEFORE_EVENTS: Schedule = Schedule {
    nodes: 1,
    log: 256,
    program: LETTER,
    script: "",
    console: "",
    report: "\
events 0
point 0
committed 0
released 0
core 0 80000000 running
",
    looks: &[
        (Look::Room, 2000),
        (Look::Entry, 0x8000_0000),
        (Look::Interval, 0),
        (Look::Ready, 0),
        (Look::Pc, 0x8000_0000),
        (Look::CanEvict, 0),
        (Look::CutFirstWord, 0x0410_0513),
        (Look::HomeWord, 0x0410_0513),
        (Look::Reported, 0),
        (Look::IsCutAtHome, 1),
        (Look::IsOver, 0),
    ],
};

/// A byte is put, and its checkpoint isn't validated.
pub const HELD_LETTER: Schedule = Schedule {
    nodes: 1,
    log: 256,
    program: LETTER,
    script: "\
step 0\nstep 0\nstep 0\nedge 0\nreport 0\ndeliver 1\n",
    console: "",
    report: "\
1 step 0: retired
2 step 0: retired
3 step 0: retired
4 edge 0: edged 1
5 report 0: reported 1
  msg 1 ready 0 0 1 1
6 deliver 1: delivered
events 6
point 0
committed 0
released 0
core 0 80000000 running
",
    looks: &[
        (Look::Pending, 3),
        (Look::Held, 1),
        (Look::Reported, 1),
        (Look::HomeWord, 0x0410_0513),
    ],
};

/// Then it is.
pub const RELEASED_LETTER: Schedule = Schedule {
    nodes: 1,
    log: 256,
    program: LETTER,
    script: "\
step 0\nstep 0\nstep 0\nedge 0\nreport 0\ndeliver 1\nvalidate\n",
    console: "A",
    report: "\
1 step 0: retired
2 step 0: retired
3 step 0: retired
4 edge 0: edged 1
5 report 0: reported 1
  msg 1 ready 0 0 1 1
6 deliver 1: delivered
7 validate: validated 1
  msg 2 advance 0 0 1 1
events 7
point 1
committed 3
released 1
core 0 8000000c running x10=00000041 x17=00000001
",
    looks: &[
        (Look::Pending, 0),
        (Look::Room, 1993),
        (Look::Held, 0),
        (Look::Known, 0),
    ],
};

/// A recovery takes the byte back, and the next checkpoint of that number isn't reported.
pub const LETTER_TAKEN_BACK: Schedule = Schedule {
    nodes: 1,
    log: 256,
    program: LETTER,
    script: "\
step 0\nstep 0\nstep 0\nedge 0\nreport 0\ndeliver 1\nrecover\nstep 0\nedge 0\nvalidate\n",
    console: "",
    report: "\
1 step 0: retired
2 step 0: retired
3 step 0: retired
4 edge 0: edged 1
5 report 0: reported 1
  msg 1 ready 0 0 1 1
6 deliver 1: delivered
7 recover: recovered 0 undone 0 dropped 0
  core 0 80000000 running
8 step 0: retired
9 edge 0: edged 1
10 validate: notready 0
events 10
point 0
committed 0
released 0
core 0 80000000 running
",
    looks: &[],
};

/// A byte of input is taken, and taken again after a recovery.
pub const TAKEN_TWICE: Schedule = Schedule {
    nodes: 1,
    log: 256,
    program: ECHO,
    script: "\
step 0\nstep 0\ninput 0 41\nstep 0\nstep 0\nrecover\nstep 0\nstep 0\nstep 0\nstep 0\nedge 0\nreport 0\n\
deliver 1\nvalidate\nedge 0\n",
    console: "A",
    report: "\
1 step 0: retired
2 step 0: noinput
3 input 0 41: given
4 step 0: retired
5 step 0: retired
6 recover: recovered 0 undone 0 dropped 0
  core 0 80000000 running
7 step 0: retired
8 step 0: retired
9 step 0: retired
10 step 0: retired
11 edge 0: edged 1
12 report 0: reported 1
  msg 1 ready 0 0 1 1
13 deliver 1: delivered
14 validate: validated 1
  msg 2 advance 0 0 1 1
15 edge 0: edged 2
events 15
point 1
committed 4
released 1
core 0 80000010 running x10=00000041 x17=00000001
",
    looks: &[(Look::CutGiven, 1), (Look::CutTaken, 1)],
};

/// The program comes to its end, which is validated.
pub const ENDED: Schedule = Schedule {
    nodes: 1,
    log: 256,
    program: LETTER,
    script: "\
step 0\nstep 0\nstep 0\nstep 0\nstep 0\nedge 0\nreport 0\ndeliver 1\nvalidate\n",
    console: "A",
    report: "\
1 step 0: retired
2 step 0: retired
3 step 0: retired
4 step 0: retired
5 step 0: retired
6 edge 0: edged 1
7 report 0: reported 1
  msg 1 ready 0 0 1 1
8 deliver 1: delivered
9 validate: validated 1
  msg 2 advance 0 0 1 1
events 9
point 1
committed 5
released 1
core 0 80000010 exited 65 x10=00000041 x17=0000005d
",
    looks: &[(Look::IsOver, 1), (Look::Pending, 0)],
};
