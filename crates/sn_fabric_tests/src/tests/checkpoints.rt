//! Intervals, reports, recovery points and recoveries, in the same form.
use super::exchanges::WRITER;
use super::{Look, Part, Schedule};

/// Each core stores 7 to that word, and then reads block 1.
pub const TWO_BLOCKS: &str = "800002b7\n00700313\n0262a823\n0402a383\nff9ff06f\n";

/// Each core stores 7, 9, 11 .. to that word, and reads it each time.
pub const COUNTER: &str = "800002b7\n00700313\n0262a823\n0302a383\n00230313\nff5ff06f\n";

/// A report is on its way to the switch that dies, and another would begin there.
pub const DEAD_SWITCH: Schedule = Schedule {
    nodes: 4,
    program: WRITER,
    node: 0,
    parts: &[Part {
        script: "\
report 1\nkill a0\nhop 1\nreport 0\nkill a0\n",
        report: "\
1 report 1: reported 0
  msg 1 ready 1 0 0 0
2 kill a0: killed
3 hop 1: lostindead
4 report 0: reported 0
  msg 2 ready 0 0 0 0 lost
5 kill a0: alreadydead
",
        looks: &[(Look::InFlight, 0)],
    }],
};

/// A node goes on to its interval 2 with a miss that is open since interval 1.
pub const OPEN_MISS: Schedule = Schedule {
    nodes: 2,
    program: WRITER,
    node: 1,
    parts: &[Part {
        script: "\
edge 1\nstep 1\nstep 1\nstep 1\nstep 1\nedge 1\nreport 1\n",
        report: "\
1 edge 1: edged 1
2 step 1: retired
3 step 1: retired
4 step 1: retired
5 step 1: missed
  msg 1 gets 1 0 1 0
6 edge 1: edged 2
7 report 1: reported 1
  msg 2 ready 1 0 2 1
",
        looks: &[
            (Look::Interval, 2),
            (Look::Ready, 1),
            (Look::CanEvict, 0),
            (Look::IsCutAtHome, 1),
        ],
    }],
};

/// None of the four checkpoints is validated.
pub const FOUR_EDGES: Schedule = Schedule {
    nodes: 1,
    program: WRITER,
    node: 0,
    parts: &[Part {
        script: "\
edge 0\nedge 0\nedge 0\nedge 0\nedge 0\n",
        report: "\
1 edge 0: edged 1
2 edge 0: edged 2
3 edge 0: edged 3
4 edge 0: edged 4
5 edge 0: checkpointsfull
",
        looks: &[(Look::Interval, 4)],
    }],
};

/// The node that asks is an interval ahead of the home.
pub const HELD_REQUEST: Schedule = Schedule {
    nodes: 2,
    program: WRITER,
    node: 0,
    parts: &[
        Part {
            script: "\
edge 1\nstep 1\nstep 1\nstep 1\nstep 1\nhop 1\ndeliver 1\n",
            report: "\
1 edge 1: edged 1
2 step 1: retired
3 step 1: retired
4 step 1: retired
5 step 1: missed
  msg 1 gets 1 0 1 0
6 hop 1: hopped
7 deliver 1: held
",
            looks: &[(Look::InFlight, 1)],
        },
        Part {
            script: "\
edge 0\ndeliver 1\n",
            report: "\
8 edge 0: edged 1
9 deliver 1: delivered
  msg 2 datae 0 1 1 0
",
            looks: &[(Look::InFlight, 1)],
        },
    ],
};

/// A core writes into block 0, and asks for block 1. It runs again after a recovery, and asks to write block 0 again.
pub const UNDONE: Schedule = Schedule {
    nodes: 2,
    program: TWO_BLOCKS,
    node: 1,
    parts: &[
        Part {
            script: "\
step 1\nstep 1\nstep 1\nhop 1\ndeliver 1\nhop 2\ndeliver 2\nstep 1\nhop 3\ndeliver 3\nstep 1\n",
            report: "\
1 step 1: retired
2 step 1: retired
3 step 1: missed
  msg 1 getm 1 0 0 0
4 hop 1: hopped
5 deliver 1: delivered
  msg 2 datam 0 1 0 0 acks 0
6 hop 2: hopped
7 deliver 2: delivered
  msg 3 unblock 1 0 0 0 fixed 0
8 step 1: retired
9 hop 3: hopped
10 deliver 3: delivered
11 step 1: missed
  msg 4 gets 1 1 0 1
",
            looks: &[
                (Look::CutFirstWord, 0x8000_02b7),
                (Look::CutWord, 0),
                (Look::IsCutAtHome, 1),
                (Look::InFlight, 1),
            ],
        },
        Part {
            script: "\
recover\n",
            report: "\
12 recover: recovered 0 undone 2 dropped 1
",
            looks: &[
                (Look::CutFirstWord, 0x8000_02b7),
                (Look::CutWord, 0),
                (Look::IsCutAtHome, 1),
                (Look::InFlight, 0),
            ],
        },
        Part {
            script: "\
step 1\nstep 1\nstep 1\n",
            report: "\
13 step 1: retired
14 step 1: retired
15 step 1: missed
  msg 5 getm 1 0 0 0
",
            looks: &[(Look::InFlight, 1)],
        },
    ],
};

/// The core writes 7 before a checkpoint that is validated, and 9 after it. It reads 7 again after a recovery, and goes four edges on
/// from the point.
pub const KEPT: Schedule = Schedule {
    nodes: 1,
    program: COUNTER,
    node: 0,
    parts: &[
        Part {
            script: "\
step 0\nstep 0\nstep 0\ndeliver 1\ndeliver 2\nstep 0\ndeliver 3\nedge 0\nreport 0\ndeliver 4\nvalidate\nstep 0\n\
step 0\nstep 0\nstep 0\nstep 0\n",
            report: "\
1 step 0: retired
2 step 0: retired
3 step 0: missed
  msg 1 getm 0 0 0 0
4 deliver 1: delivered
  msg 2 datam 0 0 0 0 acks 0
5 deliver 2: delivered
  msg 3 unblock 0 0 0 0 fixed 0
6 step 0: retired
7 deliver 3: delivered
8 edge 0: edged 1
9 report 0: reported 1
  msg 4 ready 0 0 1 1
10 deliver 4: delivered
11 validate: validated 1
  msg 5 advance 0 0 1 1
12 step 0: retired
13 step 0: retired
14 step 0: retired
15 step 0: retired
16 step 0: retired
",
            looks: &[(Look::CutWord, 7), (Look::IsCutOwner(0), 1), (Look::X7, 9)],
        },
        Part {
            script: "\
recover\nstep 0\nedge 0\nedge 0\nedge 0\nedge 0\nedge 0\n",
            report: "\
17 recover: recovered 1 undone 1 dropped 1
18 step 0: retired
19 edge 0: edged 2
20 edge 0: edged 3
21 edge 0: edged 4
22 edge 0: edged 5
23 edge 0: checkpointsfull
",
            looks: &[(Look::CutWord, 7), (Look::X7, 7)],
        },
    ],
};

/// Both switches of the second node die.
pub const CUT_OFF: Schedule = Schedule {
    nodes: 2,
    program: WRITER,
    node: 0,
    parts: &[Part {
        script: "\
step 0\nstep 0\nstep 0\nstep 0\nkill a1\nkill b1\nrecover\n",
        report: "\
1 step 0: retired
2 step 0: retired
3 step 0: retired
4 step 0: missed
  msg 1 getm 0 0 0 0
5 kill a1: killed
6 kill b1: killed
7 recover: cutoff 0 1
",
        looks: &[(Look::InFlight, 1), (Look::HasMiss, 1), (Look::Ready, 0)],
    }],
};

/// Both nodes report, the point rises, and the second node hears of it.
pub const HEARD: Schedule = Schedule {
    nodes: 2,
    program: WRITER,
    node: 1,
    parts: &[Part {
        script: "\
edge 0\nedge 1\nreport 0\nreport 1\ndeliver 1\nhop 2\ndeliver 2\nvalidate\nhop 4\ndeliver 4\ndeliver 4\n",
        report: "\
1 edge 0: edged 1
2 edge 1: edged 1
3 report 0: reported 1
  msg 1 ready 0 0 1 1
4 report 1: reported 1
  msg 2 ready 1 0 1 1
5 deliver 1: delivered
6 hop 2: hopped
7 deliver 2: delivered
8 validate: validated 1
  msg 3 advance 0 0 1 1
  msg 4 advance 0 1 1 1
9 hop 4: hopped
10 deliver 4: delivered
11 deliver 4: nomessage
",
        looks: &[(Look::InFlight, 1)],
    }],
};

/// A node is at its fourth edge when the point rises, and may go on once it has heard of that.
pub const HEARD_AND_GONE_ON: Schedule = Schedule {
    nodes: 1,
    program: WRITER,
    node: 0,
    parts: &[Part {
        script: "\
edge 0\nedge 0\nedge 0\nedge 0\nedge 0\nreport 0\ndeliver 1\nvalidate\nedge 0\ndeliver 2\nedge 0\nedge 0\n",
        report: "\
1 edge 0: edged 1
2 edge 0: edged 2
3 edge 0: edged 3
4 edge 0: edged 4
5 edge 0: checkpointsfull
6 report 0: reported 4
  msg 1 ready 0 0 4 4
7 deliver 1: delivered
8 validate: validated 1
  msg 2 advance 0 0 4 1
9 edge 0: checkpointsfull
10 deliver 2: delivered
11 edge 0: edged 5
12 edge 0: checkpointsfull
",
        looks: &[(Look::Interval, 5)],
    }],
};
