//! A block that goes from one cache to another, across checkpoints and with messages lost on the way.
use super::programs::{COPY, COUNT};
use super::{Look, Schedule};

/// The first node asks for the block and adds 1 to its word.
pub const FIRST_ADDS: Schedule = Schedule {
    nodes: 2,
    log: 256,
    program: COUNT,
    script: "\
step 0\nstep 0\nstep 0\nstep 0\ndeliver 1\ndeliver 2\ndeliver 3\nstep 0\n",
    console: "",
    report: "\
1 step 0: retired
2 step 0: retired
3 step 0: missed
  msg 1 getm 0 0 0 64
4 step 0: waits
5 deliver 1: delivered
  msg 2 datam 0 0 0 64 acks 0
6 deliver 2: delivered
  msg 3 unblock 0 0 0 64 fixed 0
7 deliver 3: delivered
8 step 0: retired
events 8
point 0
committed 0
released 0
core 0 80000000 running
core 1 80000000 running x10=00000001
",
    looks: &[
        (Look::HasLine, 1),
        (Look::HasMiss, 0),
        (Look::HasPut, 0),
        (Look::Logged, 2),
        (Look::IsOwner(0), 1),
        (Look::Sharers, 0),
        (Look::IsServing, 0),
    ],
};

/// Then it begins to give the block up; the other node has none to give up.
pub const PUT_BEGUN: Schedule = Schedule {
    nodes: 2,
    log: 256,
    program: COUNT,
    script: "\
step 0\nstep 0\nstep 0\nstep 0\ndeliver 1\ndeliver 2\ndeliver 3\nstep 0\nevict 1 64\nevict 0 64\n\
evict 0 64\n",
    console: "",
    report: "\
1 step 0: retired
2 step 0: retired
3 step 0: missed
  msg 1 getm 0 0 0 64
4 step 0: waits
5 deliver 1: delivered
  msg 2 datam 0 0 0 64 acks 0
6 deliver 2: delivered
  msg 3 unblock 0 0 0 64 fixed 0
7 deliver 3: delivered
8 step 0: retired
9 evict 1 64: notcached
10 evict 0 64: putbegun
  msg 4 putreq 0 0 0 64
11 evict 0 64: putopen
events 11
point 0
committed 0
released 0
core 0 80000000 running
core 1 80000000 running x10=00000001
",
    looks: &[
        (Look::HasLine, 1),
        (Look::HasMiss, 0),
        (Look::HasPut, 1),
        (Look::Logged, 2),
    ],
};

/// Both nodes add 1 to the word, and a recovery to the checkpoint after that keeps both.
pub const BOTH_ADD: Schedule = Schedule {
    nodes: 2,
    log: 256,
    program: COUNT,
    script: "\
step 0\nstep 0\nstep 0\nstep 0\ndeliver 1\ndeliver 2\ndeliver 3\nstep 0\nstep 1\nstep 1\nstep 1\n\
deliver 4\nhop 4\ndeliver 4\ndeliver 5\nhop 6\ndeliver 6\nhop 7\ndeliver 7\nstep 1\nedge 0\nedge 1\n\
report 0\nreport 1\ndeliver 8\nhop 9\ndeliver 9\nvalidate\nrecover\n",
    console: "",
    report: "\
1 step 0: retired
2 step 0: retired
3 step 0: missed
  msg 1 getm 0 0 0 64
4 step 0: waits
5 deliver 1: delivered
  msg 2 datam 0 0 0 64 acks 0
6 deliver 2: delivered
  msg 3 unblock 0 0 0 64 fixed 0
7 deliver 3: delivered
8 step 0: retired
9 step 1: retired
10 step 1: retired
11 step 1: missed
  msg 4 getm 1 0 0 64
12 deliver 4: notarrived
13 hop 4: hopped
14 deliver 4: delivered
  msg 5 fwdgetm 0 0 0 64 req 1 acks 0
15 deliver 5: delivered
  msg 6 datam 0 1 0 64 acks 0
16 hop 6: hopped
17 deliver 6: delivered
  msg 7 unblock 1 0 0 64 fixed 0
18 hop 7: hopped
19 deliver 7: delivered
20 step 1: retired
21 edge 0: edged 1
22 edge 1: edged 1
23 report 0: reported 1
  msg 8 ready 0 0 1 1
24 report 1: reported 1
  msg 9 ready 1 0 1 1
25 deliver 8: delivered
26 hop 9: hopped
27 deliver 9: delivered
28 validate: validated 1
  msg 10 advance 0 0 1 1
  msg 11 advance 0 1 1 1
29 recover: recovered 1 undone 0 dropped 2
  core 0 8000000c running x5=80001000 x6=00000001
  core 1 8000000c running x5=80001000 x6=00000001 x7=00000001 x10=00000001
events 29
point 1
committed 6
released 0
core 0 8000000c running x5=80001000 x6=00000001
core 1 8000000c running x5=80001000 x6=00000001 x7=00000001 x10=00000001
",
    looks: &[
        (Look::InFlight, 0),
        (Look::Sent, 0),
        (Look::CutWord, 2),
        (Look::IsCutOwner(1), 1),
        (Look::Known, 1),
    ],
};

/// The home answers in its interval 2, and the node that asked is in interval 0.
pub const HELD_TRANSFER: Schedule = Schedule {
    nodes: 2,
    log: 256,
    program: COUNT,
    script: "\
step 1\nstep 1\nstep 1\nhop 1\nedge 0\nedge 0\ndeliver 1\nhop 2\ndeliver 2\nedge 1\ndeliver 2\n\
edge 1\ndeliver 2\n",
    console: "",
    report: "\
1 step 1: retired
2 step 1: retired
3 step 1: missed
  msg 1 getm 1 0 0 64
4 hop 1: hopped
5 edge 0: edged 1
6 edge 0: edged 2
7 deliver 1: delivered
  msg 2 datam 0 1 2 64 acks 0
8 hop 2: hopped
9 deliver 2: held
10 edge 1: edged 1
11 deliver 2: held
12 edge 1: edged 2
13 deliver 2: delivered
  msg 3 unblock 1 0 2 64 fixed 2
events 13
point 0
committed 0
released 0
core 0 80000000 running
core 1 80000000 running x10=00000001
",
    looks: &[(Look::InFlight, 1)],
};

/// A transfer begins in one interval and ends in the next, and a recovery finds the block at its new owner.
pub const ACROSS_INTERVALS: Schedule = Schedule {
    nodes: 2,
    log: 256,
    program: COUNT,
    script: "\
step 1\nstep 1\nstep 1\nhop 1\ndeliver 1\nedge 1\nhop 2\ndeliver 2\nhop 3\ndeliver 3\nedge 0\n\
deliver 3\nreport 0\ndeliver 4\nreport 1\nhop 5\ndeliver 5\nvalidate\nrecover\nstep 1\n",
    console: "",
    report: "\
1 step 1: retired
2 step 1: retired
3 step 1: missed
  msg 1 getm 1 0 0 64
4 hop 1: hopped
5 deliver 1: delivered
  msg 2 datam 0 1 0 64 acks 0
6 edge 1: edged 1
7 hop 2: hopped
8 deliver 2: delivered
  msg 3 unblock 1 0 1 64 fixed 0
9 hop 3: hopped
10 deliver 3: held
11 edge 0: edged 1
12 deliver 3: delivered
13 report 0: reported 1
  msg 4 ready 0 0 1 1
14 deliver 4: delivered
15 report 1: reported 1
  msg 5 ready 1 0 1 1
16 hop 5: hopped
17 deliver 5: delivered
18 validate: validated 1
  msg 6 advance 0 0 1 1
  msg 7 advance 0 1 1 1
19 recover: recovered 1 undone 0 dropped 2
  core 0 80000000 running
  core 1 80000008 running x5=80001000 x6=00000001 x10=00000001
20 step 1: retired
events 20
point 1
committed 2
released 0
core 0 80000000 running
core 1 80000008 running x5=80001000 x6=00000001 x10=00000001
",
    looks: &[(Look::InFlight, 0)],
};

/// The message that carries the block is lost.
pub const LOST_TRANSFER: Schedule = Schedule {
    nodes: 2,
    log: 256,
    program: COUNT,
    script: "\
step 1\nstep 1\nstep 1\nhop 1\ndeliver 1\nedge 1\nlose 2\nedge 0\nreport 0\ndeliver 3\nreport 1\n\
hop 4\ndeliver 4\nvalidate\nrecover\n",
    console: "",
    report: "\
1 step 1: retired
2 step 1: retired
3 step 1: missed
  msg 1 getm 1 0 0 64
4 hop 1: hopped
5 deliver 1: delivered
  msg 2 datam 0 1 0 64 acks 0
6 edge 1: edged 1
7 lose 2: lost
8 edge 0: edged 1
9 report 0: reported 0
  msg 3 ready 0 0 1 0
10 deliver 3: delivered
11 report 1: reported 0
  msg 4 ready 1 0 1 0
12 hop 4: hopped
13 deliver 4: delivered
14 validate: notready 0
15 recover: recovered 0 undone 1 dropped 0
  core 0 80000000 running
  core 1 80000000 running x10=00000001
events 15
point 0
committed 0
released 0
core 0 80000000 running
core 1 80000000 running x10=00000001
",
    looks: &[(Look::Logged, 0)],
};

/// The message that ends a transaction is lost.
pub const LOST_UNBLOCK: Schedule = Schedule {
    nodes: 2,
    log: 256,
    program: COUNT,
    script: "\
step 1\nstep 1\nstep 1\nhop 1\ndeliver 1\nedge 1\nhop 2\ndeliver 2\nlose 3\nedge 0\nreport 0\n\
deliver 4\nreport 1\nhop 5\ndeliver 5\nvalidate\nrecover\n",
    console: "",
    report: "\
1 step 1: retired
2 step 1: retired
3 step 1: missed
  msg 1 getm 1 0 0 64
4 hop 1: hopped
5 deliver 1: delivered
  msg 2 datam 0 1 0 64 acks 0
6 edge 1: edged 1
7 hop 2: hopped
8 deliver 2: delivered
  msg 3 unblock 1 0 1 64 fixed 0
9 lose 3: lost
10 edge 0: edged 1
11 report 0: reported 0
  msg 4 ready 0 0 1 0
12 deliver 4: delivered
13 report 1: reported 1
  msg 5 ready 1 0 1 1
14 hop 5: hopped
15 deliver 5: delivered
16 validate: notready 0
17 recover: recovered 0 undone 2 dropped 0
  core 0 80000000 running
  core 1 80000000 running x10=00000001
events 17
point 0
committed 0
released 0
core 0 80000000 running
core 1 80000000 running x10=00000001
",
    looks: &[(Look::Logged, 0)],
};

/// A read of a block that nobody has, a store to it, and another read.
pub const EXCLUSIVE_READ: Schedule = Schedule {
    nodes: 2,
    log: 256,
    program: COPY,
    script: "\
step 0\nstep 0\ndeliver 1\ndeliver 2\ndeliver 3\nstep 0\nstep 0\nstep 1\nstep 1\nhop 4\ndeliver 4\n\
deliver 5\n",
    console: "",
    report: "\
1 step 0: retired
2 step 0: missed
  msg 1 gets 0 0 0 64
3 deliver 1: delivered
  msg 2 datae 0 0 0 64
4 deliver 2: delivered
  msg 3 unblock 0 0 0 64 fixed 0
5 deliver 3: delivered
6 step 0: retired
7 step 0: retired
8 step 1: retired
9 step 1: missed
  msg 4 gets 1 0 0 64
10 hop 4: hopped
11 deliver 4: delivered
  msg 5 fwdgets 0 0 0 64 req 1
12 deliver 5: delivered
  msg 6 datas 0 1 0 64
events 12
point 0
committed 0
released 0
core 0 80000000 running
core 1 80000000 running x10=00000001
",
    looks: &[(Look::Nodes, 2), (Look::LogRoom, 256)],
};
