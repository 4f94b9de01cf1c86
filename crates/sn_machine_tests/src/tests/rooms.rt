//! Logs, checkpoints and the network that are full, and switches that are dead.
use super::programs::{BLOCKS, LETTER};
use super::{Look, Schedule};

/// A request comes to a home whose log is full.
pub const FULL_LOG: Schedule = Schedule {
    nodes: 1,
    log: 4,
    program: BLOCKS,
    script: "\
step 0\nstep 0\ndeliver 1\ndeliver 2\ndeliver 3\nstep 0\nstep 0\ndeliver 4\ndeliver 5\ndeliver 6\n\
step 0\nedge 0\nstep 0\ndeliver 7\nreport 0\ndeliver 8\nvalidate\ndeliver 9\ndeliver 7\ndeliver 10\n\
deliver 11\nstep 0\n",
    console: "",
    report: "\
1 step 0: retired
2 step 0: missed
  msg 1 getm 0 0 0 64
3 deliver 1: delivered
  msg 2 datam 0 0 0 64 acks 0
4 deliver 2: delivered
  msg 3 unblock 0 0 0 64 fixed 0
5 deliver 3: delivered
6 step 0: retired
7 step 0: missed
  msg 4 getm 0 0 0 65
8 deliver 4: delivered
  msg 5 datam 0 0 0 65 acks 0
9 deliver 5: delivered
  msg 6 unblock 0 0 0 65 fixed 0
10 deliver 6: delivered
11 step 0: retired
12 edge 0: edged 1
13 step 0: missed
  msg 7 getm 0 0 1 66
14 deliver 7: logfull
15 report 0: reported 1
  msg 8 ready 0 0 1 1
16 deliver 8: delivered
17 validate: validated 1
  msg 9 advance 0 0 1 1
18 deliver 9: delivered
19 deliver 7: delivered
  msg 10 datam 0 0 1 66 acks 0
20 deliver 10: delivered
  msg 11 unblock 0 0 1 66 fixed 1
21 deliver 11: delivered
22 step 0: retired
events 22
point 1
committed 3
released 0
core 0 8000000c running x5=80001000
",
    looks: &[(Look::Logged, 2)],
};

/// Five edges, and nothing is validated.
pub const FULL_CHECKPOINTS: Schedule = Schedule {
    nodes: 1,
    log: 256,
    program: LETTER,
    script: "\
edge 0\nedge 0\nedge 0\nedge 0\nedge 0\n",
    console: "",
    report: "\
1 edge 0: edged 1
2 edge 0: edged 2
3 edge 0: edged 3
4 edge 0: edged 4
5 edge 0: checkpointsfull
events 5
point 0
committed 0
released 0
core 0 80000000 running
",
    looks: &[(Look::IsOver, 0), (Look::Entry, 0x8000_0000)],
};

/// What follows an edge and 1,024 reports, all of which are in flight.
pub const FULL_NETWORK: Schedule = Schedule {
    nodes: 1,
    log: 256,
    program: LETTER,
    script: "report 0\ndeliver 1\nreport 0\nvalidate\nlose 2\nvalidate\n",
    console: "",
    report: "\
1026 report 0: netfull
1027 deliver 1: delivered
1028 report 0: reported 1
  msg 1025 ready 0 0 1 1
1029 validate: netfull
1030 lose 2: lost
1031 validate: validated 1
  msg 1026 advance 0 0 1 1
events 1031
point 1
committed 0
released 0
core 0 80000000 running
",
    looks: &[],
};

/// Messages are lost in a dead switch, as they come to it or at once; a recovery makes routes round it; without its second
/// switch a node is cut off.
pub const DEAD_SWITCH: Schedule = Schedule {
    nodes: 4,
    log: 256,
    program: LETTER,
    script: "\
report 1\nkill a0\nhop 1\nreport 0\nlose 2\nrecover\nreport 1\nhop 3\nhop 3\nhop 3\nhop 3\nhop 3\n\
hop 3\ndeliver 3\nkill b0\nrecover\nkill b0\n",
    console: "",
    report: "\
1 report 1: reported 0
  msg 1 ready 1 0 0 0
2 kill a0: killed
3 hop 1: lostindead
4 report 0: reported 0
  msg 2 ready 0 0 0 0 lost
5 lose 2: nomessage
6 recover: recovered 0 undone 0 dropped 0
  core 0 80000000 running
  core 1 80000000 running x10=00000001
  core 2 80000000 running x10=00000002
  core 3 80000000 running x10=00000003
7 report 1: reported 0
  msg 3 ready 1 0 0 0
8 hop 3: hopped
9 hop 3: hopped
10 hop 3: hopped
11 hop 3: hopped
12 hop 3: hopped
13 hop 3: arrived
14 deliver 3: delivered
15 kill b0: killed
16 recover: cutoff 0 0
17 kill b0: alreadydead
events 17
point 0
committed 0
released 0
core 0 80000000 running
core 1 80000000 running x10=00000001
core 2 80000000 running x10=00000002
core 3 80000000 running x10=00000003
",
    looks: &[(Look::IsCutOff, 1)],
};
