//! A load-reserved and its store-conditional, and what comes between them.
use super::programs::RESERVE;
use super::{Look, Schedule};

/// Another core gets the block between a load-reserved and its store-conditional.
pub const LOST_RESERVATION: Schedule = Schedule {
    nodes: 2,
    log: 256,
    program: RESERVE,
    script: "\
step 0\nstep 0\nstep 0\ndeliver 1\ndeliver 2\ndeliver 3\nstep 0\nstep 1\nstep 1\nstep 1\nhop 4\n\
deliver 4\ndeliver 5\nhop 6\ndeliver 6\nhop 7\ndeliver 7\nstep 0\n",
    console: "",
    report: "\
1 step 0: retired
2 step 0: retired
3 step 0: missed
  msg 1 gets 0 0 0 64
4 deliver 1: delivered
  msg 2 datae 0 0 0 64
5 deliver 2: delivered
  msg 3 unblock 0 0 0 64 fixed 0
6 deliver 3: delivered
7 step 0: retired
8 step 1: retired
9 step 1: retired
10 step 1: missed
  msg 4 getm 1 0 0 64
11 hop 4: hopped
12 deliver 4: delivered
  msg 5 fwdgetm 0 0 0 64 req 1 acks 0
13 deliver 5: delivered
  msg 6 datam 0 1 0 64 acks 0
14 hop 6: hopped
15 deliver 6: delivered
  msg 7 unblock 1 0 0 64 fixed 0
16 hop 7: hopped
17 deliver 7: delivered
18 step 0: retired
events 18
point 0
committed 0
released 0
core 0 80000000 running
core 1 80000000 running x10=00000001
",
    looks: &[(Look::X7, 1)],
};

/// A checkpoint stands between a load-reserved and its store-conditional.
pub const RESERVATION_AT_EDGE: Schedule = Schedule {
    nodes: 1,
    log: 256,
    program: RESERVE,
    script: "\
step 0\nstep 0\nstep 0\ndeliver 1\ndeliver 2\ndeliver 3\nstep 0\nedge 0\nstep 0\nedge 0\nreport 0\n\
deliver 4\nvalidate\nvalidate\nrecover\n",
    console: "",
    report: "\
1 step 0: retired
2 step 0: retired
3 step 0: missed
  msg 1 gets 0 0 0 64
4 deliver 1: delivered
  msg 2 datae 0 0 0 64
5 deliver 2: delivered
  msg 3 unblock 0 0 0 64 fixed 0
6 deliver 3: delivered
7 step 0: retired
8 edge 0: edged 1
9 step 0: retired
10 edge 0: edged 2
11 report 0: reported 2
  msg 4 ready 0 0 2 2
12 deliver 4: delivered
13 validate: validated 1
  msg 5 advance 0 0 2 1
14 validate: validated 2
  msg 6 advance 0 0 2 2
15 recover: recovered 2 undone 0 dropped 2
  core 0 80000010 running x5=80001000 x7=00000001
events 15
point 2
committed 4
released 0
core 0 80000010 running x5=80001000 x7=00000001
",
    looks: &[(Look::X7, 1)],
};

/// Nobody stores between a load-reserved and its store-conditional.
pub const KEPT_RESERVATION: Schedule = Schedule {
    nodes: 2,
    log: 256,
    program: RESERVE,
    script: "\
step 1\nstep 1\nstep 1\nhop 1\ndeliver 1\nhop 2\ndeliver 2\nhop 3\ndeliver 3\nstep 1\nstep 0\n\
step 0\nstep 0\ndeliver 4\nhop 5\ndeliver 5\nhop 6\ndeliver 6\ndeliver 7\nstep 0\nstep 0\n\
deliver 8\nhop 9\ndeliver 9\nhop 10\ndeliver 10\ndeliver 11\nstep 0\n",
    console: "",
    report: "\
1 step 1: retired
2 step 1: retired
3 step 1: missed
  msg 1 getm 1 0 0 64
4 hop 1: hopped
5 deliver 1: delivered
  msg 2 datam 0 1 0 64 acks 0
6 hop 2: hopped
7 deliver 2: delivered
  msg 3 unblock 1 0 0 64 fixed 0
8 hop 3: hopped
9 deliver 3: delivered
10 step 1: retired
11 step 0: retired
12 step 0: retired
13 step 0: missed
  msg 4 gets 0 0 0 64
14 deliver 4: delivered
  msg 5 fwdgets 0 1 0 64 req 0
15 hop 5: hopped
16 deliver 5: delivered
  msg 6 datas 1 0 0 64
17 hop 6: hopped
18 deliver 6: delivered
  msg 7 unblock 0 0 0 64 fixed 0
19 deliver 7: delivered
20 step 0: retired
21 step 0: missed
  msg 8 getm 0 0 0 64
22 deliver 8: delivered
  msg 9 fwdgetm 0 1 0 64 req 0 acks 0
23 hop 9: hopped
24 deliver 9: delivered
  msg 10 datam 1 0 0 64 acks 0
25 hop 10: hopped
26 deliver 10: delivered
  msg 11 unblock 0 0 0 64 fixed 0
27 deliver 11: delivered
28 step 0: retired
events 28
point 0
committed 0
released 0
core 0 80000000 running
core 1 80000000 running x10=00000001
",
    looks: &[(Look::X7, 0), (Look::IsLastDone, 1)],
};
