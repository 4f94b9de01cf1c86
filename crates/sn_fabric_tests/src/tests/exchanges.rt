//! Exchanges about block 0: for each the nodes of the machine, the program, and in parts the script, what a replay puts of its events,
//! and what is seen then.
//!
//! Block 0 has the program's words, and its word at 80000030 may be written. Its home is node 0.
use super::{Look, Part, Schedule};

/// The first core stores 7 to the word at 80000030, and reads it and the first word; the others reserve the first word, and read that one.
pub const WRITER: &str =
    "800002b7\n00700313\n00051a63\n0262a823\n0302a383\n0002ae03\n0000006f\n1002ae2f\n0302a383\nff9ff06f\n";

/// Each core reserves the first word and reads that one, again and again, but the others than the first store 7 in between.
pub const SECOND_WRITER: &str =
    "800002b7\n00700313\n1002ae2f\n0302a383\nfe050ce3\n0262a823\nff1ff06f\n";

/// The first core asks to write and waits, so it is refused an eviction; the second asks to read, and its request is lost.
pub const ASKS_HOME: Schedule = Schedule {
    nodes: 2,
    program: WRITER,
    node: 0,
    parts: &[
        Part {
            script: "\
step 0\nstep 0\nstep 0\nstep 0\nstep 0\nevict 0 0\nevict 1 0\nhop 1\nstep 1\nstep 1\nstep 1\nstep 1\n",
            report: "\
1 step 0: retired
2 step 0: retired
3 step 0: retired
4 step 0: missed
  msg 1 getm 0 0 0 0
5 step 0: waits
6 evict 0 0: missopen
7 evict 1 0: notcached
8 hop 1: arrived
9 step 1: retired
10 step 1: retired
11 step 1: retired
12 step 1: missed
  msg 2 gets 1 0 0 0
",
            looks: &[(Look::HasMiss, 1), (Look::InFlight, 2)],
        },
        Part {
            script: "\
hop 2\nlose 2\nlose 2\n",
            report: "\
13 hop 2: hopped
14 lose 2: lost
15 lose 2: nomessage
",
            looks: &[(Look::InFlight, 1)],
        },
    ],
};

/// Nobody else has the block that the second core reads. The next checkpoint is validated then.
pub const READ_ALONE: Schedule = Schedule {
    nodes: 2,
    program: WRITER,
    node: 1,
    parts: &[
        Part {
            script: "\
step 1\nstep 1\nstep 1\nstep 1\nhop 1\ndeliver 1\nhop 2\ndeliver 2\nhop 3\ndeliver 3\nstep 1\ndeliver 3\n",
            report: "\
1 step 1: retired
2 step 1: retired
3 step 1: retired
4 step 1: missed
  msg 1 gets 1 0 0 0
5 hop 1: hopped
6 deliver 1: delivered
  msg 2 datae 0 1 0 0
7 hop 2: hopped
8 deliver 2: delivered
  msg 3 unblock 1 0 0 0 fixed 0
9 hop 3: hopped
10 deliver 3: delivered
11 step 1: retired
12 deliver 3: nomessage
",
            looks: &[(Look::X28(1), 0x8000_02b7), (Look::IsCutAtHome, 1)],
        },
        Part {
            script: "\
edge 0\nedge 1\nreport 0\nreport 1\ndeliver 4\nhop 5\ndeliver 5\nvalidate\n",
            report: "\
13 edge 0: edged 1
14 edge 1: edged 1
15 report 0: reported 1
  msg 4 ready 0 0 1 1
16 report 1: reported 1
  msg 5 ready 1 0 1 1
17 deliver 4: delivered
18 hop 5: hopped
19 deliver 5: delivered
20 validate: validated 1
  msg 6 advance 0 0 1 1
  msg 7 advance 0 1 1 1
",
            looks: &[(Look::IsCutOwner(1), 1)],
        },
    ],
};

/// The second core's read: it asks, is answered, and has the answer.
pub const READ_IN_PARTS: Schedule = Schedule {
    nodes: 2,
    program: WRITER,
    node: 1,
    parts: &[
        Part {
            script: "\
step 1\nstep 1\nstep 1\nstep 1\n",
            report: "\
1 step 1: retired
2 step 1: retired
3 step 1: retired
4 step 1: missed
  msg 1 gets 1 0 0 0
",
            looks: &[
                (Look::HasLine, 0),
                (Look::HasMiss, 1),
                (Look::HasPut, 0),
                (Look::Logged, 0),
                (Look::IsAtHome, 1),
                (Look::Sharers, 0),
                (Look::Serves(1), 0),
            ],
        },
        Part {
            script: "\
hop 1\ndeliver 1\n",
            report: "\
5 hop 1: hopped
6 deliver 1: delivered
  msg 2 datae 0 1 0 0
",
            looks: &[
                (Look::IsOwner(1), 1),
                (Look::Sharers, 0),
                (Look::Serves(1), 1),
            ],
        },
        Part {
            script: "\
hop 2\ndeliver 2\n",
            report: "\
7 hop 2: hopped
8 deliver 2: delivered
  msg 3 unblock 1 0 0 0 fixed 0
",
            looks: &[
                (Look::HasLine, 1),
                (Look::HasMiss, 0),
                (Look::HasPut, 0),
                (Look::Logged, 1),
            ],
        },
    ],
};

/// The second core has the block alone, the others share it, each with a reservation, and the first writes. One acknowledgement comes
/// before the block, another after it.
pub const TAKEN_FROM_ALL: Schedule = Schedule {
    nodes: 4,
    program: WRITER,
    node: 0,
    parts: &[
        Part {
            script: "\
step 1\nstep 1\nstep 1\nstep 1\nhop 1\ndeliver 1\nhop 2\ndeliver 2\nhop 3\ndeliver 3\nstep 1\nstep 2\nstep 2\n\
step 2\nstep 2\nhop 4\ndeliver 4\nhop 5\ndeliver 5\nhop 6\nhop 6\nhop 6\ndeliver 6\nhop 7\ndeliver 7\nstep 2\n\
step 3\nstep 3\nstep 3\nstep 3\nhop 8\nhop 8\nhop 8\ndeliver 8\nhop 9\ndeliver 9\nhop 10\ndeliver 10\nhop 11\n\
hop 11\nhop 11\ndeliver 11\nstep 3\n",
            report: "\
1 step 1: retired
2 step 1: retired
3 step 1: retired
4 step 1: missed
  msg 1 gets 1 0 0 0
5 hop 1: hopped
6 deliver 1: delivered
  msg 2 datae 0 1 0 0
7 hop 2: hopped
8 deliver 2: delivered
  msg 3 unblock 1 0 0 0 fixed 0
9 hop 3: hopped
10 deliver 3: delivered
11 step 1: retired
12 step 2: retired
13 step 2: retired
14 step 2: retired
15 step 2: missed
  msg 4 gets 2 0 0 0
16 hop 4: hopped
17 deliver 4: delivered
  msg 5 fwdgets 0 1 0 0 req 2
18 hop 5: hopped
19 deliver 5: delivered
  msg 6 datas 1 2 0 0
20 hop 6: hopped
21 hop 6: hopped
22 hop 6: hopped
23 deliver 6: delivered
  msg 7 unblock 2 0 0 0 fixed 0
24 hop 7: hopped
25 deliver 7: delivered
26 step 2: retired
27 step 3: retired
28 step 3: retired
29 step 3: retired
30 step 3: missed
  msg 8 gets 3 0 0 0
31 hop 8: hopped
32 hop 8: hopped
33 hop 8: hopped
34 deliver 8: delivered
  msg 9 fwdgets 0 1 0 0 req 3
35 hop 9: hopped
36 deliver 9: delivered
  msg 10 datas 1 3 0 0
37 hop 10: hopped
38 deliver 10: delivered
  msg 11 unblock 3 0 0 0 fixed 0
39 hop 11: hopped
40 hop 11: hopped
41 hop 11: hopped
42 deliver 11: delivered
43 step 3: retired
",
            looks: &[
                (Look::X28(2), 0x8000_02b7),
                (Look::X28(3), 0x8000_02b7),
                (Look::Sharers, 2),
                (Look::IsReserved(1), 1),
                (Look::IsReserved(2), 1),
                (Look::IsReserved(3), 1),
            ],
        },
        Part {
            script: "\
step 0\nstep 0\nstep 0\nstep 0\ndeliver 12\nhop 15\nhop 15\nhop 15\ndeliver 15\n",
            report: "\
44 step 0: retired
45 step 0: retired
46 step 0: retired
47 step 0: missed
  msg 12 getm 0 0 0 0
48 deliver 12: delivered
  msg 13 fwdgetm 0 1 0 0 req 0 acks 2
  msg 14 inv 0 2 0 0 req 0
  msg 15 inv 0 3 0 0 req 0
49 hop 15: hopped
50 hop 15: hopped
51 hop 15: hopped
52 deliver 15: delivered
  msg 16 invack 3 0 0 0
",
            looks: &[
                (Look::Sharers, 0),
                (Look::IsReserved(1), 1),
                (Look::IsReserved(2), 1),
                (Look::IsReserved(3), 0),
            ],
        },
        Part {
            script: "\
hop 16\nhop 16\nhop 16\ndeliver 16\nhop 13\ndeliver 13\n",
            report: "\
53 hop 16: hopped
54 hop 16: hopped
55 hop 16: hopped
56 deliver 16: delivered
57 hop 13: hopped
58 deliver 13: delivered
  msg 17 datam 1 0 0 0 acks 2
",
            looks: &[(Look::IsReserved(1), 0), (Look::IsReserved(2), 1)],
        },
        Part {
            script: "\
hop 17\ndeliver 17\nhop 14\ndeliver 14\n",
            report: "\
59 hop 17: hopped
60 deliver 17: delivered
61 hop 14: hopped
62 deliver 14: delivered
  msg 18 invack 2 0 0 0
",
            looks: &[(Look::IsReserved(2), 0), (Look::HasMiss, 1)],
        },
        Part {
            script: "\
hop 18\ndeliver 18\ndeliver 19\nstep 0\nstep 0\nstep 0\n",
            report: "\
63 hop 18: hopped
64 deliver 18: delivered
  msg 19 unblock 0 0 0 0 fixed 0
65 deliver 19: delivered
66 step 0: retired
67 step 0: retired
68 step 0: retired
",
            looks: &[(Look::X7, 7), (Look::X28(0), 0x8000_02b7)],
        },
    ],
};

/// The second core writes into the block that it has alone, reserves it and gives it back; the first finds what it wrote at the home.
pub const PUT_BACK: Schedule = Schedule {
    nodes: 2,
    program: SECOND_WRITER,
    node: 0,
    parts: &[
        Part {
            script: "\
step 1\nstep 1\nstep 1\nhop 1\ndeliver 1\nhop 2\ndeliver 2\nhop 3\ndeliver 3\nstep 1\nstep 1\nstep 1\nstep 1\n\
evict 1 0\nhop 4\ndeliver 4\n",
            report: "\
1 step 1: retired
2 step 1: retired
3 step 1: missed
  msg 1 gets 1 0 0 0
4 hop 1: hopped
5 deliver 1: delivered
  msg 2 datae 0 1 0 0
6 hop 2: hopped
7 deliver 2: delivered
  msg 3 unblock 1 0 0 0 fixed 0
8 hop 3: hopped
9 deliver 3: delivered
10 step 1: retired
11 step 1: retired
12 step 1: retired
13 step 1: retired
14 evict 1 0: putbegun
  msg 4 putreq 1 0 0 0
15 hop 4: hopped
16 deliver 4: delivered
  msg 5 putgo 0 1 0 0
",
            looks: &[(Look::IsReserved(1), 1), (Look::IsOwner(1), 1)],
        },
        Part {
            script: "\
hop 5\ndeliver 5\n",
            report: "\
17 hop 5: hopped
18 deliver 5: delivered
  msg 6 putdata 1 0 0 0
",
            looks: &[(Look::IsReserved(1), 0)],
        },
        Part {
            script: "\
hop 6\ndeliver 6\nstep 0\nstep 0\nstep 0\ndeliver 7\n",
            report: "\
19 hop 6: hopped
20 deliver 6: delivered
21 step 0: retired
22 step 0: retired
23 step 0: missed
  msg 7 gets 0 0 0 0
24 deliver 7: delivered
  msg 8 datae 0 0 0 0
",
            looks: &[(Look::IsOwner(0), 1)],
        },
        Part {
            script: "\
deliver 8\nstep 0\nstep 0\n",
            report: "\
25 deliver 8: delivered
  msg 9 unblock 0 0 0 0 fixed 0
26 step 0: retired
27 step 0: retired
",
            looks: &[(Look::X7, 7), (Look::X28(0), 0x8000_02b7)],
        },
    ],
};

/// The first core's write goes before the second core's wish to give the block back.
pub const LATE_PUT: Schedule = Schedule {
    nodes: 2,
    program: WRITER,
    node: 0,
    parts: &[
        Part {
            script: "\
step 1\nstep 1\nstep 1\nstep 1\nhop 1\ndeliver 1\nhop 2\ndeliver 2\nhop 3\ndeliver 3\nstep 1\nstep 0\nstep 0\n\
step 0\nstep 0\nevict 1 0\ndeliver 4\nhop 5\ndeliver 5\n",
            report: "\
1 step 1: retired
2 step 1: retired
3 step 1: retired
4 step 1: missed
  msg 1 gets 1 0 0 0
5 hop 1: hopped
6 deliver 1: delivered
  msg 2 datae 0 1 0 0
7 hop 2: hopped
8 deliver 2: delivered
  msg 3 unblock 1 0 0 0 fixed 0
9 hop 3: hopped
10 deliver 3: delivered
11 step 1: retired
12 step 0: retired
13 step 0: retired
14 step 0: retired
15 step 0: missed
  msg 4 getm 0 0 0 0
16 evict 1 0: putbegun
  msg 5 putreq 1 0 0 0
17 deliver 4: delivered
  msg 6 fwdgetm 0 1 0 0 req 0 acks 0
18 hop 5: hopped
19 deliver 5: homebusy
",
            looks: &[(Look::IsReserved(1), 1)],
        },
        Part {
            script: "\
hop 6\ndeliver 6\n",
            report: "\
20 hop 6: hopped
21 deliver 6: delivered
  msg 7 datam 1 0 0 0 acks 0
",
            looks: &[(Look::IsReserved(1), 0)],
        },
        Part {
            script: "\
hop 7\ndeliver 7\ndeliver 8\ndeliver 5\nhop 9\ndeliver 9\n",
            report: "\
22 hop 7: hopped
23 deliver 7: delivered
  msg 8 unblock 0 0 0 0 fixed 0
24 deliver 8: delivered
25 deliver 5: delivered
  msg 9 putdone 0 1 0 0
26 hop 9: hopped
27 deliver 9: delivered
",
            looks: &[(Look::InFlight, 0)],
        },
    ],
};

/// Two nodes read at once.
pub const WAITING_REQUEST: Schedule = Schedule {
    nodes: 4,
    program: WRITER,
    node: 0,
    parts: &[Part {
        script: "\
step 2\nstep 2\nstep 2\nstep 2\nstep 3\nstep 3\nstep 3\nstep 3\ndeliver 2\nhop 1\ndeliver 1\nhop 2\nhop 2\n\
hop 2\ndeliver 2\nhop 3\ndeliver 3\nhop 4\ndeliver 4\ndeliver 2\n",
        report: "\
1 step 2: retired
2 step 2: retired
3 step 2: retired
4 step 2: missed
  msg 1 gets 2 0 0 0
5 step 3: retired
6 step 3: retired
7 step 3: retired
8 step 3: missed
  msg 2 gets 3 0 0 0
9 deliver 2: notarrived
10 hop 1: hopped
11 deliver 1: delivered
  msg 3 datae 0 2 0 0
12 hop 2: hopped
13 hop 2: hopped
14 hop 2: hopped
15 deliver 2: homebusy
16 hop 3: hopped
17 deliver 3: delivered
  msg 4 unblock 2 0 0 0 fixed 0
18 hop 4: hopped
19 deliver 4: delivered
20 deliver 2: delivered
  msg 5 fwdgets 0 2 0 0 req 3
",
        looks: &[(Look::InFlight, 1)],
    }],
};
