//! Values of options that don't fit.
use super::all_say;
use std::test::Fail;

const NUMBERS: &[(&str, &str)] = &[
    (
        "replay p s --nodes 17",
        "--nodes 17: a machine has 1 to 16 nodes",
    ),
    (
        "check p t --nodes 0",
        "--nodes 0: a machine has 1 to 16 nodes",
    ),
    (
        "replay p s --nodes=",
        "--nodes \"\": a machine has 1 to 16 nodes",
    ),
    (
        "replay p s --nodes ''",
        "--nodes \"\": a machine has 1 to 16 nodes",
    ),
    (
        "replay p s --nodes -1",
        "--nodes -1: a machine has 1 to 16 nodes",
    ),
    (
        "replay p s --nodes -",
        "--nodes -: a machine has 1 to 16 nodes",
    ),
    (
        "replay p s --nodes=+4",
        "--nodes +4: a machine has 1 to 16 nodes",
    ),
    (
        "replay p s --nodes 000000000000000000004",
        "--nodes 000000000000000000004: a machine has 1 to 16 nodes",
    ),
    ("replay p s --sets 0", "--sets 0: a cache has 1 to 256 sets"),
    (
        "replay p s --sets 257",
        "--sets 257: a cache has 1 to 256 sets",
    ),
    ("roll p s c --ways 0", "--ways 0: a set has 1 to 16 lines"),
    ("replay p s --ways 17", "--ways 17: a set has 1 to 16 lines"),
    (
        "replay p s --log 3",
        "--log 3: a node's log has 4 to 4096 entries",
    ),
    (
        "replay p s --log 4097",
        "--log 4097: a node's log has 4 to 4096 entries",
    ),
    (
        "run p --interval 0",
        "--interval 0: between two checkpoints a node does 1 to 1000000 instructions",
    ),
    (
        "run p --wait 1000001",
        "--wait 1000001: a recovery comes after 1 to 1000000 events without a validation",
    ),
    (
        "run p --lose-every=-1",
        "--lose-every -1: one is lost of 0 to 1000000 moves of messages, and with 0 none",
    ),
    (
        "monitor p --budget 0",
        "--budget 0: a run has 1 to 1000000 events",
    ),
    (
        "run p --budget 0",
        "--budget 0: a run has 1 to 1000000 events",
    ),
    (
        "run p --seed 18446744073709551616",
        "--seed 18446744073709551616: a seed is a number from 0 to 18446744073709551615",
    ),
    (
        "replay p s --nodes 0",
        "--nodes 0: a machine has 1 to 16 nodes",
    ),
    (
        "run p --nodes 17",
        "--nodes 17: a machine has 1 to 16 nodes",
    ),
    (
        "check p t --nodes 17",
        "--nodes 17: a machine has 1 to 16 nodes",
    ),
    ("replay p s --ways 0", "--ways 0: a set has 1 to 16 lines"),
    (
        "run p --interval 1000001",
        "--interval 1000001: between two checkpoints a node does 1 to 1000000 instructions",
    ),
    (
        "run p --wait 0",
        "--wait 0: a recovery comes after 1 to 1000000 events without a validation",
    ),
    (
        "run p --lose-every 1000001",
        "--lose-every 1000001: one is lost of 0 to 1000000 moves of messages, and with 0 none",
    ),
    (
        "run p --budget 1000001",
        "--budget 1000001: a run has 1 to 1000000 events",
    ),
    (
        "run p --seed=-1",
        "--seed -1: a seed is a number from 0 to 18446744073709551615",
    ),
];

#[test]
fn a_number_that_does_not_fit_is_shown_with_its_range(rt: HostRuntime) -> Result<(), Fail> {
    all_say(&rt, rt.alloc(), NUMBERS)?;
    Ok(())
}

const VALUES: &[(&str, &str)] = &[
    (
        "replay p s --watch 1234",
        "--watch 1234: the address of a word of memory is eight hexadecimal digits, \
            80000000 to 803ffffc, a multiple of 4",
    ),
    (
        "run p --watch=80400000",
        "--watch 80400000: the address of a word of memory is eight hexadecimal digits, \
            80000000 to 803ffffc, a multiple of 4",
    ),
    (
        "run --kill c0@5 p",
        "--kill c0@5: a switch that dies is a or b, its node below 4, @, and a number of events up to 1000000",
    ),
    (
        "run p --nodes 1 --kill b1@0",
        "--kill b1@0: a switch that dies is a or b, its node below 1, @, and a number of events up to 1000000",
    ),
    (
        "monitor --nodes=2 p --kill=a2@0",
        "--kill a2@0: a switch that dies is a or b, its node below 2, @, and a number of events up to 1000000",
    ),
    (
        "run p --kill=a8@0 --nodes=8",
        "--kill a8@0: a switch that dies is a or b, its node below 8, @, and a number of events up to 1000000",
    ),
    (
        "run p --kill a0@1000001",
        "--kill a0@1000001: a switch that dies is a or b, its node below 4, @, and a number of events up to 1000000",
    ),
    (
        "run p --kill=",
        "--kill \"\": a switch that dies is a or b, its node below 4, @, and a number of events up to 1000000",
    ),
    (
        "run --kill c0@5 p --nodes 17",
        "--nodes 17: a machine has 1 to 16 nodes",
    ),
    ("demo 0", "demo 0: a demonstration has 1 to 1000000 events"),
    (
        "demo 1000001",
        "demo 1000001: a demonstration has 1 to 1000000 events",
    ),
    (
        "replay p s --watch 80000001",
        "--watch 80000001: the address of a word of memory is eight hexadecimal digits, 80000000 to 803ffffc, a multiple of 4",
    ),
    (
        "replay p s --watch 80400000",
        "--watch 80400000: the address of a word of memory is eight hexadecimal digits, 80000000 to 803ffffc, a multiple of 4",
    ),
    (
        "replay p s --watch 8000000",
        "--watch 8000000: the address of a word of memory is eight hexadecimal digits, 80000000 to 803ffffc, a multiple of 4",
    ),
    (
        "run p --watch 80400000",
        "--watch 80400000: the address of a word of memory is eight hexadecimal digits, 80000000 to 803ffffc, a multiple of 4",
    ),
    (
        "run p --kill a4@0",
        "--kill a4@0: a switch that dies is a or b, its node below 4, @, and a number of events up to 1000000",
    ),
    (
        "run p --kill a00@0",
        "--kill a00@0: a switch that dies is a or b, its node below 4, @, and a number of events up to 1000000",
    ),
    (
        "run p --kill a0",
        "--kill a0: a switch that dies is a or b, its node below 4, @, and a number of events up to 1000000",
    ),
];

#[test]
fn another_value_that_does_not_fit_is_shown_with_its_rule(rt: HostRuntime) -> Result<(), Fail> {
    all_say(&rt, rt.alloc(), VALUES)?;
    Ok(())
}
