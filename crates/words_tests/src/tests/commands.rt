//! Each row has the words of a line, and the request that they are, as text.
use command_words::{Request, WordsFault, read_words};
use option_values::RunRules;
use sn_base::{Config, Memory};
use std::alloc::{AllocError, Global};
use std::test::Fail;

/// The words of a line, after the program's name; '' is an empty word, as in a shell.
fn words_of(alloc: Global, line: &str) -> Result<Vec<String>, AllocError> {
    let mut words = Vec::new(alloc);
    words.push(String::from_str(alloc, "safetynet")?)?;
    for word in line.split_whitespace() {
        let word = if word == "''" { "" } else { word };
        words.push(String::from_str(alloc, word)?)?;
    }
    Ok(words)
}

/// The sizes, and what a machine that picks its own events goes by.
fn rules_shown(
    alloc: Global,
    c: &Config,
    given: &RunRules,
    watch: Option<u32>,
) -> Result<String, AllocError> {
    let rules = &given.rules;
    let kill = match rules.kill {
        Some((switch, events)) => Some((switch.number(), events)),
        None => None,
    };
    let (interval, wait, lose_every) = (rules.interval, rules.wait, rules.lose_every);
    let (budget, seed) = (given.budget, given.seed);
    format!(in alloc;
        "({} nodes, {} sets, {} ways, log {}) interval {interval} wait {wait} lose {lose_every} kill {kill:?} budget {budget} seed {seed} {watch:?}",
        c.nodes, c.sets, c.ways, c.log
    )
}

fn shown(alloc: Global, request: &Request) -> Result<String, AllocError> {
    match request {
        Request::Replay(r) => {
            let c = &r.config;
            let (watch, report) = (r.watch, r.report);
            format!(in alloc;
                "replay {} {} ({} nodes, {} sets, {} ways, log {}) {watch:?} {report:?}",
                r.program, r.script, c.nodes, c.sets, c.ways, c.log
            )
        }
        Request::Drive(d) => {
            let c = &d.config;
            let (watch, report) = (d.watch, d.report);
            format!(in alloc;
                "drive {} ({} nodes, {} sets, {} ways, log {}) {watch:?} {report:?}",
                d.program, c.nodes, c.sets, c.ways, c.log
            )
        }
        Request::Roll(r) => {
            let c = &r.config;
            let watch = r.watch;
            format!(in alloc;
                "roll {} {} {} ({} nodes, {} sets, {} ways, log {}) {watch:?}",
                r.program, r.script, r.control, c.nodes, c.sets, c.ways, c.log
            )
        }
        Request::Save(s) => {
            let c = &s.config;
            format!(in alloc;
                "save {} {} ({} nodes, {} sets, {} ways, log {})",
                s.program, s.script, c.nodes, c.sets, c.ways, c.log
            )
        }
        Request::Resume(r) => {
            let watch = r.watch;
            format!(in alloc; "resume {} {} {} {watch:?}", r.program, r.save, r.script)
        }
        Request::Run(r) => {
            let rules = rules_shown(alloc, &r.config, &r.rules, r.watch)?;
            let (report, order, scope) = (r.report, r.order, r.scope);
            format!(in alloc; "run {} {rules} {report:?} {order:?} {scope:?}", r.program)
        }
        Request::Monitor(r) => {
            let rules = rules_shown(alloc, &r.config, &r.rules, r.watch)?;
            format!(in alloc; "monitor {} {rules}", r.program)
        }
        Request::Check(c) => format!(in alloc;
            "check {} {} ({} nodes)",
            c.program, c.trace, c.nodes
        ),
        Request::Judge(accesses) => format!(in alloc; "judge {accesses}"),
        Request::Demo(size) => format!(in alloc; "demo {size}"),
        Request::Assemble(text) => format!(in alloc; "asm {text}"),
        Request::Disassemble(program) => format!(in alloc; "dis {program}"),
    }
}

/// What the words of the line ask for, as text.
fn read(alloc: Global, line: &str) -> Result<String, Memory> {
    let words = words_of(alloc, line)?;
    match read_words(alloc, words.as_slice()) {
        Ok(request) => Ok(shown(alloc, &request)?),
        Err(WordsFault::Usage) => Ok(String::from_str(alloc, "usage")?),
        Err(WordsFault::Memory) => Err(Memory),
    }
}

const REQUESTS: &[(&str, &str)] = &[
    (
        "replay p s",
        "replay p s (4 nodes, 16 sets, 4 ways, log 256) None Events",
    ),
    (
        "replay --nodes 1 p s",
        "replay p s (1 nodes, 16 sets, 4 ways, log 256) None Events",
    ),
    (
        "replay --nodes=16 p s",
        "replay p s (16 nodes, 16 sets, 4 ways, log 256) None Events",
    ),
    (
        "replay p --sets 1 s",
        "replay p s (4 nodes, 1 sets, 4 ways, log 256) None Events",
    ),
    (
        "replay p s --sets=256",
        "replay p s (4 nodes, 256 sets, 4 ways, log 256) None Events",
    ),
    (
        "replay p s --ways 16",
        "replay p s (4 nodes, 16 sets, 16 ways, log 256) None Events",
    ),
    (
        "replay p s --log=4",
        "replay p s (4 nodes, 16 sets, 4 ways, log 4) None Events",
    ),
    (
        "replay p s --log 0004096",
        "replay p s (4 nodes, 16 sets, 4 ways, log 4096) None Events",
    ),
    (
        "replay p s --trace",
        "replay p s (4 nodes, 16 sets, 4 ways, log 256) None Trace",
    ),
    (
        "replay --trace p s --watch 80000000",
        "replay p s (4 nodes, 16 sets, 4 ways, log 256) Some(2147483648) Trace",
    ),
    (
        "replay --watch=803FFFFC p s",
        "replay p s (4 nodes, 16 sets, 4 ways, log 256) Some(2151677948) Events",
    ),
    (
        "replay --nodes 2 --sets 3 --ways 5 --log 7 --watch 80000004 --trace p s",
        "replay p s (2 nodes, 3 sets, 5 ways, log 7) Some(2147483652) Trace",
    ),
    (
        "replay p s --states",
        "replay p s (4 nodes, 16 sets, 4 ways, log 256) None States(None)",
    ),
    (
        "replay --only=3-9 p --states s",
        "replay p s (4 nodes, 16 sets, 4 ways, log 256) None States(Some(Places { from: 3, to: 9 }))",
    ),
    (
        "replay p --statistics s",
        "replay p s (4 nodes, 16 sets, 4 ways, log 256) None Statistics",
    ),
    (
        "replay p s --accesses",
        "replay p s (4 nodes, 16 sets, 4 ways, log 256) None Accesses",
    ),
    (
        "drive p",
        "drive p (4 nodes, 16 sets, 4 ways, log 256) None Events",
    ),
    (
        "drive --states p",
        "drive p (4 nodes, 16 sets, 4 ways, log 256) None States",
    ),
    (
        "drive --nodes 2 --sets 3 --ways 5 --log 7 --watch 80000004 p",
        "drive p (2 nodes, 3 sets, 5 ways, log 7) Some(2147483652) Events",
    ),
    (
        "replay -- --nodes --trace",
        "replay --nodes --trace (4 nodes, 16 sets, 4 ways, log 256) None Events",
    ),
    (
        "replay --nodes 2 -- -p -s",
        "replay -p -s (2 nodes, 16 sets, 4 ways, log 256) None Events",
    ),
    (
        "replay - -",
        "replay - - (4 nodes, 16 sets, 4 ways, log 256) None Events",
    ),
    (
        "replay replay help",
        "replay replay help (4 nodes, 16 sets, 4 ways, log 256) None Events",
    ),
    (
        "replay '' s",
        "replay  s (4 nodes, 16 sets, 4 ways, log 256) None Events",
    ),
    (
        "roll p s c",
        "roll p s c (4 nodes, 16 sets, 4 ways, log 256) None",
    ),
    (
        "roll --nodes 2 --sets 3 --ways 5 --log 7 --watch 80000004 p s c",
        "roll p s c (2 nodes, 3 sets, 5 ways, log 7) Some(2147483652)",
    ),
    ("save p s", "save p s (4 nodes, 16 sets, 4 ways, log 256)"),
    (
        "save p --log=7 --ways 5 --sets 3 --nodes=2 s",
        "save p s (2 nodes, 3 sets, 5 ways, log 7)",
    ),
    ("resume p v s", "resume p v s None"),
    (
        "resume --watch 80000004 p v s",
        "resume p v s Some(2147483652)",
    ),
    (
        "run p",
        "run p (4 nodes, 16 sets, 4 ways, log 256) interval 100 wait 20000 lose 0 kill None budget 1000000 seed 1 None Summary Threads One",
    ),
    (
        "run --trace p",
        "run p (4 nodes, 16 sets, 4 ways, log 256) interval 100 wait 20000 lose 0 kill None budget 1000000 seed 1 None Trace Threads One",
    ),
    (
        "run p --journal",
        "run p (4 nodes, 16 sets, 4 ways, log 256) interval 100 wait 20000 lose 0 kill None budget 1000000 seed 1 None Journal Threads One",
    ),
    (
        "run --nodes 2 --sets 3 --ways 5 --log 7 --watch 80000004 --interval 8 --wait 9 --lose-every 10 --kill b1@11 --budget 12 --seed 13 --journal p",
        "run p (2 nodes, 3 sets, 5 ways, log 7) interval 8 wait 9 lose 10 kill Some((3, 11)) budget 12 seed 13 Some(2147483652) Journal Threads One",
    ),
    (
        "run --kill=a15@1000000 --nodes=16 --seed=18446744073709551615 p",
        "run p (16 nodes, 16 sets, 4 ways, log 256) interval 100 wait 20000 lose 0 kill Some((30, 1000000)) budget 1000000 seed 18446744073709551615 None Summary Threads One",
    ),
    (
        "run --kill a0@00 --seed 00 --lose-every 00 p",
        "run p (4 nodes, 16 sets, 4 ways, log 256) interval 100 wait 20000 lose 0 kill Some((0, 0)) budget 1000000 seed 0 None Summary Threads One",
    ),
    (
        "run --order round p",
        "run p (4 nodes, 16 sets, 4 ways, log 256) interval 100 wait 20000 lose 0 kill None budget 1000000 seed 1 None Summary Round One",
    ),
    (
        "run p --order=drawn",
        "run p (4 nodes, 16 sets, 4 ways, log 256) interval 100 wait 20000 lose 0 kill None budget 1000000 seed 1 None Summary Drawn One",
    ),
    (
        "run --accesses p --order=drawn",
        "run p (4 nodes, 16 sets, 4 ways, log 256) interval 100 wait 20000 lose 0 kill None budget 1000000 seed 1 None Accesses Drawn One",
    ),
    (
        "run p --statistics --seed 2",
        "run p (4 nodes, 16 sets, 4 ways, log 256) interval 100 wait 20000 lose 0 kill None budget 1000000 seed 2 None Summary Threads Counted",
    ),
    (
        "run p --order drawn --statistics",
        "run p (4 nodes, 16 sets, 4 ways, log 256) interval 100 wait 20000 lose 0 kill None budget 1000000 seed 1 None Summary Drawn Counted",
    ),
    (
        "run --seeds 3-9 p --order round",
        "run p (4 nodes, 16 sets, 4 ways, log 256) interval 100 wait 20000 lose 0 kill None budget 1000000 seed 1 None Summary Round Seeds(Seeds { first: 3, last: 9 }, false)",
    ),
    (
        "run --statistics --seeds=0-999999 p --order=drawn",
        "run p (4 nodes, 16 sets, 4 ways, log 256) interval 100 wait 20000 lose 0 kill None budget 1000000 seed 1 None Summary Drawn Seeds(Seeds { first: 0, last: 999999 }, true)",
    ),
    (
        "run p --order threads",
        "run p (4 nodes, 16 sets, 4 ways, log 256) interval 100 wait 20000 lose 0 kill None budget 1000000 seed 1 None Summary Threads One",
    ),
    (
        "run run",
        "run run (4 nodes, 16 sets, 4 ways, log 256) interval 100 wait 20000 lose 0 kill None budget 1000000 seed 1 None Summary Threads One",
    ),
    (
        "monitor p",
        "monitor p (4 nodes, 16 sets, 4 ways, log 256) interval 100 wait 20000 lose 0 kill None budget 1000000 seed 1 None",
    ),
    (
        "monitor --nodes 2 --sets 3 --ways 5 --log 7 --watch 80000004 --interval 8 --wait 9 --lose-every 10 --kill b1@11 --budget 12 --seed 13 p",
        "monitor p (2 nodes, 3 sets, 5 ways, log 7) interval 8 wait 9 lose 10 kill Some((3, 11)) budget 12 seed 13 Some(2147483652)",
    ),
    ("check p t", "check p t (4 nodes)"),
    ("check p t --nodes 7", "check p t (7 nodes)"),
    (
        "check --nodes=00000000000000000001 p t",
        "check p t (1 nodes)",
    ),
    ("judge a", "judge a"),
    ("demo 1", "demo 1"),
    ("demo 001000000", "demo 1000000"),
    ("asm p.s", "asm p.s"),
    ("dis p", "dis p"),
];

#[test]
fn words_that_are_requests(rt: HostRuntime) -> Result<(), Fail> {
    for (line, request) in REQUESTS {
        let read = read(rt.alloc(), line)?;
        assert_eq!(rt; read.as_str(), *request, "at {line}");
    }
    Ok(())
}

const USAGE: &[&str] = &[
    "",
    "''",
    "help",
    "--help",
    "-h",
    "--version",
    "-V",
    "--",
    "-- replay p s",
    "Replay p s",
    "repla p s",
    "--nodes 4 replay p s",
    "replay",
    "replay p",
    "replay p s t",
    "replay help",
    "replay --help",
    "replay p s --help",
    "replay p s -h",
    "replay p s --version",
    "replay p s -x",
    "replay p s --node 4",
    "replay p s --Nodes 4",
    "replay p s --nodes",
    "replay p s --nodes=",
    "replay p s --nodes ''",
    "replay p s --nodes --trace",
    "replay p s --nodes -1",
    "replay p s --nodes 0",
    "replay p s --nodes 17",
    "replay p s --nodes=+4",
    "replay p s --nodes 4 --nodes 4",
    "replay p s --nodes=4 --nodes=5",
    "replay p s --nodes 000000000000000000004",
    "replay p s --sets 0",
    "replay p s --sets 257",
    "replay p s --ways 0",
    "replay p s --ways 17",
    "replay p s --log 3",
    "replay p s --log 4097",
    "replay p s --watch 80000001",
    "replay p s --watch 80400000",
    "replay p s --watch 8000000",
    "replay p s --trace --trace",
    "replay p s --trace --states",
    "replay p s --states --states",
    "replay p s --statistics --statistics",
    "replay p s --statistics --trace",
    "replay p s --statistics --states",
    "replay p s --statistics --only 1-2",
    "replay p s --accesses --trace",
    "run p --statistics --trace",
    "run p --statistics --order round --trace",
    "run p --statistics --accesses",
    "run p --accesses --trace",
    "run p --accesses --accesses",
    "run p --seeds 1-2",
    "run p --seeds 1-2 --order threads",
    "run p --seeds 1-2 --order round --accesses",
    "run p --seeds 2-1 --order round",
    "run p --seeds 1 --order round",
    "run p --seeds 0-1000000 --order round",
    "run p --seeds 1-2 --order round --journal",
    "run p --seeds 1-2 --order round --seed 1",
    "monitor p --seeds 1-2",
    "drive",
    "drive p s",
    "drive p --trace",
    "drive p --states --states",
    "drive p --states=true",
    "drive p --nodes 0",
    "drive p --watch 80000001",
    "replay p s --states=1",
    "replay p s --only 1-2",
    "replay p s --trace --only 1-2",
    "replay p s --states --only 9-3",
    "replay p s --states --only 0-1",
    "replay p s --states --only 3",
    "replay p s --states --only",
    "replay p s --states --only 1-2 --only 1-2",
    "roll p s c --states",
    "save p",
    "save p s c",
    "save p s --watch 80000000",
    "resume p v",
    "resume p v s s",
    "resume p v s --nodes 2",
    "resume p v s --watch 80000001",
    "replay p s --trace=x",
    "replay p s --trace=true",
    "replay p s --trace=",
    "run",
    "run p s",
    "run p --script s",
    "run --trace --journal p",
    "run p --journal --journal",
    "run p --journal=x",
    "run p --interval 0",
    "run p --interval 1000001",
    "run p --wait 0",
    "run p --wait 1000001",
    "run p --lose-every 1000001",
    "run p --lose-every=-1",
    "run p --budget 0",
    "run p --budget 1000001",
    "run p --seed 18446744073709551616",
    "run p --seed=-1",
    "run p --kill a4@0",
    "run p --nodes 1 --kill b1@0",
    "run p --kill a0@0 --kill b0@0",
    "run p --kill a00@0",
    "run p --kill a0",
    "run p --kill a0@1000001",
    "run p --kill=",
    "run p --loseevery 4",
    "run p --lose_every 4",
    "run p --watch 80400000",
    "run p --nodes 17",
    "run p --order",
    "run p --order=",
    "run p --order slow",
    "run p --order Round",
    "run p --order round --order round",
    "monitor p --order round",
    "replay p s --order round",
    "monitor",
    "monitor p s",
    "monitor p --trace",
    "monitor p --journal",
    "monitor p --budget 0",
    "monitor p --nodes 1 --kill b1@0",
    "replay p s --journal",
    "replay p s --seed 4",
    "check p t --kill a0@0",
    "check p t --sets 4",
    "check p t --nodes 17",
    "judge",
    "judge a b",
    "judge a --nodes 2",
    "demo 0",
    "demo 1000001",
    "asm",
];

#[test]
fn words_that_are_none(rt: HostRuntime) -> Result<(), Fail> {
    for line in USAGE {
        let read = read(rt.alloc(), line)?;
        assert_eq!(rt; read.as_str(), "usage", "at {line}");
    }
    Ok(())
}
