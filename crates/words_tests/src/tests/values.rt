//! Texts of values, and what they mean; None where they break their rule.
use option_values::{
    LOG, Places, RunRules, RunWords, SizeWords, read_demo_size, read_nodes, read_places, read_watch,
};
use sn_base::{Config, NodeId, Rules, SwitchId};

#[test]
fn a_number_has_one_to_twenty_digits_and_lies_in_its_range(rt: HostRuntime) {
    let rows = [
        ("1", Some(1)),
        ("16", Some(16)),
        ("007", Some(7)),
        ("00000000000000000016", Some(16)),
        ("000000000000000000016", None),
        ("0", None),
        ("17", None),
        ("", None),
        ("+4", None),
        ("-4", None),
        (" 4", None),
        ("4 ", None),
        ("4x", None),
        ("0x4", None),
        ("²", None),
        ("18446744073709551617", None),
        ("18446744073709551620", None),
        ("99999999999999999999", None),
    ];
    for (text, nodes) in rows {
        assert_eq!(rt; read_nodes(Some(text)), nodes, "at {text}");
    }
    assert!(rt; read_nodes(None) == Some(4));
}

#[test]
fn a_watched_word_is_aligned_and_lies_in_memory(rt: HostRuntime) {
    let rows = [
        ("80000000", Some(Some(0x8000_0000))),
        ("803ffffc", Some(Some(0x803f_fffc))),
        ("803FfFfC", Some(Some(0x803f_fffc))),
        ("803fffff", None),
        ("80000002", None),
        ("80400000", None),
        ("7ffffffc", None),
        ("00000000", None),
        ("8000000", None),
        ("080000000", None),
        ("+8000000", None),
        ("0x800000", None),
        ("8000000g", None),
        ("", None),
    ];
    for (text, watch) in rows {
        assert_eq!(rt; read_watch(Some(text)), watch, "at {text}");
    }
    assert!(rt; read_watch(None) == Some(None));
}

fn ends_of(text: &str) -> Option<(u32, u32)> {
    match read_places(Some(text)) {
        Some(Some(Places { from, to })) => Some((from, to)),
        _ => None,
    }
}

#[test]
fn places_are_two_numbers_from_1_in_their_order(rt: HostRuntime) {
    let rows = [
        ("1-1", Some((1, 1))),
        ("3-9", Some((3, 9))),
        ("003-1000000", Some((3, 1_000_000))),
        ("9-3", None),
        ("0-1", None),
        ("0-0", None),
        ("1-1000001", None),
        ("1-", None),
        ("-1", None),
        ("-", None),
        ("1", None),
        ("1-2-3", None),
        ("1--2", None),
        ("1 -2", None),
        ("1-2 ", None),
        ("", None),
        ("1–2", None),
    ];
    for (text, places) in rows {
        assert_eq!(rt; ends_of(text), places, "at {text}");
    }
    assert!(rt; read_places(None) == Some(None));
}

#[test]
fn a_demonstration_has_up_to_a_million_events(rt: HostRuntime) {
    let rows = [
        ("1", Some(1)),
        ("0001000000", Some(1_000_000)),
        ("0", None),
        ("1000001", None),
        ("4294967297", None),
    ];
    for (text, size) in rows {
        assert_eq!(rt; read_demo_size(text), size, "at {text}");
    }
}

#[test]
fn the_sizes_have_defaults(rt: HostRuntime) {
    let none = SizeWords {
        nodes: None,
        sets: None,
        ways: None,
        log: None,
    };
    let small = SizeWords {
        nodes: Some("1"),
        sets: Some("256"),
        ways: Some("1"),
        log: Some("4"),
    };
    let wrong = [
        SizeWords {
            sets: Some("257"),
            ..none
        },
        SizeWords {
            ways: Some("17"),
            ..none
        },
        SizeWords {
            log: Some("3"),
            ..none
        },
        SizeWords {
            log: Some("4097"),
            ..none
        },
    ];
    assert!(rt;
        none.config()
            == Some(Config {
                nodes: 4,
                sets: 16,
                ways: 4,
                log: 256
            })
    );
    assert!(rt;
        small.config()
            == Some(Config {
                nodes: 1,
                sets: 256,
                ways: 1,
                log: 4
            })
    );
    assert!(rt; wrong.iter().all(|words| words.config().is_none()));
    assert!(rt; LOG.read(Some("4096")) == Some(4096));
}

const NONE: RunWords<'static> = RunWords {
    interval: None,
    wait: None,
    lose_every: None,
    kill: None,
    budget: None,
    seed: None,
};

/// The switch that dies of four nodes' and after how many events, by the text of the option.
fn kill_of(text: &str) -> Option<(u8, u32)> {
    let words = RunWords {
        kill: Some(text),
        ..NONE
    };
    match words.rules(4) {
        Some(run) => match run.rules.kill {
            Some((switch, events)) => Some((switch.number(), events)),
            None => None,
        },
        None => None,
    }
}

#[test]
fn a_switch_dies_after_a_number_of_events(rt: HostRuntime) {
    let rows = [
        ("a0@0", Some((0, 0))),
        ("b0@0", Some((1, 0))),
        ("a3@1000000", Some((6, 1_000_000))),
        ("b3@00000000000000000007", Some((7, 7))),
        ("a4@0", None),
        ("b16@0", None),
        ("a18446744073709551616@0", None),
        ("a00@0", None),
        ("a03@0", None),
        ("a@0", None),
        ("A0@0", None),
        ("c0@0", None),
        ("0@0", None),
        ("aa0@0", None),
        ("a-1@0", None),
        ("a+1@0", None),
        ("a0@1000001", None),
        ("a0@000000000000000000007", None),
        ("a0@", None),
        ("a0@+1", None),
        ("a0@-1", None),
        ("a0@0@0", None),
        ("a0@@0", None),
        ("a0 @0", None),
        (" a0@0", None),
        ("a0@ 0", None),
        ("a0", None),
        ("@0", None),
        ("@", None),
        ("", None),
        ("é@0", None),
        ("aé@0", None),
    ];
    for (text, kill) in rows {
        assert_eq!(rt; kill_of(text), kill, "at {text}");
    }
}

#[test]
fn the_rules_of_a_run_have_defaults(rt: HostRuntime) {
    let node = NodeId::new(15).expect(&rt, "a node");
    let given = RunWords {
        interval: Some("1"),
        wait: Some("0001000000"),
        lose_every: Some("1000000"),
        kill: Some("b15@3"),
        budget: Some("1"),
        seed: Some("18446744073709551615"),
    };
    assert!(rt;
        NONE.rules(1)
            == Some(RunRules {
                rules: Rules {
                    interval: 100,
                    wait: 20_000,
                    lose_every: 0,
                    kill: None,
                },
                budget: 1_000_000,
                seed: 1,
            })
    );
    assert!(rt;
        given.rules(16)
            == Some(RunRules {
                rules: Rules {
                    interval: 1,
                    wait: 1_000_000,
                    lose_every: 1_000_000,
                    kill: Some((SwitchId::b(node), 3)),
                },
                budget: 1,
                seed: u64::MAX,
            })
    );
    assert!(rt; given.rules(15).is_none());
}

#[test]
fn a_rule_of_a_run_lies_in_its_range(rt: HostRuntime) {
    for text in ["0", "1000001", "", "+1"] {
        let text = Some(text);
        let interval = RunWords {
            interval: text,
            ..NONE
        };
        let wait = RunWords { wait: text, ..NONE };
        let budget = RunWords {
            budget: text,
            ..NONE
        };
        assert!(rt;
            interval.rules(4).is_none() && wait.rules(4).is_none() && budget.rules(4).is_none()
        );
    }
    for text in ["1000001", "18446744073709551616", "", "-1"] {
        let lose_every = RunWords {
            lose_every: Some(text),
            ..NONE
        };
        assert!(rt; lose_every.rules(4).is_none());
    }
    for text in ["18446744073709551616", "000000000000000000001", "", "-1"] {
        let seed = RunWords {
            seed: Some(text),
            ..NONE
        };
        assert!(rt; seed.rules(4).is_none());
    }
    let zeros = RunWords {
        lose_every: Some("0"),
        seed: Some("0"),
        ..NONE
    };
    assert!(rt; zeros.rules(4).is_some());
}
