//! The rules of a run, from the texts of its options.
ghost use Rattle.std.specs.Prelude.{◌≡◌, ◌*◌, ◌<◌, ◌≤◌, ◌&&◌, nat_eq, nat_lt, true, IfSome, option_map, length, slice_index};
ghost use Rattle.option_values.specs.Values.{number_by};
ghost use Rattle.sn_base.specs.Config.{lies_in};
ghost use Rattle.sn_base.specs.Rules.{kill_fits};
ghost use Rattle.option_values.specs.Runs.{interval_rule, wait_rule, budget_rule, lose_rule, node_in, switch_in, kill_in, kill_by};
ghost use Rattle.option_values.specs.Runs.{run_rules_by, run_rules_fit};
ghost use Rattle.sn_base.specs.declared.limits.TheConstants.{EVENTS};

use crate::digits::number_in_radix;
use crate::number::{BUDGET, INTERVAL, LOSE_EVERY, SEED, WAIT, read_events};
use sn_base::{NodeId, Rules, SwitchId};

/// What a run goes by, apart from its program and its sizes.
#[derive(Clone, Copy, PartialEq, Eq, Debug)]
pub struct RunRules {
    pub rules: Rules,
    /// How many events there are at most.
    pub budget: u32,
    /// Of the numbers that the workers draw.
    pub seed: u64,
}

fn has_leading_zero(text: &str) -> bool
    ensures { result ≡ (nat_lt 1 (length text.now) && nat_eq (slice_index text.now 0) 48) }
{
    text.len() > 1 && text.as_bytes()[0] == b'0'
}

// A node of so many.
fn read_node(text: &str, nodes: u8) -> Option<NodeId>
    requires few { nodes ≤ 16 }
    ensures node { result ≡ node_in nodes text.now }
    ensures inside { IfSome result (λ node. node < nodes) }
{
    if has_leading_zero(text) {
        return None;
    }
    let number = number_in_radix(text, 10)?;
    if number < u64::from(nodes) {
        NodeId::new(number as u8)
    } else {
        None
    }
}

// A switch of so many nodes.
fn read_switch(text: &str, nodes: u8) -> Option<SwitchId>
    requires few { nodes ≤ 16 }
    ensures switch { result ≡ switch_in nodes text.now }
    ensures inside { IfSome result (λ switch. switch < 2 * nodes) }
{
    if let Some(node) = text.strip_prefix('a') {
        return Some(SwitchId::a(read_node(node, nodes)?));
    }
    let node = text.strip_prefix('b')?;
    Some(SwitchId::b(read_node(node, nodes)?))
}

fn read_kill_rule(text: &str, nodes: u8) -> Option<(SwitchId, u32)>
    requires few { nodes ≤ 16 }
    ensures kill { result ≡ kill_in nodes text.now }
    ensures inside { IfSome result (λ kill. kill.0 < 2 * nodes) }
{
    let (switch, events) = text.split_once('@')?;
    Some((read_switch(switch, nodes)?, read_events(events)?))
}

// The switch that dies: `Some(None)` where no text is given.
fn read_kill(given: Option<&str>, nodes: u8) -> Option<Option<(SwitchId, u32)>>
    requires few { nodes ≤ 16 }
    ensures kill { result ≡ kill_by nodes (option_map (λ text. text.now) given.entry) }
    ensures inside { IfSome result (λ kill. kill_fits nodes kill ≡ true) }
{
    match given {
        Some(text) => Some(Some(read_kill_rule(text, nodes)?)),
        None => Some(None),
    }
}

fn read_interval(given: Option<&str>) -> Option<u32>
    ensures interval { result ≡ number_by interval_rule (option_map (λ text. text.now) given.entry) }
    ensures inside { IfSome result (λ interval. 1 ≤ interval) }
{
    let interval = INTERVAL.read(given)?;
    Some(interval as u32)
}

fn read_wait(given: Option<&str>) -> Option<u32>
    ensures wait { result ≡ number_by wait_rule (option_map (λ text. text.now) given.entry) }
    ensures inside { IfSome result (λ wait. 1 ≤ wait) }
{
    let wait = WAIT.read(given)?;
    Some(wait as u32)
}

fn read_lose_every(given: Option<&str>) -> Option<u32>
    ensures moves { result ≡ number_by lose_rule (option_map (λ text. text.now) given.entry) }
{
    let moves = LOSE_EVERY.read(given)?;
    Some(moves as u32)
}

fn read_budget(given: Option<&str>) -> Option<u32>
    ensures budget { result ≡ number_by budget_rule (option_map (λ text. text.now) given.entry) }
    ensures inside { IfSome result (λ budget. lies_in 1 EVENTS budget ≡ true) }
{
    let budget = BUDGET.read(given)?;
    Some(budget as u32)
}

/// The texts of a run's own options, where they are given.
#[derive(Clone, Copy)]
pub struct RunWords<'a> {
    pub interval: Option<&'a str>,
    pub wait: Option<&'a str>,
    pub lose_every: Option<&'a str>,
    pub kill: Option<&'a str>,
    pub budget: Option<&'a str>,
    pub seed: Option<&'a str>,
}

impl RunWords<'_> {
    /// None where one of the texts is no number of its option's range, or where the text of the kill isn't a switch of so many
    /// nodes, as `a0` or `b12`, then `@`, and a number of events up to 1,000,000.
    pub fn rules(&self, nodes: u8) -> Option<RunRules>
        requires few { nodes ≤ 16 }
        ensures rules { result ≡
            run_rules_by nodes (option_map (λ text. text.now) self.now.interval) (option_map (λ text. text.now) self.now.wait)
            (option_map (λ text. text.now) self.now.lose_every) (option_map (λ text. text.now) self.now.kill)
            (option_map (λ text. text.now) self.now.budget) (option_map (λ text. text.now) self.now.seed) }
        ensures fits { IfSome result (λ rules. run_rules_fit nodes rules ≡ true) }
    {
        Some(RunRules {
            rules: Rules {
                interval: read_interval(self.interval)?,
                wait: read_wait(self.wait)?,
                lose_every: read_lose_every(self.lose_every)?,
                kill: read_kill(self.kill, nodes)?,
            },
            budget: read_budget(self.budget)?,
            seed: SEED.read(self.seed)?,
        })
    }
}
