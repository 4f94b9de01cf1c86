//! The sizes of a machine, from the texts of its four options.
ghost use Rattle.std.specs.Prelude.{◌≡◌, true, IfSome, option_map};
ghost use Rattle.sn_base.specs.Config.{lies_in, config_fits};
ghost use Rattle.option_values.specs.Values.{nodes_rule, sets_rule, ways_rule, log_rule, number_by, config_by};

use crate::number::{LOG, NODES, SETS, WAYS};
use sn_base::Config;

/// A number of nodes, 1 to 16, or 4 where no text is given.
pub fn read_nodes(given: Option<&str>) -> Option<u8>
    ensures nodes { result ≡ number_by nodes_rule (option_map (λ text. text.now) given.entry) }
    ensures inside { IfSome result (λ nodes. lies_in 1 16 nodes ≡ true) }
{
    let nodes = NODES.read(given)?;
    Some(nodes as u8)
}

fn read_sets(given: Option<&str>) -> Option<u16>
    ensures sets { result ≡ number_by sets_rule (option_map (λ text. text.now) given.entry) }
    ensures inside { IfSome result (λ sets. lies_in 1 256 sets ≡ true) }
{
    let sets = SETS.read(given)?;
    Some(sets as u16)
}

fn read_ways(given: Option<&str>) -> Option<u8>
    ensures ways { result ≡ number_by ways_rule (option_map (λ text. text.now) given.entry) }
    ensures inside { IfSome result (λ ways. lies_in 1 16 ways ≡ true) }
{
    let ways = WAYS.read(given)?;
    Some(ways as u8)
}

fn read_log(given: Option<&str>) -> Option<u16>
    ensures log { result ≡ number_by log_rule (option_map (λ text. text.now) given.entry) }
    ensures inside { IfSome result (λ log. lies_in 4 4096 log ≡ true) }
{
    let log = LOG.read(given)?;
    Some(log as u16)
}

/// The texts of the options for the sizes, where they are given.
#[derive(Clone, Copy)]
pub struct SizeWords<'a> {
    pub nodes: Option<&'a str>,
    pub sets: Option<&'a str>,
    pub ways: Option<&'a str>,
    pub log: Option<&'a str>,
}

impl SizeWords<'_> {
    /// None where one of the texts is no number of its option's range.
    pub fn config(&self) -> Option<Config>
        ensures config { result ≡ config_by (option_map (λ text. text.now) self.now.nodes) (option_map (λ text. text.now) self.now.sets)
            (option_map (λ text. text.now) self.now.ways) (option_map (λ text. text.now) self.now.log) }
        ensures fits { IfSome result (λ config. config_fits config ≡ true) }
    {
        Some(Config {
            nodes: read_nodes(self.nodes)?,
            sets: read_sets(self.sets)?,
            ways: read_ways(self.ways)?,
            log: read_log(self.log)?,
        })
    }
}
