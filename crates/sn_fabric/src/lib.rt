//! The fabric: the nodes' clocks, caches, homes and logs, and the network between them, as one value.
//!
//! Each call is one event of the fabric of the machine's definitions, with that event's answer; what a call sends can be
//! read until the next. The layer above knows no part of it: it sees the fabric of the definitions, the sizes and what was
//! sent last. In the type are all sentences of the coherence theorem, so whatever is done in whatever order, each block has
//! one writer, each delivered message has its row, and at each checkpoint where its home has nothing open a block has one
//! holder. So are the bounds of logs, network and caches: a line that arrives finds its frame, and a recovery finds the
//! frames that it puts back. No call but `new` and `at_cut` fails for want of memory.
//!
//! Source: SafetyNet (Sorin, Martin, Hill, Wood, ISCA 2002), over a MOSI directory protocol.
#![tactic(auto)]

ghost use Rattle.std.specs.Prelude.{◌≡◌, ◌<◌, ◌≤◌, [], length};
ghost use Rattle.sn_model.specs.Access.{has_miss};
ghost use Rattle.sn_model.specs.Fabric.{node_at};

mod accesses;
mod clocks;
mod contents;
mod cuts;
mod deliveries;
mod evictions;
mod foresight;
mod node;
mod plans;
mod points;
mod recovery;
mod replies;
mod reports;
mod resuming;
mod sending;
mod showing;
mod start;
mod switches;

use home_directory::Home;
pub use home_directory::Transaction;
pub use mosi_cache::{Line, OpenMiss, OpenPut};
use node::NodeUnit;
use sn_base::{Config, Interval, NodeId};
pub use sn_model::{Need, News, Owner, Sent};
use std::marker::Model;
use switch_net::Net;

/// The fabric of a machine. Contracts see its sizes, the fabric of the machine's definitions, and what the last call sent.
#[derive(Drop)]
pub struct Fabric {
    config: Config,
    units: Vec<NodeUnit>,
    homes: Vec<Home>,
    net: Net,
    point: Interval,
    sent: Vec<Sent>,
}

impl Model for Fabric {
    ghost use Rattle.std.specs.Prelude.{◌≤◌, length, vec_capacity};
    ghost use Rattle.sn_fabric.specs.Fabric.{FabricData};
    ghost use Rattle.sn_fabric.specs.Parts.{fabric_as, AreParts};

    ghost Value = { FabricData };

    ghost view = { λ f. record {
      config = f.config;
      fabric = fabric_as (record { units = f.units.items; homes = f.homes.items; net = f.net; point = f.point });
      sent = f.sent.items;
    } };

    ghost invariant = { λ f. AreParts f.config (record { units = f.units.items; homes = f.homes.items; net = f.net; point = f.point })
        × (17 ≤ vec_capacity f.sent) × (length f.sent.items ≤ 17) };
}

impl Fabric {
    /// The interval of a node.
    pub fn now(&self, node: NodeId) -> Interval
        requires { node < length self.now.fabric.nodes }
        ensures { result ≡ (node_at self.now.fabric node).now }
    {
        self.units[usize::from(node.number())].clock.now()
    }

    /// Whether the miss of a node is open.
    pub fn miss_open(&self, node: NodeId) -> bool
        requires { node < length self.now.fabric.nodes }
        ensures { result ≡ has_miss (node_at self.now.fabric node).cache.miss }
    {
        self.units[usize::from(node.number())]
            .cache
            .open_block()
            .is_some()
    }

    /// What the last call sent, in order of their numbers.
    pub fn sent(&self) -> &[Sent]
        ensures same { result.now ≡ self.now.sent }
        ensures few { length result.now ≤ 17 }
    {
        self.sent.as_slice()
    }

    fn send_nothing(&mut self)
        ensures { self.new ≡ record self.old { sent = [] } }
    {
        self.sent.clear();
    }
}
