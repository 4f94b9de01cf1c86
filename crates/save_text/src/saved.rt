//! A recovery point as a save file says it.
use rv_core::Record;
use sn_base::{BlockNo, Config, NodeId};
use sn_saved::Marks;
use std::marker::Model;

/// What a save file says. Contracts see the definitions' value.
#[derive(Drop)]
pub struct Saved {
    pub config: Config,
    pub marks: Marks,
    /// The blocks that caches own, in order, each with its node.
    pub owners: Vec<(BlockNo, NodeId)>,
    /// The bytes that were given, in order of their nodes.
    pub given: Vec<(NodeId, u8)>,
    /// The committed trace.
    pub committed: Vec<Record>,
}

impl Model for Saved {
    ghost use Rattle.sn_saved.specs.Saved.{Saved};

    ghost Value = { Saved };

    ghost view = { λ s. record {
      config = s.config;
      marks = s.marks;
      owners = s.owners.items;
      given = s.given.items;
      committed = s.committed.items;
    } };
}
