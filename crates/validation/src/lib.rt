//! The service controller, which moves the recovery point.
//!
//! A checkpoint is validated once every node has reported that all its transactions before it have completed. The layer
//! above sees the recovery point and the checkpoint that each node reported last; it brings the reports and tells the
//! nodes of the new point. The controller never looks at a node and never goes back.
//!
//! Source: coordinated validation of checkpoints in SafetyNet (Sorin, Martin, Hill, Wood, ISCA 2002).
#![tactic(auto)]

ghost use Rattle.std.specs.Prelude.{◌≡◌, ◌+◌, ◌<◌, ◌≤◌, max, length, replicate, slice_index, slice_set, IfOk, OnErr};
ghost use Rattle.validation.specs.Ready.{Reports, HasNodes, least_behind, next_point_of};

use sn_base::{Interval, NodeId};
use std::marker::Model;

/// The least node that isn't ready for a checkpoint above the recovery point, with the checkpoint that it reported
/// last.
#[derive(Clone, Copy, PartialEq, Eq, Debug)]
pub struct NotReady {
    pub node: NodeId,
    pub reported: Interval,
}

/// The controller. Contracts see the recovery point and the checkpoints that the nodes reported last, in order of the
/// nodes.
#[derive(Clone, Drop)]
pub struct Controller {
    point: Interval,
    nodes: usize,
    reports: [Interval; 16],
}

impl Model for Controller {
    ghost use Rattle.std.specs.Prelude.{ℕ, ◌≤◌, take};
    ghost use Rattle.validation.specs.Ready.{Reports};

    ghost Value = { Reports };

    ghost view = { λ c. record { point = c.point; reported = take c.nodes c.reports } };

    ghost invariant = { λ c. (1 ≤ c.nodes) × (c.nodes ≤ 16) };
}

fn first_behind(reports: &[Interval], point: Interval) -> Option<usize>
    ensures { result ≡ least_behind point reports.now }
{
    reports.iter().position(|k| *k <= point)
}

impl Controller {
    /// The controller of a machine of so many nodes: checkpoint 0 is the recovery point, and is what each has reported.
    pub fn new(nodes: u8) -> Controller
        requires some { 1 ≤ nodes }
        requires few { nodes ≤ 16 }
        ensures { result ≡ record { point = 0; reported = replicate nodes 0 } }
    {
        Controller::at(nodes, 0)
    }

    /// The controller of a machine that goes on from a recovery point: every node stands there.
    pub fn at(nodes: u8, point: Interval) -> Controller
        requires some { 1 ≤ nodes }
        requires few { nodes ≤ 16 }
        ensures { result ≡ record { point = point; reported = replicate nodes point } }
    {
        Controller {
            point,
            nodes: usize::from(nodes),
            reports: [point; 16],
        }
    }

    /// A node's report. A lesser one that comes late changes nothing.
    pub fn ready(&mut self, node: NodeId, k: Interval)
        requires { node < length self.old.reported }
        ensures { self.new ≡ record self.old { reported = slice_set self.old.reported node (max (slice_index self.old.reported node) k) } }
    {
        let place = usize::from(node.number());
        self.reports[place] = self.reports[place].max(k);
    }

    /// The next recovery point, if every node is ready for it.
    pub fn check(&self) -> Result<Interval, NotReady>
        ensures { result ≡ next_point_of self.now }
    {
        match first_behind(&self.reports[..self.nodes], self.point) {
            None => Ok(self.point + 1),
            Some(place) => Err(NotReady {
                node: NodeId::new(place as u8).unwrap(),
                reported: self.reports[place],
            }),
        }
    }

    /// Moves the recovery point to the next checkpoint, if every node is ready for it.
    pub fn advance(&mut self) -> Result<Interval, NotReady>
        ensures same { result ≡ next_point_of self.old }
        ensures moved { IfOk result (λ k. self.new ≡ record self.old { point = k }) }
        ensures unchanged { OnErr result (self.new ≡ self.old) }
    {
        let next = self.check()?;
        self.point = next;
        Ok(next)
    }

    pub fn point(&self) -> Interval
        ensures same { result ≡ self.now.point }
        ensures nodes { HasNodes self.now }
    {
        self.point
    }

    /// The checkpoint that each node reported last, in order of the nodes.
    pub fn reported(&self) -> &[Interval]
        ensures { result.now ≡ self.now.reported }
    {
        &self.reports[..self.nodes]
    }

    /// After a recovery every node stands at the recovery point.
    pub fn reset(&mut self)
        ensures { self.new ≡ record self.old { reported = replicate (length self.old.reported) self.old.point } }
    {
        self.reports = [self.point; 16];
    }
}
