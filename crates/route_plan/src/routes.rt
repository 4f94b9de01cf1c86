//! The routes of a machine.
ghost use Rattle.std.specs.Prelude.{◌≡◌, ℕ, ◌+◌, ◌*◌, ◌<◌, ◌≤◌, ◌↔◌, Bool, true, false, if◌then◌else◌, nat_le, replicate, Option, Some};
ghost use Rattle.std.specs.Prelude.{None, Ok, Err, IsNone, IfNone, IfSome, IsOk, OnErr, IfOk, IfErr, MatchResult};
ghost use Rattle.route_plan.specs.Grid.{node_of};
ghost use Rattle.route_plan.specs.Distances.{Switches, is_living};
ghost use Rattle.route_plan.specs.Routes.{next_of, enter_of, first_cut_off};
ghost use Rattle.route_plan.specs.Paths.{AreJoined, IsFirstCutOff, IsStep, IsShortestWalk, IsShortestEntry};
ghost use Rattle.route_plan.specs.Tables.{IsSized};

use crate::dead::Dead;
use crate::distances::Distances;
use sn_base::{NodeId, SwitchId};
use std::alloc::{AllocFailed, Global};
use std::marker::Model;

/// Why no routes were made.
#[derive(Clone, Copy, PartialEq, Eq, Debug)]
pub enum PlanFault {
    /// The first pair of nodes that no path joins.
    CutOff(NodeId, NodeId),
    /// Memory was wanted and not given.
    Memory,
}

/// Shortest routes from every switch to every node, over the switches that were living when they were made. Contracts
/// see how many nodes there are and which switches were dead then.
#[derive(Drop)]
pub struct Routes {
    distances: Box<Distances>,
}

impl Model for Routes {
    ghost use Rattle.std.specs.Prelude.{◌≡◌, None};
    ghost use Rattle.route_plan.specs.Distances.{Switches};
    ghost use Rattle.route_plan.specs.Routes.{first_cut_off};
    ghost use Rattle.route_plan.specs.Tables.{IsSized};

    ghost Value = { Switches };

    ghost view = { λ r. r.distances.value };

    ghost invariant = { λ r. IsSized r.distances.value × (first_cut_off r.distances.value ≡ None) };
}

/// Makes the routes of a machine of 1 to 16 nodes. It is refused where two nodes are cut off from each other.
pub fn plan(alloc: Global, nodes: u8, dead: Dead) -> Result<Routes, PlanFault>
    requires some { 1 ≤ nodes }
    requires few { nodes ≤ 16 }
    ensures routes { IfOk result (λ r. r ≡ record { nodes = nodes; dead = dead }) }
    ensures cut_off { IfSome (first_cut_off (record { nodes = nodes; dead = dead })) (λ p. result ≡ Err (PlanFault.CutOff p.0 p.1)) }
    ensures joined { IsNone (first_cut_off (record { nodes = nodes; dead = dead })) →
        MatchResult result (λ r. r ≡ record { nodes = nodes; dead = dead }) (λ e. e ≡ PlanFault.Memory) }
    ensures all_living { dead ≡ replicate 32 false → IfErr result (λ e. e ≡ PlanFault.Memory) }
{
    let distances = Distances::find(nodes, dead);
    if let Some((a, b)) = distances.first_cut_off() {
        return Err(PlanFault::CutOff(a, b));
    }
    match Box::new(alloc, distances) {
        Ok(distances) => Ok(Routes { distances }),
        Err(AllocFailed { value: _ }) => Err(PlanFault::Memory),
    }
}

/// The first pair of nodes, the lesser first, that no path of living switches joins.
pub fn cut_off(nodes: u8, dead: Dead) -> Option<(NodeId, NodeId)>
    requires some { 1 ≤ nodes }
    requires few { nodes ≤ 16 }
    ensures pair { result ≡ first_cut_off (record { nodes = nodes; dead = dead }) }
    ensures first { IfSome result (λ p. IsFirstCutOff (record { nodes = nodes; dead = dead }) p.0 p.1) }
    ensures none { IsNone result ↔ ((a b : ℕ) → a < nodes → b < nodes → AreJoined (record { nodes = nodes; dead = dead }) a b) }
    ensures all_living { dead ≡ replicate 32 false → IsNone result }
{
    Distances::find(nodes, dead).first_cut_off()
}

impl Routes {
    /// Whether these are the routes round just these dead switches, so that nothing is to be made anew.
    fn is_round(&self, dead: Dead) -> bool
        ensures same { result ≡ true → record self.now { dead = dead } ≡ self.now }
        ensures sized { IsSized self.now }
        ensures joined { first_cut_off self.now ≡ None }
    {
        self.distances.dead() == dead
    }

    /// The first pair of nodes, the lesser first, that no path of living switches joins, where these are dead. It looks for none
    /// where these are the dead switches that the routes were made for.
    pub fn cut_off(&self, dead: Dead) -> Option<(NodeId, NodeId)>
        ensures pair { result ≡ first_cut_off (record self.now { dead = dead }) }
        ensures first { IfSome result (λ p. IsFirstCutOff (record self.now { dead = dead }) p.0 p.1) }
        ensures none { IsNone result ↔ ((a b : ℕ) → a < self.now.nodes → b < self.now.nodes →
            AreJoined (record self.now { dead = dead }) a b) }
    {
        if self.is_round(dead) {
            return None;
        }
        cut_off(self.distances.nodes(), dead)
    }

    /// Makes the routes anew. They stay as they are where two nodes would be cut off from each other.
    pub fn replan(&mut self, dead: Dead) -> Result<(), (NodeId, NodeId)>
        ensures made { IsOk result → self.new ≡ record self.old { dead = dead } }
        ensures refused { OnErr result (self.new ≡ self.old) }
        ensures cut_off { IfSome (first_cut_off (record self.old { dead = dead })) (λ p. result ≡ Err p) }
        ensures joined { IsNone (first_cut_off (record self.old { dead = dead })) → IsOk result }
    {
        if self.is_round(dead) {
            return Ok(());
        }
        let distances = Distances::find(self.distances.nodes(), dead);
        if let Some(pair) = distances.first_cut_off() {
            return Err(pair);
        }
        *self.distances = distances;
        Ok(())
    }

    /// The switch at which a message enters.
    pub fn enter(&self, from: NodeId, to: NodeId) -> SwitchId
        requires sender { from < self.now.nodes }
        requires receiver { to < self.now.nodes }
        ensures enter { result ≡ enter_of self.now from to }
        ensures own { node_of result ≡ from }
        ensures living { is_living self.now result ≡ true }
        ensures shortest { IsShortestEntry self.now from to result }
    {
        let a = SwitchId::a(from);
        let b = SwitchId::b(from);
        if self.distances.get(to, a.number()) <= self.distances.get(to, b.number()) {
            a
        } else {
            b
        }
    }

    /// The switch to which a message goes on. None where it has arrived.
    pub fn next(&self, at: SwitchId, to: NodeId) -> Option<SwitchId>
        requires living { is_living self.now at ≡ true }
        requires receiver { to < self.now.nodes }
        ensures next { result ≡ next_of self.now to at }
        ensures arrived { IsNone result ↔ (node_of at ≡ to) }
        ensures step { IfSome result (IsStep self.now to at) }
        ensures shortest { IsShortestWalk self.now to at }
    {
        self.distances.next(to, at.number())
    }
}
