//! The distances of all switches to a node, found breadth first: a level of the search has the switches that come to
//! the node over so many links.
ghost use Rattle.std.specs.Prelude.{◌≡◌, ℕ, ◌+◌, ◌*◌, ◌<◌, ◌≤◌, Bool, false, if◌then◌else◌, nat_eq, IsNone, IfSome, slice_index};
ghost use Rattle.route_plan.specs.Distances.{Switches, is_dead, distance};
ghost use Rattle.route_plan.specs.Routes.{is_cut_off, cut_off_from, first_cut_off, next_of};
ghost use Rattle.route_plan.specs.Tables.{IsLevel, IsTable, AreTables, IsSized, is_near, is_next, level_after};

use crate::dead::Dead;
use crate::grid::Grid;
use sn_base::{NodeId, SwitchId};
use std::marker::Model;

/// The distance of a switch that no path joins with the node; a path has fewer links.
pub const APART: u8 = 32;

/// The switch of a number.
fn switch_of(number: u8) -> SwitchId
    requires { number < 32 }
    ensures { result ≡ number }
{
    let node = NodeId::numbered(number / 2);
    if number % 2 == 0 {
        SwitchId::a(node)
    } else {
        SwitchId::b(node)
    }
}

fn has_near(grid: &Grid, table: &[u8; 32], switch: u8, links: u8) -> bool
    requires few { grid.now ≤ 16 }
    requires there { switch < 2 * grid.now }
    ensures { result ≡ is_near grid.now links table.now switch }
{
    let [after, before, partner] = grid.neighbours(switch);
    table[usize::from(after)] <= links
        || table[usize::from(before)] <= links
        || table[usize::from(partner)] <= links
}

fn is_next(grid: &Grid, dead: Dead, table: &[u8; 32], switch: u8, links: u8) -> bool
    requires few { grid.now ≤ 16 }
    requires there { switch < 2 * grid.now }
    ensures { result ≡ is_next (record { nodes = grid.now; dead = dead }) links table.now switch }
{
    table[usize::from(switch)] == APART
        && !dead.has(switch_of(switch))
        && has_near(grid, table, switch, links)
}

/// Adds the switches that are one link farther than the last level's, and says whether there were any.
fn grow(grid: &Grid, dead: Dead, table: &mut [u8; 32], links: u8) -> bool
    requires few { grid.now ≤ 16 }
    requires links { links < 31 }
    ensures grown { (s : ℕ) → s < 2 * grid.now →
        slice_index table.new s ≡ level_after (record { nodes = grid.now; dead = dead }) links table.old s }
    ensures still { result ≡ false → (s : ℕ) → s < 2 * grid.now → slice_index table.new s ≡ slice_index table.old s }
{
    let before = *table;
    let mut grew = false;
    'switches: for switch in 0..2 * grid.nodes() {
        if is_next(grid, dead, &before, switch, links) {
            table[usize::from(switch)] = links + 1;
            grew = true;
        }
    }
    grew
}

fn start(dead: Dead, switch: SwitchId) -> u8
    ensures { result ≡ (if is_dead dead switch then 32 else 0) }
{
    if dead.has(switch) { APART } else { 0 }
}

/// The table of the switches that come over no link: the living ones of the node itself.
fn first_level(grid: &Grid, dead: Dead, to: NodeId) -> [u8; 32]
    requires few { grid.now ≤ 16 }
    requires there { to < grid.now }
    ensures { IsLevel (record { nodes = grid.now; dead = dead }) to 0 result }
{
    let mut table = [APART; 32];
    table[2 * usize::from(to.number())] = start(dead, SwitchId::a(to));
    table[2 * usize::from(to.number()) + 1] = start(dead, SwitchId::b(to));
    table
}

/// The distances of all switches to a node.
fn distances_to(grid: &Grid, dead: Dead, to: NodeId) -> [u8; 32]
    requires some { 1 ≤ grid.now }
    requires few { grid.now ≤ 16 }
    requires there { to < grid.now }
    ensures { IsTable (record { nodes = grid.now; dead = dead }) to result }
{
    let mut table = first_level(grid, dead, to);
    'levels: for links in 0..31 {
        if !grow(grid, dead, &mut table, links) {
            return table;
        }
    }
    table
}

fn all_distances(grid: &Grid, dead: Dead) -> [[u8; 32]; 16]
    requires some { 1 ≤ grid.now }
    requires few { grid.now ≤ 16 }
    ensures { AreTables (record { nodes = grid.now; dead = dead }) result }
{
    let mut tables = [[APART; 32]; 16];
    'nodes: for to in 0..grid.nodes() {
        tables[usize::from(to)] = distances_to(grid, dead, NodeId::numbered(to));
    }
    tables
}

/// The distances of all switches to all nodes. Contracts see how many nodes there are and which switches are dead.
#[derive(Drop)]
pub struct Distances {
    grid: Grid,
    dead: Dead,
    tables: [[u8; 32]; 16],
}

impl Model for Distances {
    ghost use Rattle.route_plan.specs.Distances.{Switches};
    ghost use Rattle.route_plan.specs.Tables.{IsFilled};

    ghost Value = { Switches };

    ghost view = { λ d. record { nodes = d.grid; dead = d.dead } };

    ghost invariant = { λ d. IsFilled (record { nodes = d.grid; dead = d.dead }) d.tables };
}

impl Distances {
    pub fn find(nodes: u8, dead: Dead) -> Distances
        requires some { 1 ≤ nodes }
        requires few { nodes ≤ 16 }
        ensures { result ≡ record { nodes = nodes; dead = dead } }
    {
        let grid = Grid::new(nodes);
        let tables = all_distances(&grid, dead);
        Distances { grid, dead, tables }
    }

    pub fn nodes(&self) -> u8
        ensures same { result ≡ self.now.nodes }
        ensures sized { IsSized self.now }
    {
        // For the prover alone: the tables' invariant.
        let _ = &self.tables;
        self.grid.nodes()
    }

    pub fn dead(&self) -> Dead
        ensures { result ≡ self.now.dead }
    {
        self.dead
    }

    /// How many links a switch is from a node; `APART` where no path joins them.
    pub fn get(&self, to: NodeId, switch: u8) -> u8
        requires receiver { to < self.now.nodes }
        requires there { switch < 2 * self.now.nodes }
        ensures value { result ≡ distance self.now to switch }
        ensures most { result ≤ 32 }
    {
        self.tables[usize::from(to.number())][usize::from(switch)]
    }

    fn is_cut_off(&self, a: NodeId, b: NodeId) -> bool
        requires first { a < self.now.nodes }
        requires second { b < self.now.nodes }
        ensures { result ≡ is_cut_off self.now a b }
    {
        self.get(b, SwitchId::a(a).number()) == APART
            && self.get(b, SwitchId::b(a).number()) == APART
    }

    /// The least node that isn't below a node and is cut off from it.
    fn cut_off_from(&self, a: NodeId) -> Option<NodeId>
        requires { a < self.now.nodes }
        ensures none { IsNone result → cut_off_from self.now a ≡ self.now.nodes }
        ensures some { IfSome result (λ b. b ≡ cut_off_from self.now a) }
        ensures there { IfSome result (λ b. b < self.now.nodes) }
    {
        'nodes: for number in a.number()..self.nodes() {
            let b = NodeId::numbered(number);
            if self.is_cut_off(a, b) {
                return Some(b);
            }
        }
        None
    }

    /// The first pair of nodes that no path joins.
    pub fn first_cut_off(&self) -> Option<(NodeId, NodeId)>
        ensures { result ≡ first_cut_off self.now }
    {
        'nodes: for number in 0..self.nodes() {
            let a = NodeId::numbered(number);
            if let Some(b) = self.cut_off_from(a) {
                return Some((a, b));
            }
        }
        None
    }

    /// The switch itself where it is one link nearer than so many; past all switches where it isn't.
    fn if_nearer(&self, to: NodeId, switch: u8, links: u8) -> u8
        requires receiver { to < self.now.nodes }
        requires there { switch < 2 * self.now.nodes }
        ensures { result ≡ (if nat_eq (distance self.now to switch + 1) links then switch else 2 * self.now.nodes) }
    {
        if self.get(to, switch) + 1 == links {
            switch
        } else {
            2 * self.nodes()
        }
    }

    /// The least-numbered neighbour that is one link nearer.
    pub fn next(&self, to: NodeId, at: u8) -> Option<SwitchId>
        requires receiver { to < self.now.nodes }
        requires there { at < 2 * self.now.nodes }
        ensures { result ≡ next_of self.now to at }
    {
        let links = self.get(to, at);
        let [after, before, partner] = self.grid.neighbours(at);
        let next = self
            .if_nearer(to, after, links)
            .min(self.if_nearer(to, before, links))
            .min(self.if_nearer(to, partner, links));
        if next < 2 * self.nodes() {
            Some(switch_of(next))
        } else {
            None
        }
    }
}
