//! Walks that the rules give, and all distances against links that these tests make themselves.
ghost use Rattle.std.specs.Prelude.{◌≡◌, ◌*◌, ◌<◌, ◌≤◌};

use super::is_so;
use route_plan::{Dead, PlanFault, Routes, cut_off, plan};
use sn_base::{NodeId, SwitchId};
use std::alloc::{AllocError, Global};
use std::process::Abort;
use std::test::Fail;

fn node(rt: &impl Abort, number: u8) -> NodeId
    ensures { result ≡ number }
{
    NodeId::new(number).expect(rt, "a node has a number below 16")
}

/// The numbers of the switches from a message's entry to its arrival.
fn walk_of(alloc: Global, routes: &Routes, from: NodeId, to: NodeId) -> Result<Vec<u8>, AllocError>
    requires sender { from < routes.now.nodes }
    requires receiver { to < routes.now.nodes }
{
    let mut walk = Vec::new(alloc);
    let mut at = routes.enter(from, to);
    'switches: for _ in 0..32 {
        walk.push(at.number())?;
        match routes.next(at, to) {
            Some(next) => at = next,
            None => return Ok(walk),
        }
    }
    Ok(walk)
}

fn are_beside(size: u32, place: u32, other: u32) -> bool
    requires some { 0 < size }
    requires place { place < 99 }
    requires other { other < 99 }
{
    place != other && ((place + 1) % size == other || (other + 1) % size == place)
}

/// Whether two switches are linked, by the rows and columns of their nodes.
fn are_linked(rows: u32, columns: u32, s: u32, t: u32) -> bool
    requires rows { 0 < rows }
    requires columns { 0 < columns }
    requires first { s < 32 }
    requires second { t < 32 }
{
    let (m, n) = (s / 2, t / 2);
    if m == n {
        return s != t;
    }
    let same_row = m / columns == n / columns;
    let same_column = m % columns == n % columns;
    if s % 2 != t % 2 {
        false
    } else if s % 2 == 0 {
        same_row && are_beside(columns, m % columns, n % columns)
    } else {
        same_column && are_beside(rows, m / columns, n / columns)
    }
}

/// The links from each switch to a node, by trying every link 32 times.
fn links_by_trying(rows: u32, columns: u32, to: usize) -> [u32; 32]
    requires rows { 0 < rows }
    requires columns { 0 < columns }
    requires few { 2 * (rows * columns) ≤ 32 }
{
    let count = 2 * (rows * columns) as usize;
    let mut links = [99u32; 32];
    for s in 0..32usize {
        if s / 2 == to {
            links[s] = 0;
        }
    }
    for _ in 0..32 {
        for s in 0..count {
            for t in 0..count {
                if are_linked(rows, columns, s as u32, t as u32)
                    && links[t].saturating_add(1) < links[s]
                {
                    links[s] = links[t].saturating_add(1);
                }
            }
        }
    }
    links
}

fn agrees_at(rt: &impl Abort, alloc: Global, rows: u32, columns: u32) -> Result<(), Fail>
    requires rows { 0 < rows }
    requires columns { 0 < columns }
    requires few { 2 * (rows * columns) ≤ 32 }
{
    let nodes = (rows * columns) as u8;
    is_so(rt, cut_off(nodes, Dead::none()) == None);
    let routes = plan(alloc, nodes, Dead::none())?;
    for to in 0..nodes {
        let links = links_by_trying(rows, columns, usize::from(to));
        for from in 0..nodes {
            let walk = walk_of(alloc, &routes, node(rt, from), node(rt, to))?;
            let fewest = links[2 * usize::from(from)].min(links[2 * usize::from(from) + 1]);
            is_so(rt, walk.len() as u64 == u64::from(fewest) + 1);
        }
    }
    Ok(())
}

#[test]
fn every_walk_is_as_short_as_the_links_allow(rt: HostRuntime) -> Result<(), Fail> {
    agrees_at(&rt, rt.alloc(), 1, 1)?;
    agrees_at(&rt, rt.alloc(), 1, 2)?;
    agrees_at(&rt, rt.alloc(), 2, 2)?;
    agrees_at(&rt, rt.alloc(), 3, 4)?;
    agrees_at(&rt, rt.alloc(), 4, 4)
}

#[test]
fn a_walk_goes_round_a_dead_switch(rt: HostRuntime) -> Result<(), Fail> {
    let (zero, one) = (node(&rt, 0), node(&rt, 1));
    let mut routes = plan(rt.alloc(), 4, Dead::none())?;
    let walk = walk_of(rt.alloc(), &routes, one, zero)?;
    is_so(&rt, walk.as_slice() == [2, 0].as_slice());
    let dead = Dead::none().with(SwitchId::a(zero));
    is_so(
        &rt,
        dead.has(SwitchId::a(zero)) && !dead.has(SwitchId::b(zero)),
    );
    is_so(&rt, routes.replan(dead).is_ok());
    let walk = walk_of(rt.alloc(), &routes, one, zero)?;
    is_so(&rt, walk.as_slice() == [3, 7, 6, 4, 5, 1].as_slice());
    Ok(())
}

#[test]
fn a_node_without_a_living_switch_is_cut_off_from_itself(rt: HostRuntime) -> Result<(), Fail> {
    let zero = node(&rt, 0);
    let dead = Dead::none().with(SwitchId::a(zero)).with(SwitchId::b(zero));
    let mut routes = plan(rt.alloc(), 4, Dead::none())?;
    is_so(&rt, routes.replan(dead) == Err((zero, zero)));
    let walk = walk_of(rt.alloc(), &routes, node(&rt, 1), zero)?;
    is_so(&rt, walk.as_slice() == [2, 0].as_slice());
    is_so(&rt, cut_off(4, dead) == Some((zero, zero)));
    is_so(
        &rt,
        plan(rt.alloc(), 4, dead).err() == Some(PlanFault::CutOff(zero, zero)),
    );
    Ok(())
}

#[test]
fn a_ring_of_two_has_one_link(rt: HostRuntime) -> Result<(), Fail> {
    let (zero, one) = (node(&rt, 0), node(&rt, 1));
    let routes = plan(rt.alloc(), 2, Dead::none())?;
    let walk = walk_of(rt.alloc(), &routes, zero, one)?;
    is_so(&rt, walk.as_slice() == [0, 2].as_slice());
    is_so(
        &rt,
        cut_off(2, Dead::none().with(SwitchId::a(zero))) == Some((zero, one)),
    );
    Ok(())
}
