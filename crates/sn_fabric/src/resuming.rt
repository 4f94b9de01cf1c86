//! A fabric that goes on from a recovery point.
ghost use Rattle.std.specs.Prelude.{◌≡◌, ℕ, ◌<◌, ◌≤◌, true, [], All, length, IfOk, None, slice_index_or};
ghost use Rattle.sn_base.specs.Config.{config_fits};
ghost use Rattle.sn_base.specs.Image.{ImageData};
ghost use Rattle.route_plan.specs.Routes.{first_cut_off};
ghost use Rattle.sn_model.specs.Caches.{block_count};
ghost use Rattle.sn_saved.specs.Resumed.{fabric_resumed};
ghost use Rattle.sn_saved.specs.Saved.{AreAscending, AreInside, full_from};
ghost use Rattle.sn_fabric.specs.Resumed.{content_in, unit_resumed, units_resumed, HasRoomFor, IsHomeWith, AreHomesResumed};
ghost use Rattle.sn_saved.specs.Resumed.{cache_resumed};
ghost use Rattle.switch_net.specs.Net.{without_messages};
ghost use Rattle.home_directory.specs.Home.{first_of};
ghost use Rattle.sn_model.specs.Caches.{empty_cache};

use crate::Fabric;
use crate::node::NodeUnit;
use ckpt_clock::Clock;
use home_directory::Home;
use log_buffer::LogBuffer;
use mosi_cache::Cache;
use rollback::Restore;
use route_plan::{Dead, PlanFault};
use sn_base::{BLOCKS, Block, BlockNo, Config, Image, Interval, Memory, MsgId, NodeId, Old};
use std::alloc::Global;
use switch_net::Net;

/// A cache gets back each block that its node owns, as an unwinding would put it back.
fn give_owned(cache: &mut Cache, node: NodeId, contents: &[Block], owners: &[(BlockNo, NodeId)])
    requires all { length contents.now ≡ block_count }
    requires empty { cache.old.cache ≡ empty_cache }
    requires order { AreAscending 0 owners.now }
    requires room { HasRoomFor cache.old node contents.now owners.now }
    ensures { cache.new ≡ record cache.old { cache = cache_resumed owners.now (content_in contents.now) node } }
{
    'owners: for place in 0..owners.len() {
        let (block, owner) = owners[place];
        if owner == node {
            let content = contents[usize::from(block.number())];
            cache.put_back(block, &Old::Owned(content));
        }
    }
}

fn resumed_unit(
    alloc: Global,
    node: NodeId,
    config: &Config,
    contents: &[Block],
    owners: &[(BlockNo, NodeId)],
    point: Interval,
) -> Result<NodeUnit, Memory>
    requires fits { config_fits config.now ≡ true }
    requires all { length contents.now ≡ block_count }
    requires order { AreAscending 0 owners.now }
    requires sets { full_from config.now [] 0 owners.now ≡ None }
    ensures { IfOk result (λ x. x ≡ unit_resumed config.now contents.now owners.now point node) }
{
    let mut cache = Cache::new(alloc, node, config)?;
    give_owned(&mut cache, node, contents, owners);
    let log = LogBuffer::new(alloc, config.log)?;
    let mut clock = Clock::start();
    clock.back_to(point);
    Ok(NodeUnit { clock, cache, log })
}

fn resumed_units(
    alloc: Global,
    config: &Config,
    contents: &[Block],
    owners: &[(BlockNo, NodeId)],
    point: Interval,
) -> Result<Vec<NodeUnit>, Memory>
    requires fits { config_fits config.now ≡ true }
    requires all { length contents.now ≡ block_count }
    requires order { AreAscending 0 owners.now }
    requires sets { full_from config.now [] 0 owners.now ≡ None }
    ensures { IfOk result (λ units. units.items ≡ units_resumed config.now.nodes config.now contents.now owners.now point) }
{
    let mut units = Vec::with_capacity(alloc, usize::from(config.nodes))?;
    'nodes: for number in 0..config.nodes {
        let node = NodeId::numbered(number);
        let unit = resumed_unit(alloc, node, config, contents, owners, point)?;
        units.push(unit)?;
    }
    Ok(units)
}

/// A home gets the content of each of its blocks.
fn give_contents(home: &mut Home, node: NodeId, nodes: u8, contents: &[Block])
    requires some { 1 ≤ nodes }
    requires few { nodes ≤ 16 }
    requires all { length contents.now ≡ block_count }
    requires node { home.old.node ≡ node }
    requires nodes { home.old.nodes ≡ nodes }
    requires rest { (image : ImageData) × (home.old ≡ first_of image node nodes) }
    ensures { IsHomeWith node nodes contents.now [] home.new }
{
    'numbers: for number in 0..BLOCKS {
        let block = BlockNo::new(number as u16);
        if block.home(nodes) == node {
            home.put_back(block, &Old::WasHome(contents[number]));
        }
    }
}

/// A home names the caches that own its blocks.
fn name_owners(
    home: &mut Home,
    node: NodeId,
    nodes: u8,
    contents: &[Block],
    owners: &[(BlockNo, NodeId)],
)
    requires some { 1 ≤ nodes }
    requires few { nodes ≤ 16 }
    requires contents { IsHomeWith node nodes contents.now [] home.old }
    requires order { AreAscending 0 owners.now }
    ensures { IsHomeWith node nodes contents.now owners.now home.new }
{
    let _contents = contents.len();
    'owners: for place in 0..owners.len() {
        let (block, owner) = owners[place];
        if block.home(nodes) == node {
            home.put_back(block, &Old::WasCache(owner));
        }
    }
}

fn resumed_home(
    alloc: Global,
    image: &Image,
    node: NodeId,
    nodes: u8,
    contents: &[Block],
    owners: &[(BlockNo, NodeId)],
) -> Result<Home, Memory>
    requires inside { node < nodes }
    requires few { nodes ≤ 16 }
    requires all { length contents.now ≡ block_count }
    requires order { AreAscending 0 owners.now }
    ensures { IfOk result (λ h. IsHomeWith node nodes contents.now owners.now h) }
{
    let mut home = Home::new(alloc, node, nodes, image)?;
    give_contents(&mut home, node, nodes, contents);
    name_owners(&mut home, node, nodes, contents, owners);
    Ok(home)
}

fn resumed_homes(
    alloc: Global,
    image: &Image,
    nodes: u8,
    contents: &[Block],
    owners: &[(BlockNo, NodeId)],
) -> Result<Vec<Home>, Memory>
    requires few { nodes ≤ 16 }
    requires all { length contents.now ≡ block_count }
    requires order { AreAscending 0 owners.now }
    ensures { IfOk result (λ homes. AreHomesResumed nodes contents.now owners.now homes.items) }
{
    let mut homes = Vec::with_capacity(alloc, usize::from(nodes))?;
    'nodes: for number in 0..nodes {
        let node = NodeId::numbered(number);
        let home = resumed_home(alloc, image, node, nodes, contents, owners)?;
        homes.push(home)?;
    }
    Ok(homes)
}

fn resumed_net(alloc: Global, nodes: u8, dead: Dead, next: MsgId) -> Result<Net, Memory>
    requires some { 1 ≤ nodes }
    requires few { nodes ≤ 16 }
    requires numbers { 1 ≤ next }
    requires joined { first_cut_off (record { nodes = nodes; dead = dead }) ≡ None }
    ensures { IfOk result (λ n. n ≡ without_messages nodes dead next) }
{
    match Net::at(alloc, nodes, dead, next) {
        Ok(net) => Ok(net),
        Err(PlanFault::Memory) => Err(Memory),
        Err(PlanFault::CutOff(_, _)) => unreachable!(),
    }
}

impl Fabric {
    /// A fabric of these sizes at a recovery point. Each block has its content, in order of their numbers, at the cache that
    /// is listed for it, or else at its home; every clock stands at the point, and nothing is open, noted or in flight. It
    /// takes all memory that the fabric ever needs.
    pub fn at_cut(
        alloc: Global,
        image: &Image,
        config: Config,
        contents: &[Block],
        owners: &[(BlockNo, NodeId)],
        point: Interval,
        next: MsgId,
        dead: Dead,
    ) -> Result<Fabric, Memory>
        requires fits { config_fits config ≡ true }
        requires all { length contents.now ≡ block_count }
        requires order { AreAscending 0 owners.now }
        requires nodes { AreInside config.nodes owners.now }
        requires sets { full_from config [] 0 owners.now ≡ None }
        requires numbers { 1 ≤ next }
        requires joined { first_cut_off (record { nodes = config.nodes; dead = dead }) ≡ None }
        ensures { IfOk result (λ f. f ≡ record {
          config = config;
          fabric = fabric_resumed config.nodes owners.now (λ block. slice_index_or contents.now block []) point next dead;
          sent = [];
        }) }
    {
        let units = resumed_units(alloc, &config, contents, owners, point)?;
        let homes = resumed_homes(alloc, image, config.nodes, contents, owners)?;
        let net = resumed_net(alloc, config.nodes, dead, next)?;
        let sent = Vec::with_capacity(alloc, 17)?;
        Ok(Fabric {
            config,
            units,
            homes,
            net,
            point,
            sent,
        })
    }
}
