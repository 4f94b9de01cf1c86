//! The fabric at the start.
ghost use Rattle.std.specs.Prelude.{◌≡◌, ◌<◌, ◌≤◌, true, [], IfOk};
ghost use Rattle.sn_base.specs.Config.{config_fits};
ghost use Rattle.sn_model.specs.Fabric.{first_fabric};
ghost use Rattle.sn_fabric.specs.Start.{first_unit, units_below, homes_below};

use crate::Fabric;
use crate::node::NodeUnit;
use ckpt_clock::Clock;
use home_directory::Home;
use log_buffer::LogBuffer;
use mosi_cache::Cache;
use sn_base::{Config, Image, Memory, NodeId};
use std::alloc::Global;
use switch_net::Net;

fn first_unit(alloc: Global, node: NodeId, config: &Config) -> Result<NodeUnit, Memory>
    requires { config_fits config.now ≡ true }
    ensures { IfOk result (λ x. x ≡ first_unit config.now node) }
{
    let cache = Cache::new(alloc, node, config)?;
    let log = LogBuffer::new(alloc, config.log)?;
    Ok(NodeUnit {
        clock: Clock::start(),
        cache,
        log,
    })
}

fn first_units(alloc: Global, config: &Config) -> Result<Vec<NodeUnit>, Memory>
    requires fits { config_fits config.now ≡ true }
    requires few { config.now.nodes ≤ 16 }
    ensures { IfOk result (λ units. units.items ≡ units_below config.now.nodes config.now) }
{
    let mut units = Vec::with_capacity(alloc, usize::from(config.nodes))?;
    'nodes: for number in 0..config.nodes {
        let node = NodeId::new(number).unwrap();
        let unit = first_unit(alloc, node, config)?;
        units.push(unit)?;
    }
    Ok(units)
}

fn first_homes(alloc: Global, image: &Image, nodes: u8) -> Result<Vec<Home>, Memory>
    requires few { nodes ≤ 16 }
    ensures { IfOk result (λ homes. homes.items ≡ homes_below nodes image.now nodes) }
{
    let mut homes = Vec::with_capacity(alloc, usize::from(nodes))?;
    'nodes: for number in 0..nodes {
        let node = NodeId::new(number).unwrap();
        let home = Home::new(alloc, node, nodes, image)?;
        homes.push(home)?;
    }
    Ok(homes)
}

impl Fabric {
    /// A fabric of these sizes, in which each home owns its blocks with the bytes that the program gives them. It takes all
    /// memory that the fabric ever needs.
    pub fn new(alloc: Global, image: &Image, config: Config) -> Result<Fabric, Memory>
        requires { config_fits config ≡ true }
        ensures { IfOk result (λ f. f ≡ record { config = config; fabric = first_fabric image.now config.nodes; sent = [] }) }
    {
        let units = first_units(alloc, &config)?;
        let homes = first_homes(alloc, image, config.nodes)?;
        let net = Net::new(alloc, config.nodes)?;
        let sent = Vec::with_capacity(alloc, 17)?;
        Ok(Fabric {
            config,
            units,
            homes,
            net,
            point: 0,
            sent,
        })
    }
}
