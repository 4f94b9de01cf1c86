//! Whether the blocks that caches own fit their sets.
ghost use Rattle.std.specs.Prelude.{◌≡◌, ◌+◌, ◌%◌, ◌^◌, ◌<◌, ◌≤◌, [], true, length, replicate, IfSome};
ghost use Rattle.sn_base.specs.Config.{config_fits};
ghost use Rattle.sn_saved.specs.Saved.{full_from};
ghost use Rattle.save_text.specs.Judged.{dead_count, full_line};

use crate::saved::Saved;
use route_plan::Dead;
use sn_base::{BlockNo, Config, NodeId, SwitchId};

/// How many blocks each node owns in each set: none yet.
fn no_counts() -> [[u8; 256]; 16]
    ensures { result ≡ replicate 16 (replicate 256 0) }
{
    [[0; 256]; 16]
}

fn node_of(owner: &(BlockNo, NodeId)) -> usize
    ensures node { result ≡ owner.now.1 }
    ensures few { result < 16 }
{
    usize::from(owner.1.number())
}

/// The set of the block.
fn set_of(owner: &(BlockNo, NodeId), sets: u16) -> usize
    requires some { 1 ≤ sets }
    requires few_sets { sets ≤ 256 }
    ensures set { result ≡ owner.now.0 % sets }
    ensures few { result < 256 }
{
    usize::from(owner.0.number() % sets)
}

/// The place of the first owner that gives a node's set more blocks than it has ways. Each owner is looked at once.
fn first_full(config: &Config, owners: &[(BlockNo, NodeId)]) -> Option<usize>
    requires fits { config_fits config.now ≡ true }
    ensures place { result ≡ full_from config.now [] 0 owners.now }
    ensures there { IfSome result (λ place. place < length owners.now) }
{
    let mut taken = no_counts();
    'owners: for place in 0..owners.len() {
        let node = node_of(&owners[place]);
        let set = set_of(&owners[place], config.sets);
        if taken[node][set] >= config.ways {
            return Some(place);
        }
        taken[node][set] += 1;
    }
    None
}

/// The switch of a number.
fn switch_of(number: u8) -> SwitchId
    requires { number < 32 }
    ensures { result ≡ number }
{
    let node = NodeId::numbered(number / 2);
    if number % 2 == 0 {
        SwitchId::a(node)
    } else {
        SwitchId::b(node)
    }
}

fn count_dead(dead: Dead) -> u64
    ensures count { result ≡ dead_count dead }
    ensures few { result ≤ 32 }
{
    let mut count = 0;
    'switches: for number in 0u8..32 {
        if dead.has(switch_of(number)) {
            count += 1;
        }
    }
    count
}

/// The line of the owner at a place: three lines and one for each dead switch stand before the first.
fn line_of_owner(dead: Dead, place: usize) -> u64
    requires { place < 2 ^ 63 }
    ensures { result ≡ 4 + dead_count dead + place }
{
    4 + count_dead(dead) + place as u64
}

/// The line of that owner in the file.
pub fn full_line(saved: &Saved) -> Option<u64>
    requires fits { config_fits saved.now.config ≡ true }
    ensures { result ≡ full_line saved.now }
{
    let place = first_full(&saved.config, saved.owners.as_slice())?;
    Some(line_of_owner(saved.marks.dead, place))
}
