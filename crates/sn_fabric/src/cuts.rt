//! Whom the home of a block names at a cut.
ghost use Rattle.std.specs.Prelude.{◌≡◌, Option, option_copied};
ghost use Rattle.home_directory.specs.Home.{owner_of};
ghost use Rattle.sn_model.specs.Cuts.{names_at};
ghost use Rattle.sn_fabric.specs.Units.{owner_by};

use crate::{Fabric, Owner};
use sn_base::{BlockNo, Interval, Old};

fn owner_by(noted: Option<&Old>, owner: Owner) -> Owner
    ensures { result ≡ owner_by (option_copied noted.entry) owner }
{
    match noted {
        Some(Old::WasHome(_)) => Owner::Home,
        Some(Old::WasCache(node)) => Owner::Cache(*node),
        _ => owner,
    }
}

impl Fabric {
    /// The owner of a block at cut k.
    pub fn owner_at(&self, block: BlockNo, k: Interval) -> Owner
        ensures { result ≡ owner_of (names_at self.now.fabric block k) }
    {
        // For the prover alone: the block is one of memory's.
        let _number = block.number();
        let home = block.home(self.config.nodes);
        let place = usize::from(home.number());
        let owner = self.homes[place].owner(block);
        owner_by(self.units[place].log.old_at(true, block, k), owner)
    }
}
