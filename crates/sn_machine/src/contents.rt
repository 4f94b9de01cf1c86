//! What the cut at the recovery point has of each block.
ghost use Rattle.std.specs.Prelude.{◌≡◌, ◌≤◌, length};
ghost use Rattle.sn_model.specs.Caches.{block_count};
ghost use Rattle.sn_model.specs.RecoveryPoint.{IsCut, block_in};
ghost use Rattle.consistent_cuts.specs.Headline.{IsStepOfRun};
ghost use Rattle.sn_machine.specs.Machine.{flat_of, next_of};

use crate::view::View;
use sn_base::{Block, BlockNo, Event};

impl<'a> View<'a> {
    /// The content of a block, where the machine has it.
    pub fn block(&self, block: BlockNo) -> &'a Block
        ensures { result.now ≡ block_in (flat_of self.now).memory block }
    {
        let machine = self.machine;
        let hardware = &machine.hardware;
        // The prover learns here that it is the number of a block.
        let _number = block.number();
        hardware.fabric.content_at(block, hardware.point())
    }

    /// That what is shown is a cut of a whole machine, which has its 1 to 16 nodes and an entry for each block: the recovery
    /// point is the flat machine after the committed trace, with one owner of each block, and a recovery goes back to it.
    /// Nothing is done.
    pub fn is_cut(&self)
        ensures nodes { length self.now.state.fabric.nodes ≡ self.now.config.nodes }
        ensures some { 1 ≤ self.now.config.nodes }
        ensures few { self.now.config.nodes ≤ 16 }
        ensures homes { length self.now.state.fabric.homes ≡ block_count }
        ensures cut { IsCut self.now.state self.now.state.fabric.point (flat_of self.now) }
        ensures back { IsStepOfRun self.now.image self.now.config self.now.state Event.Recover (next_of self.now Event.Recover) }
    {
        let machine = self.machine;
        // For the prover alone: the program's invariant.
        let _image = &machine.image;
    }
}
