//! A node's processor: its core, the core's copies at the checkpoints, and its input.
ghost use Rattle.std.specs.Prelude.{◌≡◌};
ghost use Rattle.rv_core.specs.Core.{is_reserved};
ghost use Rattle.sn_model.specs.MachineEvents.{core_without_reservation};

use crate::input::Input;
use reg_ckpt::RegCheckpoints;
use rv_core::CoreState;
use sn_base::BlockNo;

#[derive(Drop)]
pub struct Processor {
    pub core: CoreState,
    pub checkpoints: RegCheckpoints,
    pub input: Input,
}

/// Whether the core has reserved this block.
pub fn is_reserved(core: &CoreState, block: BlockNo) -> bool
    ensures { result ≡ is_reserved core.now.reservation block }
{
    match core.reservation {
        Some(reserved) => reserved == block,
        None => false,
    }
}

/// The core keeps no reservation on a block whose copy is lost.
pub fn unreserve(core: &mut CoreState, block: BlockNo)
    ensures { core.new ≡ core_without_reservation core.old block }
{
    if is_reserved(core, block) {
        core.reservation = None;
    }
}
