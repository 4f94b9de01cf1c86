//! A machine before the first turn of a run on its caller's thread.
ghost use Rattle.std.specs.Prelude.{◌≡◌, ◌+◌, ◌≤◌, true, IfOk};
ghost use Rattle.sn_base.specs.Config.{config_fits};
ghost use Rattle.script_replay.specs.Machine.{machine_with_room};
ghost use Rattle.sn_base.specs.declared.limits.TheConstants.{EVENTS};

use script_replay::sn_machine::Machine;
use sn_base::{Config, Image, Memory};
use std::alloc::Global;

/// A machine of these sizes at the start of the program, with room for a run of so many events.
pub fn machine_for(
    alloc: Global,
    program: Image,
    config: Config,
    budget: u32,
) -> Result<Machine, Memory>
    requires sizes { config_fits config ≡ true }
    requires few { budget ≤ EVENTS }
    ensures { IfOk result (λ m. m ≡ machine_with_room program config (budget + 1)) }
{
    // One event more than the run does, so that it may always be asked for one.
    Machine::with_room(alloc, program, config, budget + 1)
}
