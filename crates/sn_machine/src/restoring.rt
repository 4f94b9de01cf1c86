//! Processors that are put back to a checkpoint.
ghost use Rattle.std.specs.Prelude.{◌≡◌, ℕ, ◌<◌, length, map};
ghost use Rattle.reg_ckpt.specs.Checkpoints.{HasCheckpoint};
ghost use Rattle.sn_machine.specs.Parts.{unit_at};
ghost use Rattle.sn_machine.specs.Restored.{restored_unit};

use crate::processor::Processor;
use sn_base::Interval;

/// The core is as checkpoint k keeps it, and no other checkpoint is kept.
fn restore(processor: &mut Processor, k: Interval)
    requires { HasCheckpoint processor.old.checkpoints k }
    ensures { processor.new ≡ restored_unit k processor.old }
{
    processor.core = *processor.checkpoints.get(k);
    processor.checkpoints.free_below(k);
    processor.checkpoints.drop_above(k);
}

pub fn restore_all(processors: &mut Vec<Processor>, k: Interval)
    requires { (n : ℕ) → n < length processors.old.items → HasCheckpoint (unit_at processors.old.items n).checkpoints k }
    ensures { processors.new.items ≡ map (restored_unit k) processors.old.items }
{
    let count = processors.len();
    'processors: for place in 0..count {
        let processor = &mut processors[place];
        restore(processor, k);
    }
}
