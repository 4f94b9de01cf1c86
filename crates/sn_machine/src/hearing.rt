//! What the processors and the service controller hear of an event of the fabric.
ghost use Rattle.std.specs.Prelude.{◌≡◌, ◌<◌, length, Some};
ghost use Rattle.reg_ckpt.specs.Checkpoints.{next};
ghost use Rattle.sn_machine.specs.Hearing.{CanHear, Hear, after_loss, after_news};
ghost use Rattle.sn_machine.specs.Parts.{unit_at};

use crate::processor::{Processor, unreserve};
use sn_base::{BlockNo, Interval, NodeId};
use sn_model::News;
use validation::Controller;

/// A core keeps no reservation on a copy that is lost.
fn lose_copy(processors: &mut Vec<Processor>, node: NodeId, block: BlockNo)
    requires { node < length processors.old.items }
    ensures { processors.new.items ≡ after_loss processors.old.items node block }
{
    let processor = &mut processors[usize::from(node.number())];
    unreserve(&mut processor.core, block);
}

/// A node frees the checkpoints below a recovery point.
fn free_below(processors: &mut Vec<Processor>, node: NodeId, k: Interval)
    requires here { node < length processors.old.items }
    requires below { k < next (unit_at processors.old.items node).checkpoints }
    ensures { processors.new.items ≡ after_news processors.old.items node k }
{
    let processor = &mut processors[usize::from(node.number())];
    processor.checkpoints.free_below(k);
}

/// A copy is lost, the controller gets a report, or a node hears of a recovery point.
pub fn hear(processors: &mut Vec<Processor>, controller: &mut Controller, told: &News)
    requires { CanHear processors.old.items controller.old (Some told.now) }
    ensures { Hear processors.old.items controller.old (Some told.now) processors.new.items controller.new }
{
    match told {
        News::LostCopy(node, block) => lose_copy(processors, *node, *block),
        News::Ready(node, k) => controller.ready(*node, *k),
        News::Advance(node, k) => free_below(processors, *node, *k),
    }
}
