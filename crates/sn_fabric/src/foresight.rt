//! What each event but an instruction and an input would be answered now.
ghost use Rattle.std.specs.Prelude.{◌≡◌, ◌+◌, ◌*◌, ◌<◌, ◌≤◌, ◌^◌, length, is_some, ℕ};
ghost use Rattle.std.specs.List.{sum_by};
ghost use Rattle.sn_model.specs.Fabric.{node_at};
ghost use Rattle.sn_model.specs.NodeEvents.{step_of_edge, step_of_report};
ghost use Rattle.sn_model.specs.NetEvents.{step_of_hop, step_of_loss, step_of_kill};
ghost use Rattle.sn_model.specs.PointEvents.{step_of_advance, step_of_recovery};
ghost use Rattle.switch_net.specs.Net.{find_flight};
ghost use Rattle.log_buffer.specs.Log.{entries_from};
ghost use Rattle.sn_model.specs.FabricEvents.{moved_by};
ghost use Rattle.sn_fabric.specs.Foresight.{fabric_event, IsForeseeable};
ghost use Rattle.sn_fabric.specs.Parts.{unit_at};
ghost use Rattle.sn_fabric.specs.Recovery.{undone_of};
ghost use Rattle.sn_fabric.specs.Units as unit;

use crate::Fabric;
use crate::node::NodeUnit;
use crate::switches::hop_answer;
use ckpt_clock::Clock;
use log_buffer::LogBuffer;
use sn_base::{Answer, CHECKPOINTS, Entries, Event, Interval, MsgId, NodeId, SwitchId, Undo};
use switch_net::{Net, TakeFault};

fn edge_answer(clock: &Clock) -> Answer
    requires { clock.now.interval + 1 < 2 ^ 32 }
    ensures { result ≡ unit.edge_answer clock.now }
{
    let now = clock.now();
    if now - clock.known() == CHECKPOINTS {
        Answer::CheckpointsFull
    } else {
        Answer::Edged(now + 1)
    }
}

/// Whether a message is in flight.
fn is_there(net: &Net, id: MsgId) -> bool
    ensures { result ≡ is_some (find_flight net.now.flights id) }
{
    match net.look(id) {
        Ok(_) | Err(TakeFault::NotArrived) => true,
        Err(TakeFault::NoMessage) => false,
    }
}

/// How many entries of a log a recovery to checkpoint k would undo.
fn count_undone(log: &LogBuffer, k: Interval) -> u32
    requires { length log.now.entries < 2 ^ 16 }
    ensures { result ≡ length (entries_from k log.now.entries) }
{
    let mut count = 0;
    'places: for place in 0..log.count() {
        if log.entry(place).interval >= k {
            count += 1;
        }
    }
    count
}

/// How many entries of all logs a recovery to checkpoint k would undo.
fn count_all_undone(units: &[NodeUnit], k: Interval) -> u32
    requires few { length units.now ≤ 16 }
    requires logs { (n : ℕ) → n < length units.now → length (unit_at units.now n).log.entries < 2 ^ 16 }
    ensures { result ≡ sum_by (undone_of k) units.now }
{
    let mut undone = 0;
    'units: for unit in units {
        undone += count_undone(&unit.log, k);
    }
    undone
}

impl Fabric {
    /// The answer that the call of an event would give now, under that call's conditions: with k as what `advance` is given
    /// for Validate, and `recover` for Recover. Of an instruction and of an input the fabric knows nothing.
    #[tactic(auto, unfolding(sn_model::specs::FabricEvents::moved_by))]
    pub fn foresee(&self, event: Event, k: Interval) -> Answer
        requires { IsForeseeable self.now.fabric event k }
        ensures { result ≡ (moved_by self.now.config self.now.fabric (fabric_event event k)).answer }
    {
        match event {
            Event::Evict(node, block) => self.foresee_evict(node, block),
            Event::Edge(node) => self.foresee_edge(node),
            Event::Hop(id) => self.foresee_hop(id),
            Event::Deliver(id) => self.foresee_deliver(id),
            Event::Lose(id) => self.foresee_lose(id),
            Event::Kill(switch) => self.foresee_kill(switch),
            Event::Report(node) => self.foresee_report(node),
            Event::Validate => self.foresee_advance(k),
            Event::Recover => self.foresee_recover(k),
            Event::Step(_) | Event::Input(_, _) => unreachable!(),
        }
    }

    fn foresee_edge(&self, node: NodeId) -> Answer
        requires here { node < length self.now.fabric.nodes }
        requires numbers { (node_at self.now.fabric node).now + 1 < 2 ^ 32 }
        ensures { result ≡ (step_of_edge self.now.fabric node).answer }
    {
        edge_answer(&self.units[usize::from(node.number())].clock)
    }

    fn foresee_hop(&self, id: MsgId) -> Answer
        ensures { result ≡ (step_of_hop self.now.fabric id).answer }
    {
        hop_answer(self.net.look_hop(id))
    }

    fn foresee_lose(&self, id: MsgId) -> Answer
        ensures { result ≡ (step_of_loss self.now.fabric id).answer }
    {
        if is_there(&self.net, id) {
            Answer::Lost
        } else {
            Answer::NoMessage
        }
    }

    fn foresee_kill(&self, switch: SwitchId) -> Answer
        requires { switch < 2 * length self.now.fabric.nodes }
        ensures { result ≡ (step_of_kill self.now.fabric switch).answer }
    {
        if self.net.is_dead(switch) {
            Answer::AlreadyDead
        } else {
            Answer::Killed
        }
    }

    fn foresee_report(&self, node: NodeId) -> Answer
        requires { node < length self.now.fabric.nodes }
        ensures { result ≡ (step_of_report self.now.fabric node).answer }
    {
        if self.is_full() {
            return Answer::NetFull;
        }
        Answer::Reported(self.ready(node))
    }

    fn foresee_advance(&self, k: Interval) -> Answer
        ensures { result ≡ (step_of_advance self.now.fabric k).answer }
    {
        if self.lacks_room_for_all() {
            Answer::NetFull
        } else {
            Answer::Validated(k)
        }
    }

    fn foresee_recover(&self, k: Interval) -> Answer
        ensures { result ≡ (step_of_recovery self.now.fabric k).answer }
    {
        if let Some((first, second)) = self.net.cut_off() {
            return Answer::CutOff(first, second);
        }
        Answer::Recovered(Undo {
            to: k,
            undone: count_all_undone(self.units.as_slice(), k),
            dropped: self.net.count() as u32,
        })
    }
}
