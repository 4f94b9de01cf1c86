//! The plan of a delivery: the message is found, and who takes it, by which row, with what room.
ghost use Rattle.std.specs.Prelude.{◌≡◌, ◌+◌, ◌≤◌};
ghost use Rattle.sn_model.specs.Fabric.{node_at};
ghost use Rattle.sn_model.specs.Receivers.{receiver_of};
ghost use Rattle.sn_fabric.specs.Deliveries.{HasCome, fault_as, look_answer};
ghost use Rattle.sn_fabric.specs.Plans.{IsPlan, answer_of};

use crate::Fabric;
use sn_base::{Answer, Interval, MsgId};
use sn_model::{CacheRow, HomeMessage, HomeRow, Look, Receiver, receiver_of};
use sn_msg::Message;
use switch_net::TakeFault;

/// What the delivery of a message comes to: it is refused, and nothing changes; or its receiver's cache or home does this row,
/// the service controller gets a report, or the receiver hears of a recovery point. The message stays in the network.
#[derive(Clone, Copy)]
pub enum Plan {
    Refuses(Answer),
    AtCache(CacheRow),
    AtHome(HomeRow),
    Reports(Interval),
    Tells(Interval),
}

/// What a delivery by the plan is answered.
pub fn answer_of(plan: &Plan) -> Answer
    ensures { result ≡ answer_of plan.now }
{
    match plan {
        Plan::Refuses(answer) => *answer,
        Plan::AtCache(_) | Plan::AtHome(_) => Answer::Delivered,
        Plan::Reports(_) | Plan::Tells(_) => Answer::Delivered,
    }
}

fn fault_answer(fault: TakeFault) -> Answer
    ensures { result ≡ fault_as fault }
{
    match fault {
        TakeFault::NoMessage => Answer::NoMessage,
        TakeFault::NotArrived => Answer::NotArrived,
    }
}

/// The answer by what the receiver says beforehand. The message itself leaves the network, so there may be one more.
fn look_answer(look: Look, flights: usize) -> Answer
    requires { flights ≤ 1024 }
    ensures { result ≡ look_answer look flights }
{
    match look {
        Look::Sends(more) if flights + usize::from(more) > 1025 => Answer::NetFull,
        Look::Sends(_) => Answer::Delivered,
        Look::HomeBusy => Answer::HomeBusy,
        Look::LogFull => Answer::LogFull,
    }
}

impl Fabric {
    /// The plan of the delivery of a message by its number.
    pub(super) fn plan(&self, id: MsgId) -> Plan
        ensures { IsPlan self.now.config self.now.fabric id result }
    {
        match self.net.look(id) {
            Ok(message) => self.plan_message(message),
            Err(fault) => Plan::Refuses(fault_answer(fault)),
        }
    }

    fn plan_message(&self, message: &Message) -> Plan
        requires { HasCome self.now.fabric message.now }
        ensures { IsPlan self.now.config self.now.fabric message.now.id result }
    {
        let unit = &self.units[usize::from(message.to.number())];
        if unit.clock.held(message.tag) {
            return Plan::Refuses(Answer::Held);
        }
        match receiver_of(&message.body) {
            Receiver::Cache(row) => self.plan_at_cache(message, &row),
            Receiver::Home(asked) => self.plan_at_home(message, &asked),
            Receiver::Controller(k) => Plan::Reports(k),
            Receiver::Clock(k) => Plan::Tells(k),
        }
    }

    fn plan_at_cache(&self, message: &Message, row: &CacheRow) -> Plan
        requires come { HasCome self.now.fabric message.now }
        requires reached { message.now.tag ≤ (node_at self.now.fabric message.now.to).now }
        requires receiver { receiver_of message.now.body ≡ Receiver.Cache row.now }
        ensures { IsPlan self.now.config self.now.fabric message.now.id result }
    {
        let unit = &self.units[usize::from(message.to.number())];
        let now = unit.clock.now();
        let look = unit.cache.look_at(row, message, now, &unit.log);
        let answer = look_answer(look, self.net.count());
        match answer {
            Answer::Delivered => Plan::AtCache(*row),
            _ => Plan::Refuses(answer),
        }
    }

    fn plan_at_home(&self, message: &Message, asked: &HomeMessage) -> Plan
        requires come { HasCome self.now.fabric message.now }
        requires reached { message.now.tag ≤ (node_at self.now.fabric message.now.to).now }
        requires receiver { receiver_of message.now.body ≡ Receiver.Home asked.now }
        ensures { IsPlan self.now.config self.now.fabric message.now.id result }
    {
        let place = usize::from(message.to.number());
        let unit = &self.units[place];
        let now = unit.clock.now();
        let (row, look) = self.homes[place].look_at(message, asked, now, &unit.log);
        let answer = look_answer(look, self.net.count());
        match answer {
            Answer::Delivered => Plan::AtHome(row),
            _ => Plan::Refuses(answer),
        }
    }
}
