//! A delivery: a message that has arrived is taken by its receiver's cache or home, or heard of by the layer above. It is planned
//! once, and then done by the plan.
ghost use Rattle.std.specs.Prelude.{◌≡◌, ◌+◌, ◌<◌, ◌≤◌, false, ◌^◌, Some, None};
ghost use Rattle.sn_base.specs.declared.event.Answer.TheVariants.{Delivered};
ghost use Rattle.sn_model.specs.NetEvents.{step_of_delivery};
ghost use Rattle.sn_model.specs.CacheRows.{MeetsCacheRow, noted_by_cache};
ghost use Rattle.sn_model.specs.Receivers.{IsNoteInOrder};
ghost use Rattle.mosi_cache.specs.Controller.{with_entries};
ghost use Rattle.mosi_cache.specs.Rows.{reply_of, first_of, is_over};
ghost use Rattle.sn_fabric.specs.Fabric.{IsAfter};
ghost use Rattle.sn_fabric.specs.Deliveries.{unit_after};
ghost use Rattle.sn_fabric.specs.Plans.{IsPlan};

use crate::node::NodeUnit;
use crate::plans::{Plan, answer_of};
use crate::replies::{lost_by, out_of, post_one, post_step, take_out};
use crate::{Fabric, News};
use mosi_cache::CacheStep;
use sn_base::{Answer, Interval, MsgId};
use sn_model::{CacheRow, HomeRow};
use sn_msg::Message;

/// A node's cache does the row of a message that has come to it. The log has room for what it notes.
fn do_row(unit: &mut NodeUnit, row: &CacheRow, message: &Message, now: Interval) -> CacheStep
    requires meets { MeetsCacheRow (with_entries unit.old.cache unit.old.log.entries) message.now.block row.now }
    requires last { IsNoteInOrder unit.old.log.entries false message.now.block (noted_by_cache now message.now.tag row.now) }
    requires room { is_over unit.old.log (reply_of unit.old.cache unit.old.log now message.now row.now) ≡ false }
    ensures answer { result ≡ CacheStep.Took (first_of (reply_of unit.old.cache unit.old.log now message.now row.now).sends)
        (reply_of unit.old.cache unit.old.log now message.now row.now).lost }
    ensures unit { unit.new ≡ unit_after unit.old (reply_of unit.old.cache unit.old.log now message.now row.now) }
{
    let NodeUnit {
        clock: _,
        cache,
        log,
    } = unit;
    cache.carry_out(row, message, now, log)
}

impl Fabric {
    /// The answer that `deliver` would give now.
    pub fn foresee_deliver(&self, id: MsgId) -> Answer
        ensures { result ≡ (step_of_delivery self.now.config self.now.fabric id).answer }
    {
        let plan = self.plan(id);
        answer_of(&plan)
    }

    /// Delivers a message that has arrived: its receiver takes it out of the network, does its row, and sends what that says.
    /// The layer above is told of a copy that was lost, of a report to the service controller, or of a recovery point of
    /// which a node has heard. Nothing is done or told where no message in flight has the number (`NoMessage`), where it is
    /// under way (`NotArrived`), where its interval hasn't begun at the receiver (`Held`), where it is a request about a
    /// block with an open transaction (`HomeBusy`), and where the log (`LogFull`) or the network (`NetFull`) lacks the room
    /// for what its row notes or sends.
    pub fn deliver(&mut self, id: MsgId) -> (Answer, Option<News>)
        requires numbers { self.old.fabric.net.next_id ≤ 2 ^ 63 }
        ensures after { IsAfter self.old self.new result.0 (step_of_delivery self.old.config self.old.fabric id) }
        ensures told { result.1 ≡ (step_of_delivery self.old.config self.old.fabric id).told }
    {
        let plan = self.plan(id);
        self.carry_out(id, &plan)
    }

    /// Does what the plan of the message says.
    fn carry_out(&mut self, id: MsgId, plan: &Plan) -> (Answer, Option<News>)
        requires numbers { self.old.fabric.net.next_id ≤ 2 ^ 63 }
        requires plan { IsPlan self.old.config self.old.fabric id plan.now }
        ensures after { IsAfter self.old self.new result.0 (step_of_delivery self.old.config self.old.fabric id) }
        ensures told { result.1 ≡ (step_of_delivery self.old.config self.old.fabric id).told }
    {
        match plan {
            Plan::Refuses(answer) => {
                self.send_nothing();
                (*answer, None)
            }
            Plan::AtCache(row) => {
                let told = self.give_to_cache(id, row);
                (Answer::Delivered, told)
            }
            Plan::AtHome(row) => {
                self.give_to_home(id, row);
                (Answer::Delivered, None)
            }
            Plan::Reports(k) => {
                let told = self.take_report(id, *k);
                (Answer::Delivered, Some(told))
            }
            Plan::Tells(k) => {
                let told = self.learn(id, *k);
                (Answer::Delivered, Some(told))
            }
        }
    }

    fn give_to_cache(&mut self, id: MsgId, row: &CacheRow) -> Option<News>
        requires numbers { self.old.fabric.net.next_id ≤ 2 ^ 63 }
        requires plan { IsPlan self.old.config self.old.fabric id (Plan.AtCache row.now) }
        ensures after { IsAfter self.old self.new Delivered (step_of_delivery self.old.config self.old.fabric id) }
        ensures told { result ≡ (step_of_delivery self.old.config self.old.fabric id).told }
    {
        let message = take_out(&mut self.net, &mut self.sent, id);
        let (to, block) = (message.to, message.block);
        let unit = &mut self.units[usize::from(to.number())];
        let now = unit.clock.now();
        let step = do_row(unit, row, &message, now);
        let out = out_of(&step);
        post_one(&mut self.net, &mut self.sent, to, now, block, out);
        lost_by(to, &step)
    }

    /// Of what a home does the layer above hears nothing.
    fn give_to_home(&mut self, id: MsgId, row: &HomeRow)
        requires numbers { self.old.fabric.net.next_id ≤ 2 ^ 63 }
        requires plan { IsPlan self.old.config self.old.fabric id (Plan.AtHome row.now) }
        ensures after { IsAfter self.old self.new Delivered (step_of_delivery self.old.config self.old.fabric id) }
        ensures told { (step_of_delivery self.old.config self.old.fabric id).told ≡ None }
    {
        let message = take_out(&mut self.net, &mut self.sent, id);
        let (to, block) = (message.to, message.block);
        let place = usize::from(to.number());
        let unit = &mut self.units[place];
        let now = unit.clock.now();
        let home = &mut self.homes[place];
        let step = home.carry_out(row, &message, now, &mut unit.log);
        post_step(&mut self.net, &mut self.sent, to, now, block, step);
    }

    /// A node's report leaves the network, for the service controller.
    fn take_report(&mut self, id: MsgId, k: Interval) -> News
        requires { IsPlan self.old.config self.old.fabric id (Plan.Reports k) }
        ensures after { IsAfter self.old self.new Delivered (step_of_delivery self.old.config self.old.fabric id) }
        ensures told { Some result ≡ (step_of_delivery self.old.config self.old.fabric id).told }
    {
        let message = take_out(&mut self.net, &mut self.sent, id);
        News::Ready(message.from, k)
    }

    /// A node hears of a recovery point, and frees its log's entries below it.
    fn learn(&mut self, id: MsgId, k: Interval) -> News
        requires { IsPlan self.old.config self.old.fabric id (Plan.Tells k) }
        ensures after { IsAfter self.old self.new Delivered (step_of_delivery self.old.config self.old.fabric id) }
        ensures told { Some result ≡ (step_of_delivery self.old.config self.old.fabric id).told }
    {
        let message = take_out(&mut self.net, &mut self.sent, id);
        let to = message.to;
        let unit = &mut self.units[usize::from(to.number())];
        unit.clock.learn(k);
        unit.log.free_below(k);
        News::Advance(to, k)
    }
}
