//! A recovery as controls lead it.
ghost use Rattle.std.specs.Prelude.{◌≡◌, ◌≤◌, ◌^◌, true, false, Some};
ghost use Rattle.sn_base.specs.declared.event.Answer.{Answer};
ghost use Rattle.rolling_recovery.specs.Controls.{control_fits};
ghost use Rattle.rolling_recovery.specs.Rolling.{after_control, finish_fault};
ghost use Rattle.sn_machine.specs.Machine.{next_of};
ghost use Rattle.rolled_replay.specs.Stages.{is_finish, led_reply, finish_reply, finished_by, IsNumbered, machine_of, next_stage, reply_to};

use crate::reply::Reply;
use rolling_recovery::{Control, ControlDelivery, FinishFault, RepeatFault, Rolling};
use sn_base::Event;
use sn_machine::Machine;

/// A recovery under way, or the machine that has recovered.
#[derive(Drop)]
pub enum Stage {
    UnderWay(Rolling),
    Recovered(Machine),
}

/// What a control but `finish` comes to while the recovery is under way.
fn lead(rolling: &mut Rolling, control: &Control) -> Reply
    requires fits { control_fits rolling.old.machine.config.nodes control.now ≡ true }
    requires numbers { rolling.old.messages.next ≤ 2 ^ 63 }
    requires going { is_finish control.now ≡ false }
    ensures reply { result ≡ led_reply rolling.old control.now }
    ensures after { rolling.new ≡ after_control rolling.old control.now }
{
    match control {
        Control::Order(node) => match rolling.order(*node) {
            Ok(id) => Reply::Ordered(id),
            Err(_) => Reply::Full,
        },
        Control::Repeat(id) => match rolling.repeat(*id) {
            Ok(id) => Reply::Repeated(id),
            Err(RepeatFault::NoMessage) => Reply::NoMessage,
            Err(RepeatFault::Full) => Reply::Full,
        },
        Control::Lose(id) => {
            if rolling.lose(*id) {
                Reply::Lost
            } else {
                Reply::NoMessage
            }
        }
        Control::Deliver(id) => match rolling.deliver(*id) {
            ControlDelivery::NoMessage => Reply::NoMessage,
            ControlDelivery::Restored(count) => Reply::Restored(count),
            ControlDelivery::Again => Reply::Again,
            ControlDelivery::Noted => Reply::Noted,
        },
        Control::Finish => unreachable!(),
    }
}

/// Why a finish failed, as a reply.
fn fault_reply(fault: FinishFault) -> Reply
    ensures { (said : Answer) → result ≡ finish_reply (Some fault) said }
{
    match fault {
        FinishFault::NotDone(node) => Reply::NotDone(node),
        FinishFault::CutOff(a, b) => Reply::CutOff(a, b),
    }
}

/// What a finish comes to.
fn finish(rolling: Rolling) -> (Stage, Reply)
    ensures stage { result.0 ≡ finished_by rolling (finish_fault rolling) }
    ensures reply { result.1 ≡ finish_reply (finish_fault rolling) (next_of rolling.machine Event.Recover).answer }
{
    match rolling.finish() {
        Ok((machine, undo)) => (Stage::Recovered(machine), Reply::Finished(undo)),
        Err((rolling, fault)) => (Stage::UnderWay(rolling), fault_reply(fault)),
    }
}

impl Stage {
    /// What a control comes to.
    pub fn control(self, control: &Control) -> (Stage, Reply)
        requires fits { control_fits (machine_of self).config.nodes control.now ≡ true }
        requires numbers { IsNumbered self (2 ^ 63) }
        ensures stage { result.0 ≡ next_stage self control.now }
        ensures reply { result.1 ≡ reply_to self control.now }
    {
        let mut rolling = match self {
            Stage::UnderWay(rolling) => rolling,
            Stage::Recovered(machine) => return (Stage::Recovered(machine), Reply::Over),
        };
        if matches!(control, Control::Finish) {
            return finish(rolling);
        }
        let reply = lead(&mut rolling, control);
        (Stage::UnderWay(rolling), reply)
    }

    /// The machine that the recovery holds, or that has recovered.
    pub fn machine(&self) -> &Machine
        ensures { result.now ≡ machine_of self.now }
    {
        match self {
            Stage::UnderWay(rolling) => rolling.machine(),
            Stage::Recovered(machine) => machine,
        }
    }
}
