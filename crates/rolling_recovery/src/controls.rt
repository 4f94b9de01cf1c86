//! Controls, the calls that lead a recovery, and how they are read: one a line.
ghost use Rattle.std.specs.Prelude.{◌≡◌, ◌<◌, ◌≤◌, ◌^◌, true, All, IfOk, IfErr, length, Ok};
ghost use Rattle.sn_text.specs.Items.{IsRefusedAs};
ghost use Rattle.rolling_recovery.specs.Controls.{control_fits, control_of, controls_of};
ghost use Rattle.sn_base.specs.declared.limits.TheConstants.{EVENTS};

use sn_base::{MsgId, NodeId};
use sn_text::{Fault, Form, ScriptFault, message_in, node_in, read_items, rest_after};
use std::alloc::Global;
use std::marker::Model;

/// One call of a recovery.
#[derive(Clone, Copy, PartialEq, Eq, Debug)]
pub enum Control {
    /// An order goes to a node.
    Order(NodeId),
    /// A copy of a control message is sent.
    Repeat(MsgId),
    /// A control message is lost.
    Lose(MsgId),
    /// A control message is taken by its receiver.
    Deliver(MsgId),
    /// The machine goes back, where every node is noted.
    Finish,
}

/// The control that a line says.
#[tactic(auto, unfolding(crate::specs::Controls::control_of))]
fn control_in(nodes: u8, line: &[u8]) -> Result<Control, Fault>
    requires few { nodes ≤ 16 }
    ensures same { result ≡ control_of nodes line.now }
    ensures fits { IfOk result (λ control. control_fits nodes control ≡ true) }
{
    if line == b"finish".as_slice() {
        Ok(Control::Finish)
    } else if let Some(node) = rest_after(line, "order ") {
        node_in(nodes, node).map(Control::Order)
    } else if let Some(id) = rest_after(line, "repeat ") {
        message_in(id).map(Control::Repeat)
    } else if let Some(id) = rest_after(line, "lose ") {
        message_in(id).map(Control::Lose)
    } else if let Some(id) = rest_after(line, "deliver ") {
        message_in(id).map(Control::Deliver)
    } else {
        Err(Fault::NotOfForm)
    }
}

/// Controls of a recovery of a machine of so many nodes.
#[derive(Drop)]
struct ControlForm {
    nodes: u8,
}

impl Model for ControlForm {
    ghost use Rattle.std.specs.Prelude.{ℕ, ◌≤◌};

    ghost Value = { ℕ };

    ghost view = { λ f. f.nodes };

    ghost invariant = { λ f. f.nodes ≤ 16 };
}

impl Form for ControlForm {
    type Item = Control;

    ghost use Rattle.std.specs.Prelude.{◌≡◌, true};
    ghost use Rattle.rolling_recovery.specs.Controls.{control_fits, control_of};

    ghost item_of = { λ nodes line. control_of nodes line };

    ghost good = { λ nodes control. control_fits nodes control ≡ true };

    fn read(&self, line: &[u8]) -> Result<Control, Fault> {
        control_in(self.nodes, line)
    }
}

/// The controls of a text for a machine of so many nodes, or the first cause for which it isn't one, by the rules of scripts.
/// It takes memory for the controls; the file's length is for the caller to judge.
pub fn read_control(alloc: Global, bytes: &[u8], nodes: u8) -> Result<Vec<Control>, ScriptFault>
    requires few { nodes ≤ 16 }
    requires length { length bytes.now < 2 ^ 62 }
    ensures ok { IfOk result (λ controls. controls_of nodes bytes.now ≡ Ok controls.items) }
    ensures fit { IfOk result (λ controls. All (λ control. control_fits nodes control ≡ true) controls.items) }
    ensures few { IfOk result (λ controls. length controls.items ≤ EVENTS) }
    ensures refused { IfErr result (IsRefusedAs (controls_of nodes bytes.now)) }
{
    read_items(alloc, &ControlForm { nodes }, bytes)
}
