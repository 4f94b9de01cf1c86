//! A message in flight.
ghost use Rattle.std.specs.Prelude.{◌≡◌};
ghost use Rattle.switch_net.specs.Net.{has_arrived};

use sn_base::SwitchId;
use sn_msg::Message;

/// A message and the switch that it stands in.
#[derive(Clone, Copy, PartialEq, Eq, Debug)]
pub struct Flight {
    pub message: Message,
    pub at: SwitchId,
}

impl Flight {
    /// Whether it stands in a switch of its receiver.
    pub fn has_arrived(&self) -> bool
        ensures { result ≡ has_arrived self.now }
    {
        self.at.number() / 2 == self.message.to.number()
    }
}
