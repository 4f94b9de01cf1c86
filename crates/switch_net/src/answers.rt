//! What the network answers.

/// The answer of a hop.
#[derive(Clone, Copy, PartialEq, Eq, Debug)]
pub enum HopAnswer {
    /// The message stands in its next switch.
    Hopped,
    /// The next switch is dead: the message is gone.
    LostInDead,
    /// The message stands in a switch of its receiver.
    Arrived,
    /// No message in flight has this number.
    NoMessage,
}

/// Why no message was taken.
#[derive(Clone, Copy, PartialEq, Eq, Debug)]
pub enum TakeFault {
    /// No message in flight has this number.
    NoMessage,
    /// The message doesn't stand in a switch of its receiver.
    NotArrived,
}
