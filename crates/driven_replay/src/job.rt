//! What is driven, and what a line may say.

use script_replay::Showing;
use sn_base::{BlockNo, Config, Event, Image, NodeId};
use sn_text::Fault;

/// What a drive puts of its events and at its end.
#[derive(Clone, Copy)]
pub enum DriveShowing {
    /// What a replay puts that shows this: of each event its group of lines, and at the end the summary.
    Replay(Showing),
    /// What a replay puts that shows all states: at the start the first line, of each event its line of JSON, and at the end the
    /// last line, with the word at this address.
    States(Option<u32>),
}

/// A program, the sizes of the machine that it runs on, and what to show.
#[derive(Drop)]
pub struct Drive {
    pub program: Image,
    pub config: Config,
    pub showing: DriveShowing,
}

/// What may be asked to be shown: a part of the machine's state, or what is due there.
#[derive(Clone, Copy)]
pub enum Look {
    /// The whole of it.
    State,
    /// A node.
    Node(NodeId),
    /// A node's core alone.
    Core(NodeId),
    /// A block's home.
    Block(BlockNo),
    /// The messages in flight.
    Flights,
    /// The event that is due to a worker, which is a node, with the number that it draws.
    Due(NodeId, u32),
}

/// What a line says.
#[derive(Clone, Copy)]
pub enum Said {
    /// Nothing: it is empty, or a comment.
    Nothing,
    /// An event is to be applied.
    Does(Event),
    /// An event's answer is asked for, and nothing is to be applied.
    Foresees(Event),
    /// That is to be shown, and nothing is to be applied.
    Looks(Look),
    /// The number of events that are done is asked for.
    Marks,
    /// The machine is to stand where the first so many of the events that are done led it.
    Back(u32),
    /// It is none of these.
    Refused(Fault),
}
