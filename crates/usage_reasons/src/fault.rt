//! What is wrong with the words of a call.

use crate::table::{Command, Key, Quantity};

/// What is wrong with the first word that is wrong, or what is lacking behind the last.
#[derive(Clone, Copy)]
pub(crate) enum Fault<'a> {
    NoCommand,
    UnknownCommand(&'a str),
    /// A word that asks for help among others.
    HelpAmong(&'a str),
    UnknownOption(Command, &'a str),
    ValueLacking(Key),
    /// A flag with a value, as one word.
    ValueUnwanted(&'a str),
    Twice(&'a str),
    BadNumber(Quantity, &'a str),
    BadAddress(&'a str),
    /// A switch that a machine of so many nodes doesn't have, or that dies at no number of events.
    BadKill(u8, &'a str),
    BadSize(&'a str),
    BadOrder(&'a str),
    BadPlaces(&'a str),
    BadSeeds(&'a str),
    /// A word that must be there, as the command's page names it.
    Lacking(Command, &'static str),
    OneTooMany(Command, &'a str),
    /// Two options that don't stand together, as two flags of one report: the earlier, and the later.
    Together(&'a str, &'a str),
    /// Places without the states that are shown of them.
    PlacesAlone,
    /// A range of seeds without an order of turns.
    OrderLacking,
    /// Nothing is wrong that is looked for here.
    Other,
}
