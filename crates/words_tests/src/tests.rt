//! Words of a command, the values of its options, and what is said of words that are none.
mod commands;
mod refusals;
mod values;
