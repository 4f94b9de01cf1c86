//! Traces and lists of accesses that are judged.
mod committed;
mod lists;
mod traces;
