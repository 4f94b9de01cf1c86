//! The kinds of what an instruction wants.

/// What an instruction wants, but for the address.
#[derive(Clone, Copy)]
pub enum Kind {
    Nothing,
    Load,
    Store,
    Amo,
    Lr,
    Sc,
    Input,
}
