//! What a controller says of a message beforehand.

/// What a controller would do with a message: do its row, which sends so many messages; let it wait, since a transaction is
/// open on its block; or refuse it, since the log has no room for what the row notes. A cache is never busy.
#[derive(Clone, Copy, PartialEq, Eq, Debug)]
pub enum Look {
    Sends(u8),
    HomeBusy,
    LogFull,
}
