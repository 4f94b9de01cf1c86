//! The orders.

/// In which order workers have their turns.
#[derive(Clone, Copy, PartialEq, Eq, Debug)]
pub enum Order {
    /// Worker 0 to the last, and round again.
    Round,
    /// Each turn's worker is drawn.
    Drawn,
}
