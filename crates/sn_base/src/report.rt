//! What a run's report has before its summary.

/// What the report has of a run before the summary, with which it ends in any case.
#[derive(Clone, Copy, PartialEq, Eq, Debug)]
pub enum RunReport {
    /// Nothing.
    Summary,
    /// The committed trace, one record a line. The summary's lines are marked as comments of a trace.
    Trace,
    /// The same with what each record does in memory, one row of CSV a record after a header. The summary's lines are marked as
    /// comments.
    Accesses,
    /// Each event as a line of a script, after a comment that names the worker in whose turn it was applied. The summary's
    /// lines are marked as comments of a script.
    Journal,
}
