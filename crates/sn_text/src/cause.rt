//! Why a text is refused.

/// Why a line is refused.
#[derive(Clone, Copy, PartialEq, Eq, Debug)]
pub enum Fault {
    /// It has another form.
    NotOfForm,
    /// Its node, block or switch isn't there.
    NotThere,
}

/// Why a script or a trace is refused: the first cause, in order of its lines, which are counted from 1.
#[derive(Clone, Copy, PartialEq, Eq, Debug)]
pub enum ScriptCause {
    /// The file is longer than 32 MiB. Who fetches the file says so; no reader here does.
    TooLong,
    /// The line has another form.
    BadLine(u64),
    /// The line names a node, a block or a switch that isn't there.
    OutOfRange(u64),
    /// A line is good and would be the 1,000,001st.
    TooMany,
}

/// Why there is nothing to give: the text is refused, or memory is lacking.
#[derive(Clone, Copy, Debug)]
pub enum ScriptFault {
    Refused(ScriptCause),
    Memory,
}
