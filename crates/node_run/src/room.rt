//! The memory of a run's report.
ghost use Rattle.std.specs.Prelude.{◌≡◌, ◌≤◌, IfOk};
ghost use Rattle.rv_core.specs.Flat.{first_cores};

use committed_accesses::AccessRows;
use sn_base::{Image, Memory};
use sn_text::Line;
use std::alloc::Global;

/// All memory that a report takes, whichever is asked for: of a line at a time, and of the rows of a trace, which are at the start
/// of the program. One room serves one report.
#[derive(Drop)]
pub struct ReportRoom {
    pub line: Line,
    pub rows: AccessRows,
}

/// The room of the report of a run of this program on so many nodes.
pub fn report_room(alloc: Global, image: &Image, nodes: u8) -> Result<ReportRoom, Memory>
    requires few { nodes ≤ 16 }
    ensures { IfOk result (λ room. room.rows.cores ≡ first_cores nodes image.now.entry) }
{
    let line = Line::new(alloc)?;
    let rows = AccessRows::start(alloc, image, nodes)?;
    Ok(ReportRoom { line, rows })
}
