//! The rows of a trace put to the report.
ghost use Rattle.std.specs.Prelude.{◌≡◌, ℕ, ◌≤◌, List, Option, OnOk, Err};
ghost use Rattle.sn_io.specs.Outside.{Rose};
ghost use Rattle.sink_pieces.specs.Pieces.{ends, after, Breaks};
ghost use Rattle.rv_core.specs.Execution.{IsExecution};
ghost use Rattle.committed_accesses.specs.Rows.{access_rows_of};
ghost use Rattle.committed_accesses.specs.Lines.{access_pieces};

use crate::rows::AccessRows;
use rv_core::Record;
use sn_base::Image;
use sn_io::Sink;
use std::alloc::Global;

/// Why the rows of a trace weren't put.
#[derive(Clone, Copy, PartialEq, Eq, Debug)]
pub enum RowsFault {
    /// The report took less than the whole of them.
    Sink,
    /// Memory was wanted and not given. Nothing is put.
    Memory,
}

/// Puts the header and then the line of each record of a trace, each in a piece of its own. The records are an execution of the
/// program on so many nodes, as a machine's committed trace is at every moment. Its memory, which is a line's and a core's for each
/// node, it takes first.
pub fn put_access_rows<R: Sink>(
    alloc: Global,
    image: &Image,
    nodes: u8,
    records: &[Record],
    report: &mut R,
) -> Result<(), RowsFault>
    requires few { nodes ≤ 16 }
    requires execution { IsExecution image.now nodes records.now }
    ensures ok { OnOk result ((c : Option (List ℕ)) → ends c (R.written report.new) ≡ after (ends c (R.written report.old))
        (access_pieces (access_rows_of image.now nodes records.now))) }

    // It took a beginning of them.
    ensures sink { result ≡ Err RowsFault.Sink → (c : Option (List ℕ)) →
        Breaks (access_pieces (access_rows_of image.now nodes records.now))
        (ends c (R.written report.old)) (ends c (R.written report.new)) }
    ensures memory { result ≡ Err RowsFault.Memory → report.new ≡ report.old }
    ensures later { R.faults report.old ≤ R.faults report.new }
    ensures cause { result ≡ Err RowsFault.Sink → Rose (R.faults report.old) (R.faults report.new) }
{
    let Ok(mut rows) = AccessRows::start(alloc, image, nodes) else {
        return Err(RowsFault::Memory);
    };
    match rows.put(image, nodes, records, report) {
        Ok(()) => Ok(()),
        Err(_) => Err(RowsFault::Sink),
    }
}
