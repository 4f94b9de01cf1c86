//! What the rows of a trace have to do with its accesses.
ghost use Rattle.std.specs.Prelude.{◌≡◌, ℕ, List, map};
ghost use Rattle.sn_base.specs.Image.{ImageData};
ghost use Rattle.rv_core.specs.declared.step.Record.{Record};
ghost use Rattle.rv_core.specs.Execution.{IsExecution};
ghost use Rattle.rv_core.specs.Flat.{initial_memory};
ghost use Rattle.access_check.specs.Legal.{AreLegal, memory_of};
ghost use Rattle.access_check.specs.Executions.{accesses_of};
ghost use Rattle.committed_accesses.specs.Rows.{AccessRow, access_rows_of, accesses_in};

use access_check::accesses_of_executions_are_legal;

/// A trace has a row for each record, of the record's core. The accesses that stand in the rows are those of the trace; so where it
/// is an execution, each value that a row reads is what the writes of the rows before it leave.
pub fn rows_have_the_accesses()
    ensures records { (image : ImageData) (nodes : ℕ) (rs : List Record) →
        map (λ (row : AccessRow). row.core) (access_rows_of image nodes rs) ≡ map (λ (r : Record). r.core) rs }
    ensures accesses { (image : ImageData) (nodes : ℕ) (rs : List Record) →
        accesses_in (access_rows_of image nodes rs) ≡ accesses_of image nodes rs }
    ensures legal { (image : ImageData) (nodes : ℕ) (rs : List Record) → IsExecution image nodes rs →
        AreLegal (memory_of (initial_memory image)) (accesses_in (access_rows_of image nodes rs)) }
{
    accesses_of_executions_are_legal();
}
