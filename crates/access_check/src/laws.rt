//! Laws of legal accesses.
ghost use Rattle.std.specs.Prelude.{ℕ, ◌↔◌, All, List};
ghost use Rattle.sn_base.specs.Image.{ImageData};
ghost use Rattle.rv_core.specs.declared.step.Record.{Record};
ghost use Rattle.rv_core.specs.Execution.{IsExecution};
ghost use Rattle.rv_core.specs.Flat.{initial_memory};
ghost use Rattle.access_check.specs.declared.access.Access.{Access};
ghost use Rattle.access_check.specs.Accesses.{IsFittingAccess};
ghost use Rattle.access_check.specs.Projections.{AllAllow};
ghost use Rattle.access_check.specs.Legal.{AreLegal, MemoryState, memory_of};
ghost use Rattle.access_check.specs.Executions.{accesses_of};

/// Accesses are legal exactly where each block by itself and each core by itself allow theirs.
pub fn legal_is_allowed_by_each_block_and_core()
    ensures { (m : MemoryState) (accesses : List Access) → AreLegal m accesses ↔ AllAllow m accesses }
{}

/// The accesses of each trace lie in memory, and those of each execution of each program are legal, from the memory that
/// the program gives.
pub fn accesses_of_executions_are_legal()
    ensures inside { (image : ImageData) (nodes : ℕ) (rs : List Record) → All IsFittingAccess (accesses_of image nodes rs) }
    ensures legal { (image : ImageData) (nodes : ℕ) (rs : List Record) → IsExecution image nodes rs →
        AreLegal (memory_of (initial_memory image)) (accesses_of image nodes rs) }
{}
