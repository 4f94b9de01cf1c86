//! What holds of the program's executions.
ghost use Rattle.std.specs.Prelude.{◌≡◌, ℕ, ◌<◌, true, List};
ghost use Rattle.rv_core.specs.declared.step.Record.{Record};
ghost use Rattle.rv_core.specs.Core.{is_running};
ghost use Rattle.rv_core.specs.Flat.{core_at};
ghost use Rattle.rv_core.specs.Execution.{end_of};
ghost use Rattle.counting_program.specs.Program.{counting_image};

/// No core ends, on however many nodes and whatever its instructions see.
pub fn no_core_ends()
    ensures { (nodes n : ℕ) (records : List Record) → n < nodes → is_running (core_at (end_of counting_image nodes records) n).end ≡ true }
{}
