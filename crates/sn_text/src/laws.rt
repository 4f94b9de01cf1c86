//! That what is written is read back.
ghost use Rattle.std.specs.Prelude.{◌≡◌, ℕ, ◌≤◌, ◌++◌, List, All, codes, length, Ok};
ghost use Rattle.sn_base.specs.declared.event.Event.{Event};
ghost use Rattle.rv_core.specs.declared.step.Record.{Record};
ghost use Rattle.sn_text.specs.Items.{most_items};
ghost use Rattle.sn_text.specs.Script.{event_of, script_of};
ghost use Rattle.sn_text.specs.Text.{event_text, record_text};
ghost use Rattle.sn_text.specs.Trace.{record_of, trace_of};
ghost use Rattle.sn_text.specs.Written.{IsEventOf, IsRecordOf, SaysNothing, script_text, trace_text};

/// What `script` writes for an event of the machine is read back as that event, and a script of such lines as the list of
/// their events.
pub fn scripts_are_read_back()
    ensures line { (nodes : ℕ) (event : Event) → nodes ≤ 16 → IsEventOf nodes event
        → event_of nodes (event_text event) ≡ Ok event }
    ensures script { (nodes : ℕ) (events : List Event) → nodes ≤ 16 → All (IsEventOf nodes) events → length events ≤ most_items
        → script_of nodes (script_text events) ≡ Ok events }
{}

/// What `trace` writes for a record of the machine is read back as that record, and a trace of such lines as the list of
/// their records, also where comments stand behind it.
pub fn traces_are_read_back()
    ensures line { (nodes : ℕ) (taken : Record) → nodes ≤ 16 → IsRecordOf nodes taken
        → record_of nodes (record_text taken) ≡ Ok taken }
    ensures trace { (nodes : ℕ) (records : List Record) → nodes ≤ 16 → All (IsRecordOf nodes) records → length records ≤ most_items
        → trace_of nodes (trace_text records) ≡ Ok records }
    ensures commented { (nodes : ℕ) (records : List Record) (comments : List ℕ) → nodes ≤ 16 → All (IsRecordOf nodes) records
        → length records ≤ most_items → SaysNothing comments → trace_of nodes (trace_text records ++ comments) ≡ Ok records }
{}
