//! What an order makes of a run.
ghost use Rattle.std.specs.Prelude.{◌≡◌, ℕ, ◌<◌, List, length, get_or, IsSome};
ghost use Rattle.sn_probe.specs.Probes.{Meter};
ghost use Rattle.sink_pieces.specs.Pieces.{Ends};
ghost use Rattle.run_journals.specs.declared.entry.JournalEntry.{JournalEntry};
ghost use Rattle.run_journals.specs.Journal.{Began, IsDue};
ghost use Rattle.node_run.specs.declared.ending.Ending.{Ending};
ghost use Rattle.node_run.specs.declared.job.Run.{Run};
ghost use Rattle.turn_orders.specs.declared.order.Order.{Order};
ghost use Rattle.turn_orders.specs.Orders.{worker_of};
ghost use Rattle.ordered_run.specs.Ordered.{journal_after, ordered_end};
ghost use Rattle.ordered_run.specs.Shown.{IsDone};

/// The same run in the same order ends the same and leaves the same: what both sinks have, and what the probes know.
pub fn same_run_same_bytes()
    ensures { (order : Order) (r : Run) (probes : List Meter) (ending other : Ending) (before x y : Ends) (told known : List Meter) →
        IsDone order r probes ending before x told → IsDone order r probes other before y known →
        (ending ≡ other) × (x ≡ y) × (told ≡ known) }
{}

/// The journal of an order is due, and its turns are those of the order, one after another.
pub fn an_ordered_journal_is_due()
    ensures due { (order : Order) (began : Began) (turns : ℕ) → IsDue began (journal_after order began turns) }
    ensures ordered { (order : Order) (began : Began) (turns i : ℕ) (d : JournalEntry) → i < length (journal_after order began turns) →
        (get_or (journal_after order began turns) i d).worker ≡ worker_of order began.seed began.config.nodes i }
{}

/// A run in an order has an end, whatever it began with.
pub fn an_ordered_run_ends()
    ensures { (order : Order) (began : Began) → IsSome (ordered_end order began) }
{}
