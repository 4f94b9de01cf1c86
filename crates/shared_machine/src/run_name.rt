//! What a run is called in contracts.
ghost use Rattle.run_journals.specs.Journal.{Began};
ghost use Rattle.sn_console.specs.declared.ends.Outbox.{Outbox};
ghost use Rattle.sn_console.specs.Ends.{SameOutbox};

use std::marker::Brand;
use std::sync::ledger::Ledger;

/// A run, in contracts alone: its ledger, what it began with, and which outbox is its ring's.
pub trait RunName: Ledger {
    ghost use Rattle.run_journals.specs.Journal.{Began};
    ghost use Rattle.sn_console.specs.declared.ends.Outbox.{Outbox};
    ghost use Rattle.sn_console.specs.Ends.{SameOutbox};

    ghost began: { Began };

    ghost of_ring: { Outbox → Type 0 };

    ghost keeps: { (a b : Outbox) → of_ring a → SameOutbox a b → of_ring b };
}

impl RunName for Brand {
    ghost use Rattle.std.specs.Prelude.{[], None};

    ghost began = { record {
      image = record { entry = 0; segments = [] };
      config = record { nodes = 1; sets = 1; ways = 1; log = 4 };
      rules = record { interval = 1; wait = 1; lose_every = 0; kill = None };
      seed = 0;
      budget = 1;
    } };

    ghost of_ring = { λ outbox. Unit {0} };

    ghost keeps = { λ a b here same. tt };
}
