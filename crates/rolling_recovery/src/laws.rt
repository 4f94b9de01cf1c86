//! What is promised of a recovery node by node, as theorems without code.
ghost use Rattle.std.specs.Prelude.{◌≡◌, ℕ, true, List};
ghost use Rattle.std.specs.List.{All};
ghost use Rattle.sn_base.specs.declared.event.Event.{Event};
ghost use Rattle.sn_machine.specs.Machine.{MachineData};
ghost use Rattle.consistent_cuts.specs.Headline.{IsRun, state_of_run};
ghost use Rattle.rolling_recovery.specs.declared.controls.Control.{Control};
ghost use Rattle.rolling_recovery.specs.Controls.{control_fits};
ghost use Rattle.rolling_recovery.specs.Rolling.{rolling_start, after_controls};
ghost use Rattle.rolling_recovery.specs.Recovered.{IsLedTo};
ghost use Rattle.rolling_recovery.specs.Example.{IsLedThrough};

/// Whatever calls lead a recovery of a machine that some run has come to: a node has a part, which is the cut's, exactly where
/// an order to it was delivered; it is noted only then; no block is in two parts; and where nothing is in the finish's way, the
/// definitions' recovery leaves just the parts.
pub fn each_recovery_is_the_cut()
    ensures { (m : MachineData) (events : List Event) (calls : List Control) → IsRun m.config events
        → m.state ≡ state_of_run m.image m.config events → All (λ call. control_fits m.config.nodes call ≡ true) calls
        → IsLedTo (after_controls (rolling_start m) calls) calls }
{}

/// There are such calls with an order that is lost, one that is repeated and one that comes after its node is noted, at
/// whose end every node is noted.
pub fn orders_may_be_lost_repeated_and_late()
    ensures { (m : MachineData) → m.config.nodes ≡ 2 → IsLedThrough m }
{}
