//! A recovery: the whole fabric goes back to the recovery point.
ghost use Rattle.std.specs.Prelude.{◌≡◌, ℕ, ◌<◌, ◌≤◌, length, map, None};
ghost use Rattle.std.specs.List.{sum_by};
ghost use Rattle.route_plan.specs.Routes.{first_cut_off};
ghost use Rattle.sn_base.specs.declared.event.Answer.TheVariants.{Recovered};
ghost use Rattle.sn_model.specs.PointEvents.{living_switches, step_of_recovery};
ghost use Rattle.sn_fabric.specs.Fabric.{IsAfter};
ghost use Rattle.sn_fabric.specs.Parts.{unit_at, home_at};
ghost use Rattle.sn_fabric.specs.Recovery.{CanRestore, restored_unit, IsRestoredHome, AreRestoredHomes, undone_of};

use crate::Fabric;
use crate::node::NodeUnit;
use home_directory::Home;
use rollback::unwind;
use sn_base::{Answer, Interval, Undo};

/// Puts a node and its home back to checkpoint k, which it knows as the recovery point then. The answer is how many
/// entries of its log are undone.
fn restore_node(unit: &mut NodeUnit, home: &mut Home, k: Interval) -> u32
    requires { CanRestore k unit.old home.old }
    ensures unit { unit.new ≡ restored_unit k unit.old }
    ensures home { IsRestoredHome unit.old.log.entries k home.old home.new }
    ensures undone { result ≡ undone_of k unit.old }
{
    // For the prover alone: the log holds no more than its limit.
    let _room = unit.log.room();
    unit.cache.begin_restore();
    unwind(&unit.log, k, &mut unit.cache);
    home.begin_restore();
    let undone = unwind(&unit.log, k, home);
    unit.log.clear();
    unit.clock.back_to(k);
    undone
}

/// Puts each node and its home back to checkpoint k. The answer is how many log entries are undone.
fn restore_nodes(units: &mut [NodeUnit], homes: &mut [Home], k: Interval) -> u32
    requires count { length homes.old ≡ length units.old }
    requires few { length units.old ≤ 16 }
    requires can { (n : ℕ) → n < length units.old → CanRestore k (unit_at units.old n) (home_at homes.old n) }
    ensures units { units.new ≡ map (restored_unit k) units.old }
    ensures homes { AreRestoredHomes units.old k homes.old homes.new }
    ensures undone { result ≡ sum_by (undone_of k) units.old }
{
    let mut undone = 0;
    'nodes: for place in 0..units.len() {
        undone += restore_node(&mut units[place], &mut homes[place], k);
    }
    undone
}

impl Fabric {
    /// The fabric goes back to the recovery point k: each cache owns what it owned there, each home names whom it named,
    /// nothing is in flight, and routes are made anew. It is refused where no path of living switches joins two nodes.
    pub fn recover(&mut self, k: Interval) -> Answer
        requires { k ≡ self.old.fabric.point }
        ensures { IsAfter self.old self.new result (step_of_recovery self.old.fabric k) }
    {
        match self.net.recover() {
            Err((first, second)) => {
                self.send_nothing();
                Answer::CutOff(first, second)
            }
            Ok(dropped) => {
                self.sent.clear();
                let undone = restore_nodes(self.units.as_mut_slice(), self.homes.as_mut_slice(), k);
                Answer::Recovered(Undo {
                    to: k,
                    undone,
                    dropped,
                })
            }
        }
    }
}
