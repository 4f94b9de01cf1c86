//! The headline is of something: two short runs, with their committed traces.
ghost use Rattle.consistent_cuts.specs.Headline.{IsRun};
ghost use Rattle.consistent_cuts.specs.Example.{small, recovering, validating, IsLostAndRecovered, IsCommittedByIntervals};

/// Two short runs have all premises of the headline. In one a block is lost with its ownership, and a recovery goes back to
/// the checkpoint that was validated before; in the other two nodes retire in the order that isn't that of their intervals.
pub fn some_runs_are_runs()
    ensures recovered { IsRun small recovering × IsLostAndRecovered }
    ensures ordered { IsRun small validating × IsCommittedByIntervals }
{}
