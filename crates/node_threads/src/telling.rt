//! What a run's probes are told.
ghost use Rattle.std.specs.Prelude.{◌≡◌, length};
ghost use Rattle.sn_probe.specs.Probes.{meters_in};
ghost use Rattle.node_threads.specs.Told.{told_all};

use shared_machine::JournalEntry;
use sn_base::Answer;
use sn_probe::ProbeSet;

/// Tells the probes each event of a journal with its answer.
pub fn tell(journal: &Vec<JournalEntry>, answers: &Vec<Answer>, probes: &mut ProbeSet)
    requires { length answers.now.items ≡ length journal.now.items }
    ensures { meters_in first tally step probes.new.probes.items
        ≡ told_all journal.now.items answers.now.items (meters_in first tally step probes.old.probes.items) }
{
    'entries: for place in 0..journal.len() {
        let entry = &journal[place];
        let answer = &answers[place];
        probes.told(place as u64 + 1, &entry.event, answer);
    }
}
