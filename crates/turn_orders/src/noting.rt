//! What is noted of a turn.
ghost use Rattle.std.specs.Prelude.{◌≡◌, ◌<◌, ◌≤◌, ◌∷◌, [], ◌++◌, vec_len, vec_capacity};
ghost use Rattle.run_journals.specs.Journal.{entry_of};

use run_journals::JournalEntry;
use sn_base::{Answer, Event};

/// Adds an event to the journal, and its answer to the answers.
pub fn note(
    journal: &mut Vec<JournalEntry>,
    answers: &mut Vec<Answer>,
    worker: u32,
    event: Event,
    answer: Answer,
)
    requires journal { vec_len journal.old < vec_capacity journal.old }
    requires answers { vec_len answers.old < vec_capacity answers.old }
    ensures entry { journal.new.items ≡ journal.old.items ++ entry_of worker event ∷ [] }
    ensures answer { answers.new.items ≡ answers.old.items ++ answer ∷ [] }
    ensures room { (vec_capacity journal.old ≤ vec_capacity journal.new) × (vec_capacity answers.old ≤ vec_capacity answers.new) }
{
    journal.push(JournalEntry { worker, event }).unwrap();
    answers.push(answer).unwrap();
}
