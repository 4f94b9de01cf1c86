//! What is counted of messages.
ghost use Rattle.std.specs.Prelude.{◌≡◌, ◌≤◌, length};
ghost use Rattle.run_statistics.specs.Numbers.{with_one_each};
ghost use Rattle.run_statistics.specs.Messages.{no_messages, kinds_of, lost_among, killed_by, messages_with};

use crate::numbers::Numbers;
use crate::places::place_of_kind;
use sn_base::Answer;
use sn_model::Sent;

/// How many messages of each kind were sent; how many of them were lost at once, since their entry switch was dead; and how many
/// were in flight in a switch that died.
#[derive(Drop)]
pub struct MessageStatistics {
    pub sent: Numbers,
    pub lost_at_once: u64,
    pub lost_in_switch: u64,
}

fn add_kinds(numbers: &mut Numbers, sent: &[Sent])
    ensures { numbers.new ≡ with_one_each numbers.old (kinds_of sent.now) }
{
    'sent: for one in sent {
        numbers.add(place_of_kind(&one.message.body), 1);
    }
}

/// How many of these were lost at once.
pub(crate) fn lost_among(sent: &[Sent]) -> u64
    ensures count { result ≡ lost_among sent.now }
    ensures few { result ≤ length sent.now }
{
    let mut count = 0u64;
    'sent: for one in sent {
        if one.lost {
            count += 1;
        }
    }
    count
}

fn killed_by(answer: &Answer, before: u64, after: u64) -> u64
    ensures { result ≡ killed_by answer.now before after }
{
    match answer {
        Answer::Killed => before.saturating_sub(after),
        _ => 0,
    }
}

impl MessageStatistics {
    pub fn new() -> MessageStatistics
        ensures { result ≡ no_messages }
    {
        MessageStatistics {
            sent: Numbers::new(),
            lost_at_once: 0,
            lost_in_switch: 0,
        }
    }

    /// What an event sent and what died with a switch, where so many messages were in flight before it and after it.
    pub fn add(&mut self, answer: &Answer, sent: &[Sent], before: u64, after: u64)
        ensures { self.new ≡ messages_with self.old answer.now sent.now before after }
    {
        add_kinds(&mut self.sent, sent);
        self.lost_at_once = self.lost_at_once.saturating_add(lost_among(sent));
        self.lost_in_switch = self
            .lost_in_switch
            .saturating_add(killed_by(answer, before, after));
    }
}
