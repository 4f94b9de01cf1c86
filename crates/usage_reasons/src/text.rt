//! The line of each fault.
ghost use Rattle.std.specs.Prelude.{◌≡◌, ◌++◌, None, map, option_map, string_bytes, OnOk};
ghost use Rattle.reasons.specs.Reason.{begun, line_of_reason};
ghost use Rattle.usage_reasons.specs.Texts.{quoted_word, see, near_or, unknown_command, help_among, nearest_option, unknown_option};
ghost use Rattle.usage_reasons.specs.Texts.{value_lacking, value_unwanted, twice, given_as, range_front, range_back, range_text, bad_number};
ghost use Rattle.usage_reasons.specs.Texts.{bad_address, bad_kill, bad_size, bad_order, bad_places, bad_seeds, together, lacking, one_too_many};
ghost use Rattle.usage_reasons.specs.Texts.{fault_text, usage_reason};
ghost use Rattle.usage_reasons.specs.Seen.{fault_seen};

use crate::fault::Fault;
use crate::reading::fault_of;
use crate::table::{
    Command, Key, Quantity, command_names, flags_of, key_name, name_of, options_of, quantity_name,
    rule_of,
};
use crate::words::begins;
use reasons::{Reason, nearest};
use sn_base::{Memory, RAM_END, RAM_START};

/// The most bytes of a word that are shown.
const MOST_SHOWN: usize = 60;

#[tactic(auto, unfolding(crate::specs::Texts::quoted_word))]
fn write_word(reason: &mut Reason, word: &str) -> Result<(), Memory>
    ensures { OnOk result (reason.new ≡ reason.old ++ quoted_word word.now) }
{
    let bytes = word.as_bytes();
    if bytes.len() > MOST_SHOWN {
        reason.shown(&bytes[..MOST_SHOWN])?;
        reason.text("..")
    } else if bytes.is_empty() {
        reason.text("\"\"")
    } else {
        reason.shown(bytes)
    }
}

/// The page that says more.
#[tactic(auto, unfolding(crate::specs::Texts::see))]
fn write_page(reason: &mut Reason, page: Option<Command>) -> Result<(), Memory>
    ensures { OnOk result (reason.new ≡ see reason.old page) }
{
    match page {
        Some(command) => {
            reason.text("; see safetynet ")?;
            reason.text(name_of(command))?;
            reason.text(" --help")
        }
        None => reason.text("; see safetynet --help"),
    }
}

#[tactic(auto, unfolding(crate::specs::Texts::near_or))]
fn write_near(reason: &mut Reason, near: Option<&str>, page: Option<Command>) -> Result<(), Memory>
    ensures { OnOk result (reason.new ≡ near_or reason.old (option_map (λ word. word.now) near.entry) page) }
{
    match near {
        Some(word) => {
            reason.text("; did you mean ")?;
            reason.text(word)?;
            reason.text("?")
        }
        None => write_page(reason, page),
    }
}

#[tactic(auto, unfolding(crate::specs::Texts::unknown_command))]
fn write_unknown_command(reason: &mut Reason, word: &str) -> Result<(), Memory>
    ensures { OnOk result (reason.new ≡ unknown_command reason.old word.now) }
{
    write_word(reason, word)?;
    if begins(b"-", word.as_bytes()) {
        reason.text(": the command comes first")?;
        write_page(reason, None)
    } else {
        reason.text(": there is no such command")?;
        write_near(reason, nearest(command_names(), word.as_bytes()), None)
    }
}

#[tactic(auto, unfolding(crate::specs::Texts::help_among))]
fn write_help_among(reason: &mut Reason, word: &str) -> Result<(), Memory>
    ensures { OnOk result (reason.new ≡ help_among reason.old word.now) }
{
    write_word(reason, word)?;
    reason.text(": a call for help is a command and --help, as safetynet run --help")
}

fn nearest_option(command: Command, option: &str) -> Option<&'static str>
    ensures { option_map (λ word. word.now) result ≡ nearest_option command option.now }
{
    match nearest(options_of(command), option.as_bytes()) {
        Some(near) => Some(near),
        None => nearest(flags_of(command), option.as_bytes()),
    }
}

#[tactic(auto, unfolding(crate::specs::Texts::unknown_option))]
fn write_unknown_option(reason: &mut Reason, command: Command, option: &str) -> Result<(), Memory>
    ensures { OnOk result (reason.new ≡ unknown_option reason.old command option.now) }
{
    write_word(reason, option)?;
    reason.text(": ")?;
    reason.text(name_of(command))?;
    reason.text(" has no such option")?;
    write_near(reason, nearest_option(command, option), Some(command))
}

#[tactic(auto, unfolding(crate::specs::Texts::value_lacking))]
fn write_value_lacking(reason: &mut Reason, key: Key) -> Result<(), Memory>
    ensures { OnOk result (reason.new ≡ value_lacking reason.old key) }
{
    reason.text(key_name(key))?;
    reason.text(": a value is lacking")
}

#[tactic(auto, unfolding(crate::specs::Texts::value_unwanted))]
fn write_value_unwanted(reason: &mut Reason, word: &str) -> Result<(), Memory>
    ensures { OnOk result (reason.new ≡ value_unwanted reason.old word.now) }
{
    write_word(reason, word)?;
    reason.text(": this option takes no value")
}

#[tactic(auto, unfolding(crate::specs::Texts::twice))]
fn write_twice(reason: &mut Reason, option: &str) -> Result<(), Memory>
    ensures { OnOk result (reason.new ≡ twice reason.old option.now) }
{
    write_word(reason, option)?;
    reason.text(": it stands twice")
}

/// An option and its value, as they stand.
#[tactic(auto, unfolding(crate::specs::Texts::given_as))]
fn write_given(reason: &mut Reason, option: &str, value: &str) -> Result<(), Memory>
    ensures { OnOk result (reason.new ≡ given_as reason.old option.now value.now) }
{
    reason.text(option)?;
    reason.text(" ")?;
    write_word(reason, value)?;
    reason.text(": ")
}

#[tactic(auto, unfolding(crate::specs::Texts::range_front))]
fn range_front(quantity: Quantity) -> &'static str
    ensures { result.now ≡ range_front quantity }
{
    match quantity {
        Quantity::Nodes => "a machine has ",
        Quantity::Sets => "a cache has ",
        Quantity::Ways => "a set has ",
        Quantity::Log => "a node's log has ",
        Quantity::Interval => "between two checkpoints a node does ",
        Quantity::Wait => "a recovery comes after ",
        Quantity::LoseEvery => "one is lost of ",
        Quantity::Budget => "a run has ",
        Quantity::Seed => "a seed is a number from ",
    }
}

#[tactic(auto, unfolding(crate::specs::Texts::range_back))]
fn range_back(quantity: Quantity) -> &'static str
    ensures { result.now ≡ range_back quantity }
{
    match quantity {
        Quantity::Nodes => " nodes",
        Quantity::Sets => " sets",
        Quantity::Ways => " lines",
        Quantity::Log => " entries",
        Quantity::Interval => " instructions",
        Quantity::Wait => " events without a validation",
        Quantity::LoseEvery => " moves of messages, and with 0 none",
        Quantity::Budget => " events",
        Quantity::Seed => "",
    }
}

#[tactic(auto, unfolding(crate::specs::Texts::range_text))]
fn write_range(reason: &mut Reason, quantity: Quantity) -> Result<(), Memory>
    ensures { OnOk result (reason.new ≡ range_text reason.old quantity) }
{
    let rule = rule_of(quantity);
    reason.text(range_front(quantity))?;
    reason.number(rule.least)?;
    reason.text(" to ")?;
    reason.number(rule.greatest)?;
    reason.text(range_back(quantity))
}

#[tactic(auto, unfolding(crate::specs::Texts::bad_number))]
fn write_bad_number(reason: &mut Reason, quantity: Quantity, value: &str) -> Result<(), Memory>
    ensures { OnOk result (reason.new ≡ bad_number reason.old quantity value.now) }
{
    write_given(reason, quantity_name(quantity), value)?;
    write_range(reason, quantity)
}

#[tactic(auto, unfolding(crate::specs::Texts::bad_address))]
fn write_bad_address(reason: &mut Reason, value: &str) -> Result<(), Memory>
    ensures { OnOk result (reason.new ≡ bad_address reason.old value.now) }
{
    write_given(reason, "--watch", value)?;
    reason.text("the address of a word of memory is eight hexadecimal digits, ")?;
    reason.word(RAM_START)?;
    reason.text(" to ")?;
    reason.word(RAM_END - 4)?;
    reason.text(", a multiple of 4")
}

#[tactic(auto, unfolding(crate::specs::Texts::bad_kill))]
fn write_bad_kill(reason: &mut Reason, nodes: u8, value: &str) -> Result<(), Memory>
    ensures { OnOk result (reason.new ≡ bad_kill reason.old nodes value.now) }
{
    write_given(reason, "--kill", value)?;
    reason.text("a switch that dies is a or b, its node below ")?;
    reason.number(u64::from(nodes))?;
    reason.text(", @, and a number of events up to 1000000")
}

#[tactic(auto, unfolding(crate::specs::Texts::bad_size))]
fn write_bad_size(reason: &mut Reason, word: &str) -> Result<(), Memory>
    ensures { OnOk result (reason.new ≡ bad_size reason.old word.now) }
{
    write_given(reason, "demo", word)?;
    reason.text("a demonstration has 1 to 1000000 events")
}

#[tactic(auto, unfolding(crate::specs::Texts::bad_order))]
fn write_bad_order(reason: &mut Reason, value: &str) -> Result<(), Memory>
    ensures { OnOk result (reason.new ≡ bad_order reason.old value.now) }
{
    write_given(reason, "--order", value)?;
    reason.text("an order is threads, round or drawn")
}

#[tactic(auto, unfolding(crate::specs::Texts::bad_places))]
fn write_bad_places(reason: &mut Reason, value: &str) -> Result<(), Memory>
    ensures { OnOk result (reason.new ≡ bad_places reason.old value.now) }
{
    write_given(reason, "--only", value)?;
    reason.text(
        "places are two numbers of events from 1 to 1000000, as 3-9, the second not below the first",
    )
}

#[tactic(auto, unfolding(crate::specs::Texts::bad_seeds))]
fn write_bad_seeds(reason: &mut Reason, value: &str) -> Result<(), Memory>
    ensures { OnOk result (reason.new ≡ bad_seeds reason.old value.now) }
{
    write_given(reason, "--seeds", value)?;
    reason.text(
        "a range is two seeds, as 1-100, the second not below the first, and at most 1000000 of them",
    )
}

// Two options, of which one stands.
#[tactic(auto, unfolding(crate::specs::Texts::together))]
fn write_together(reason: &mut Reason, one: &str, other: &str) -> Result<(), Memory>
    ensures { OnOk result (reason.new ≡ together reason.old one.now other.now) }
{
    reason.text(one)?;
    reason.text(" and ")?;
    reason.text(other)?;
    reason.text(" don't stand together")
}

#[tactic(auto, unfolding(crate::specs::Texts::lacking))]
fn write_lacking(reason: &mut Reason, command: Command, file: &str) -> Result<(), Memory>
    ensures { OnOk result (reason.new ≡ lacking reason.old command file.now) }
{
    reason.text(name_of(command))?;
    reason.text(": ")?;
    reason.text(file)?;
    reason.text(" is lacking")?;
    write_page(reason, Some(command))
}

#[tactic(auto, unfolding(crate::specs::Texts::one_too_many))]
fn write_one_too_many(reason: &mut Reason, command: Command, word: &str) -> Result<(), Memory>
    ensures { OnOk result (reason.new ≡ one_too_many reason.old command word.now) }
{
    write_word(reason, word)?;
    reason.text(": ")?;
    reason.text(name_of(command))?;
    reason.text(" takes no more files")?;
    write_page(reason, Some(command))
}

/// A text, and then the overview as the page that says more.
fn write_with_overview(reason: &mut Reason, text: &str) -> Result<(), Memory>
    ensures { OnOk result (reason.new ≡ see (reason.old ++ text.now) None) }
{
    reason.text(text)?;
    write_page(reason, None)
}

fn write_fault(reason: &mut Reason, fault: Fault<'_>) -> Result<(), Memory>
    ensures { OnOk result (reason.new ≡ fault_text reason.old (fault_seen fault.entry)) }
{
    match fault {
        Fault::NoCommand => write_with_overview(reason, "a command is lacking"),
        Fault::UnknownCommand(word) => write_unknown_command(reason, word),
        Fault::HelpAmong(word) => write_help_among(reason, word),
        Fault::UnknownOption(command, option) => write_unknown_option(reason, command, option),
        Fault::ValueLacking(key) => write_value_lacking(reason, key),
        Fault::ValueUnwanted(word) => write_value_unwanted(reason, word),
        Fault::Twice(option) => write_twice(reason, option),
        Fault::BadNumber(quantity, value) => write_bad_number(reason, quantity, value),
        Fault::BadAddress(value) => write_bad_address(reason, value),
        Fault::BadKill(nodes, value) => write_bad_kill(reason, nodes, value),
        Fault::BadSize(word) => write_bad_size(reason, word),
        Fault::BadOrder(value) => write_bad_order(reason, value),
        Fault::BadPlaces(value) => write_bad_places(reason, value),
        Fault::BadSeeds(value) => write_bad_seeds(reason, value),
        Fault::Lacking(command, file) => write_lacking(reason, command, file),
        Fault::OneTooMany(command, word) => write_one_too_many(reason, command, word),
        Fault::Together(one, other) => write_together(reason, one, other),
        Fault::OrderLacking => {
            reason.text("--seeds stands with --order round or --order drawn alone")
        }
        Fault::PlacesAlone => reason.text("--only stands with --states alone"),
        Fault::Other => write_with_overview(reason, "the words are no command's"),
    }
}

/// The line that says what is wrong with the words of a call, of which the first is the program's own name.
#[tactic(auto, unfolding(crate::specs::Texts::usage_reason))]
pub fn write_usage(reason: &mut Reason, words: &[String]) -> Result<(), Memory>
    ensures { OnOk result (reason.new ≡ line_of_reason (usage_reason (begun reason.old) (map string_bytes words.now))) }
{
    reason.begin()?;
    write_fault(reason, fault_of(words))?;
    reason.end()
}
