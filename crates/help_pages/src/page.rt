//! The page that the words ask for.
ghost use Rattle.std.specs.Prelude.{◌≡◌, map, string_bytes};
ghost use Rattle.help_pages.specs.Pages.{asked_by, topic_pages, page_in, command_page, page_on, page_of_two, page_by};

/// What the program says of itself: what there is, one command, what its texts hold, or which version it is.
#[derive(Clone, Copy, PartialEq, Eq, Debug)]
pub enum Page {
    Overview,
    Replay,
    Drive,
    Roll,
    Save,
    Resume,
    Run,
    Monitor,
    Check,
    Judge,
    Demo,
    Asm,
    Dis,
    Events,
    Formats,
    Statuses,
    Version,
}

// What a word asks for where help is this page.
#[tactic(auto, unfolding(crate::specs::Pages::asked_by))]
fn asked_by(help: Page, word: &str) -> Option<Page>
    ensures { result ≡ asked_by help word.now }
{
    match word {
        "--help" | "-h" | "help" => Some(help),
        "--version" => Some(Page::Version),
        _ => None,
    }
}

#[tactic(auto, unfolding(crate::specs::Pages::command_page))]
fn command_page(word: &str) -> Option<Page>
    ensures { result ≡ command_page word.now }
{
    match word {
        "replay" => Some(Page::Replay),
        "drive" => Some(Page::Drive),
        "roll" => Some(Page::Roll),
        "save" => Some(Page::Save),
        "resume" => Some(Page::Resume),
        "run" => Some(Page::Run),
        "monitor" => Some(Page::Monitor),
        "check" => Some(Page::Check),
        "judge" => Some(Page::Judge),
        "demo" => Some(Page::Demo),
        "asm" => Some(Page::Asm),
        "dis" => Some(Page::Dis),
        _ => None,
    }
}

fn topic_page(word: &str) -> Option<Page>
    ensures { result ≡ page_in topic_pages word.now }
{
    match word {
        "events" => Some(Page::Events),
        "formats" => Some(Page::Formats),
        "statuses" => Some(Page::Statuses),
        _ => None,
    }
}

#[tactic(auto, unfolding(crate::specs::Pages::page_on))]
fn page_on(word: &str) -> Option<Page>
    ensures { result ≡ page_on word.now }
{
    match command_page(word) {
        Some(page) => Some(page),
        None => topic_page(word),
    }
}

fn page_of_two(first: &str, second: &str) -> Option<Page>
    ensures { result ≡ page_of_two first.now second.now }
{
    if first == "help" {
        return page_on(second);
    }
    match command_page(first) {
        Some(help) => asked_by(help, second),
        None => None,
    }
}

/// The page that the words ask for, of which the first is the program's own name. None where the call is to be done as a
/// command, or refused as none.
pub fn page_of(words: &[String]) -> Option<Page>
    ensures { result ≡ page_by (map string_bytes words.now) }
{
    match words {
        [] | [_] => Some(Page::Overview),
        [_, word] => asked_by(Page::Overview, word.as_str()),
        [_, first, second] => page_of_two(first.as_str(), second.as_str()),
        _ => None,
    }
}
