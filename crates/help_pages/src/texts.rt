//! What the pages say: a file each for the overview, the commands of like kind, and the topics.
ghost use Rattle.std.specs.Prelude.{◌≡◌, ℕ, ◌≤◌, take, length, OnOk, OnErr};
ghost use Rattle.sn_io.specs.Outside.{Rose, followed_by};
ghost use Rattle.help_pages.specs.Texts.{text_on};

mod commands;
mod driven;
mod overview;
mod runs;
mod saves;
mod schedules;
mod topics;

use crate::page::Page;
use commands::{ASM, CHECK, DEMO, DIS, JUDGE};
use driven::DRIVE;
use overview::{OVERVIEW, VERSION};
use runs::{MONITOR, RUN};
use saves::{RESUME, SAVE};
use schedules::{REPLAY, ROLL};
use sn_io::{Failed, Sink};
use topics::{EVENTS, FORMATS, STATUSES};

fn text_of(page: Page) -> &'static str
    ensures { result.now ≡ text_on page }
{
    match page {
        Page::Overview => OVERVIEW,
        Page::Replay => REPLAY,
        Page::Drive => DRIVE,
        Page::Roll => ROLL,
        Page::Save => SAVE,
        Page::Resume => RESUME,
        Page::Run => RUN,
        Page::Monitor => MONITOR,
        Page::Check => CHECK,
        Page::Judge => JUDGE,
        Page::Demo => DEMO,
        Page::Asm => ASM,
        Page::Dis => DIS,
        Page::Events => EVENTS,
        Page::Formats => FORMATS,
        Page::Statuses => STATUSES,
        Page::Version => VERSION,
    }
}

/// Puts a page to the console, whole and in one piece. Where that fails, it is the beginning of the page that stands there.
pub fn show<C: Sink>(console: &mut C, page: Page) -> Result<(), Failed>
    ensures whole { OnOk result (C.written console.new ≡ followed_by (C.written console.old) (text_on page)) }
    ensures part { OnErr result ((n : ℕ) × (n ≤ length (text_on page))
        × (C.written console.new ≡ followed_by (C.written console.old) (take n (text_on page)))) }
    ensures cause { OnErr result (Rose (C.faults console.old) (C.faults console.new)) }
{
    console.put(text_of(page).as_bytes())
}
