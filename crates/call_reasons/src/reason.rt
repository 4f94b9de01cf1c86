//! The line of a call: by its status.
ghost use Rattle.std.specs.Prelude.{◌≡◌, ℕ, List, Option, Some, OnOk, true};
ghost use Rattle.command_words.specs.Request.{as_request, request_fits};
ghost use Rattle.call_reasons.specs.Blame.{budget_of};
ghost use Rattle.call_reasons.specs.Reason.{places_beyond, of_places, of_budget, of_full, of_spent, of_input, IsOfRecord, IsReason};

use crate::accesses::write_accesses;
use crate::blame::budget_of;
use crate::lines::write_lines;
use crate::programs::{write_assembly_of, write_program_of};
use crate::saves::write_save_of;
use crate::verdict::write_verdict;
use call_status::Status;
use command_words::{ReplayReport, Request};
use option_values::Places;
use reasons::{Lack, Reason, write_cut_off, write_lack, write_spent, write_trapped};
use sn_base::Memory;
use sn_io::Store;
use std::alloc::Global;

#[tactic(auto, unfolding(crate::specs::Reason::places_beyond))]
fn write_beyond(reason: &mut Reason, only: &Places, events: u32) -> Result<(), Memory>
    ensures { OnOk result (reason.new ≡ places_beyond reason.old only.now events) }
{
    reason.begin()?;
    reason.text("--only ")?;
    reason.number(u64::from(only.from))?;
    reason.text("-")?;
    reason.number(u64::from(only.to))?;
    reason.text(": the script has ")?;
    reason.number(u64::from(events))?;
    reason.text(" events")?;
    reason.end()
}

// Why places aren't shown, of which a script with so many events hasn't the last.
fn write_places(reason: &mut Reason, request: &Request, events: u32) -> Result<(), Memory>
    ensures { OnOk result (reason.new ≡ of_places reason.old (as_request request.now) events) }
{
    let Request::Replay(asked) = request else {
        return Ok(());
    };
    match &asked.report {
        ReplayReport::States(Some(only)) => write_beyond(reason, only, events),
        _ => Ok(()),
    }
}

// Why a drive ended at an event.
#[tactic(auto, unfolding(crate::specs::Reason::of_full))]
fn write_full(reason: &mut Reason) -> Result<(), Memory>
    ensures { OnOk result (reason.new ≡ of_full reason.old) }
{
    reason.begin()?;
    reason.text("the drive has 1000000 events, and there is room for no more")?;
    reason.end()
}

// Why a run or a drive ended at its budget.
fn write_spent_by(reason: &mut Reason, request: &Request) -> Result<(), Memory>
    ensures { OnOk result (reason.new ≡ of_spent reason.old (as_request request.now)) }
{
    match request {
        Request::Drive(_) => write_full(reason),
        _ => write_budget(reason, request),
    }
}

// Why a drive ended before its lines did.
#[tactic(auto, unfolding(crate::specs::Reason::of_input))]
fn write_input(reason: &mut Reason) -> Result<(), Memory>
    ensures { OnOk result (reason.new ≡ of_input reason.old) }
{
    reason.begin()?;
    reason.text("standard input can't be read to its end")?;
    reason.end()
}

// Why a run ended at its budget.
fn write_budget(reason: &mut Reason, request: &Request) -> Result<(), Memory>
    ensures { OnOk result (reason.new ≡ of_budget reason.old (budget_of (as_request request.now))) }
{
    match budget_of(request) {
        Some(budget) => write_spent(reason, budget),
        None => Ok(()),
    }
}

// Which record of a trace is no step, or which access isn't legal.
fn write_record<S: Store>(
    alloc: Global,
    store: &mut S,
    reason: &mut Reason,
    request: &Request,
    place: u64,
) -> Result<(), Memory>
    requires fits { request_fits (as_request request.now) ≡ true }
    ensures told { (held : List ℕ → Option (List ℕ)) → S.sure store.old → S.files store.old ≡ Some held → OnOk result
        (IsOfRecord held (as_request request.now) place reason.old reason.new) }
    ensures files { S.files store.new ≡ S.files store.old }
    ensures stays_sure { S.sure store.old → S.sure store.new }
{
    match request {
        Request::Check(asked) => write_verdict(alloc, store, reason, asked, place),
        Request::Judge(accesses) => write_accesses(alloc, store, reason, accesses.as_str()),
        _ => Ok(()),
    }
}

/// Puts to a reason the line that says why a call with this request ended in this status, and fetches what it has to show
/// once more from the store. Nothing is put for a call that is done, for words that are no request, and where a file
/// couldn't be fetched. After `Memory` the text is of no use.
pub fn write_reason<S: Store>(
    alloc: Global,
    store: &mut S,
    request: &Request,
    status: Status,
    reason: &mut Reason,
) -> Result<(), Memory>
    requires fits { request_fits (as_request request.now) ≡ true }
    ensures told { (held : List ℕ → Option (List ℕ)) → S.sure store.old → S.files store.old ≡ Some held → OnOk result
        (IsReason held (as_request request.now) status reason.old reason.new) }
    ensures files { S.files store.new ≡ S.files store.old }
    ensures stays_sure { S.sure store.old → S.sure store.new }
{
    match status {
        Status::Done | Status::Usage | Status::StoreFault => Ok(()),
        Status::BadPlaces(events) => write_places(reason, request, events),
        Status::BadProgram(cause) => write_program_of(alloc, store, reason, request, cause),
        Status::BadScript(cause) => write_lines(alloc, store, reason, request, cause),
        Status::BadSave(cause) => write_save_of(alloc, store, reason, request, cause),
        Status::BadAsm(cause) => write_assembly_of(alloc, store, reason, request, cause),
        Status::SinkFault => write_lack(reason, Lack::Output),
        Status::Budget => write_spent_by(reason, request),
        Status::Memory => write_lack(reason, Lack::Memory),
        Status::CutOff(a, b) => write_cut_off(reason, a, b),
        Status::Refused(place) => write_record(alloc, store, reason, request, place),
        Status::Trapped(node, cause) => write_trapped(reason, node, cause),
        Status::InputFault => write_input(reason),
    }
}
