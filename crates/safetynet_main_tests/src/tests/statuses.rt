//! The numbers and words of the statuses.
use super::{End, status_of};
use call_status::{ProgramCause, Status};
use elf_load::LoadCause;
use rv_asm::AsmCause;
use rv_core::Cause;
use sn_base::NodeId;
use sn_text::{ScriptCause, trap_name};
use std::process::Abort;

const STATUSES: &[(End, u8, &str)] = &[
    (End::Done, 0, "done"),
    (End::Usage, 1, "usage"),
    (End::StoreFault, 2, "store"),
    (
        End::BadProgram(ProgramCause::Load(LoadCause::BadHexLine(1))),
        3,
        "program badhexline",
    ),
    (End::BadScript(ScriptCause::TooLong), 4, "script toolong"),
    (End::BadScript(ScriptCause::BadLine(2)), 4, "script badline"),
    (End::SinkFault, 5, "sink"),
    (End::Budget, 6, "budget"),
    (End::Memory, 7, "memory"),
    (End::BadAsm(AsmCause::LabelTwice(4)), 13, "asm labeltwice"),
    (End::InputFault, 14, "input"),
];

const TRAPS: &[(Cause, &str)] = &[
    (Cause::Illegal, "illegal"),
    (Cause::FetchFault, "fetch"),
    (Cause::MisalignedTarget, "target"),
    (Cause::MisalignedAccess, "misaligned"),
    (Cause::AccessFault, "access"),
    (Cause::UnknownCall, "call"),
    (Cause::Break, "break"),
];

fn is_shown(rt: &impl Abort, status: Status, number: u8, word: &str) {
    assert!(rt;
        status.number() == number && status.word() == word,
        "of {word}"
    );
}

#[test]
fn a_status_has_its_number_and_word(rt: HostRuntime) {
    for (end, number, word) in STATUSES {
        is_shown(&rt, status_of(end), *number, word);
    }
}

#[test]
fn a_status_with_nodes_or_a_place_has_its_number_and_word(rt: HostRuntime) {
    let first = NodeId::numbered(0);
    is_shown(&rt, Status::CutOff(first, first), 8, "cutoff");
    is_shown(&rt, Status::Refused(6), 9, "refused");
    is_shown(&rt, Status::Trapped(first, Cause::Illegal), 10, "trapped");
    assert!(rt; Status::Refused(6).place() == Some(6) && Status::Memory.place().is_none());
}

#[test]
fn a_trap_has_its_word(rt: HostRuntime) {
    for (cause, word) in TRAPS {
        assert!(rt; trap_name(*cause) == *word, "of {word}");
    }
}
