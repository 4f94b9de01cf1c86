//! Statuses with their numbers, words and places.
use super::is_so;
use call_status::{ProgramCause, Status};
use elf_load::LoadCause;
use rv_asm::AsmCause;
use rv_core::Cause;
use save_text::SaveCause;
use sn_base::NodeId;
use sn_text::ScriptCause;

#[test]
fn a_status_has_its_number(rt: HostRuntime) {
    is_so(
        &rt,
        (Status::Done.number(), Status::Usage.number()) == (0, 1),
    );
    is_so(
        &rt,
        (Status::BadPlaces(7).number(), Status::InputFault.number()) == (1, 14),
    );
    is_so(&rt, Status::BadSave(SaveCause::TooLong).number() == 12);
    is_so(
        &rt,
        Status::Trapped(NodeId::numbered(2), Cause::Illegal).number() == 10,
    );
}

#[test]
fn a_refused_file_has_its_cause_as_a_second_word(rt: HostRuntime) {
    is_so(&rt, Status::BadPlaces(7).word() == "usage");
    is_so(
        &rt,
        Status::BadScript(ScriptCause::BadLine(2)).word() == "script badline",
    );
    is_so(
        &rt,
        Status::BadSave(SaveCause::SetFull(5)).word() == "save setfull",
    );
    is_so(
        &rt,
        Status::BadAsm(AsmCause::NoLabel(3)).word() == "asm nolabel",
    );
    is_so(
        &rt,
        Status::BadProgram(ProgramCause::TooLong).word() == "program toolong",
    );
    is_so(
        &rt,
        Status::BadProgram(ProgramCause::Load(LoadCause::Compressed)).word()
            == "program compressed",
    );
}

#[test]
fn the_place_of_a_refused_record_follows_its_word(rt: HostRuntime) {
    is_so(
        &rt,
        (Status::Refused(3).place(), Status::Budget.place()) == (Some(3), None),
    );
}
