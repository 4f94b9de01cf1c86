//! How a call ends.
ghost use Rattle.std.specs.Prelude.{◌≡◌, ◌++◌, codes};
ghost use Rattle.call_status.specs.Status.{number_of, load_name, program_name, script_name, save_name, asm_name, word_of, place_of};

use elf_load::LoadCause;
use rv_asm::AsmCause;
use rv_core::Cause;
use save_text::SaveCause;
use sn_base::NodeId;
use sn_text::ScriptCause;

/// Why a program's file is refused.
#[derive(Clone, Copy, PartialEq, Eq, Debug)]
pub enum ProgramCause {
    /// The file has more than 16 MiB.
    TooLong,
    /// The loader's cause.
    Load(LoadCause),
}

/// How a call ended.
#[derive(Clone, Copy, PartialEq, Eq, Debug)]
pub enum Status {
    /// All is done, and all text is written.
    Done,
    /// The words aren't a command.
    Usage,
    /// The places whose states are to be shown go beyond the script's events, of which there are so many.
    BadPlaces(u32),
    /// A file is lacking, or the store failed.
    StoreFault,
    /// The program's file is too long, or neither an ELF file nor a hexadecimal image that can be loaded.
    BadProgram(ProgramCause),
    /// The script's file is too long, or isn't a list of events for so many nodes.
    BadScript(ScriptCause),
    /// The save file is too long, or is refused for this program.
    BadSave(SaveCause),
    /// The text that was to be assembled is too long, or is refused at a line.
    BadAsm(AsmCause),
    /// A sink failed: what was written is a prefix of the text.
    SinkFault,
    /// A run has as many events as its budget, or a drive as many as there is room for. All text is written.
    Budget,
    /// Memory was wanted and not given. Nothing is written, but by a replay that shows states, which may have put the pieces of
    /// some first events, and by runs for a range of seeds, which may have put the blocks of the first.
    Memory,
    /// In a run a recovery found these two nodes cut off from each other by switches that are dead. All text is written.
    CutOff(NodeId, NodeId),
    /// The trace's record at this place, counted from 1, is the first that is no step of the flat machine after those
    /// before it. All text is written.
    Refused(u64),
    /// In a run all cores have ended at the recovery point, and this is the least that trapped, and why. All text is written.
    Trapped(NodeId, Cause),
    /// In a drive the source of lines failed. All lines that were read before are answered, and nothing stands behind the answers.
    InputFault,
}

// The word `program`, and the name of the loader's cause.
fn load_word(cause: LoadCause) -> &'static str
    ensures { result.now ≡ codes "program " ++ load_name cause }
{
    match cause {
        LoadCause::Empty => "program empty",
        LoadCause::BadHexLine(_) => "program badhexline",
        LoadCause::TooManyWords => "program toomanywords",
        LoadCause::Truncated(_, _) => "program truncated",
        LoadCause::WrongField(_, _) => "program wrongfield",
        LoadCause::Compressed => "program compressed",
        LoadCause::TooManySegments(_) => "program toomanysegments",
        LoadCause::FileLargerThanMemory(_) => "program filelargerthanmemory",
        LoadCause::Outside(_) => "program outside",
        LoadCause::Overlap(_, _) => "program overlap",
        LoadCause::WritableCode(_) => "program writablecode",
        LoadCause::BadEntry(_) => "program badentry",
    }
}

// The same of a program's file.
fn program_word(cause: ProgramCause) -> &'static str
    ensures { result.now ≡ codes "program " ++ program_name cause }
{
    match cause {
        ProgramCause::TooLong => "program toolong",
        ProgramCause::Load(cause) => load_word(cause),
    }
}

// The word `script`, and the name of the cause.
fn script_word(cause: ScriptCause) -> &'static str
    ensures { result.now ≡ codes "script " ++ script_name cause }
{
    match cause {
        ScriptCause::TooLong => "script toolong",
        ScriptCause::BadLine(_) => "script badline",
        ScriptCause::OutOfRange(_) => "script outofrange",
        ScriptCause::TooMany => "script toomany",
    }
}

// The word `save`, and the name of the cause.
fn save_word(cause: SaveCause) -> &'static str
    ensures { result.now ≡ codes "save " ++ save_name cause }
{
    match cause {
        SaveCause::TooLong => "save toolong",
        SaveCause::BadLine(_) => "save badline",
        SaveCause::OutOfRange(_) => "save outofrange",
        SaveCause::CutOff(_, _) => "save cutoff",
        SaveCause::SetFull(_) => "save setfull",
        SaveCause::NotLegal(_) => "save notlegal",
        SaveCause::Unread(_) => "save unread",
    }
}

// The word `asm`, and the name of the cause.
fn asm_word(cause: AsmCause) -> &'static str
    ensures { result.now ≡ codes "asm " ++ asm_name cause }
{
    match cause {
        AsmCause::TooLong => "asm toolong",
        AsmCause::BadLine(_) => "asm badline",
        AsmCause::OutOfRange(_) => "asm outofrange",
        AsmCause::LabelTwice(_) => "asm labeltwice",
        AsmCause::TooManyWords(_) => "asm toomanywords",
        AsmCause::NoLabel(_) => "asm nolabel",
    }
}

impl Status {
    /// The program's exit status.
    pub fn number(&self) -> u8
        ensures { result ≡ number_of self.now }
    {
        match self {
            Status::Done => 0,
            Status::Usage | Status::BadPlaces(_) => 1,
            Status::StoreFault => 2,
            Status::BadProgram(_) => 3,
            Status::BadScript(_) => 4,
            Status::SinkFault => 5,
            Status::Budget => 6,
            Status::Memory => 7,
            Status::CutOff(_, _) => 8,
            Status::Refused(_) => 9,
            Status::Trapped(_, _) => 10,
            Status::BadSave(_) => 12,
            Status::BadAsm(_) => 13,
            Status::InputFault => 14,
        }
    }

    /// The word that names it; the cause of a file's refusal is a second word.
    pub fn word(&self) -> &'static str
        ensures { result.now ≡ word_of self.now }
    {
        match self {
            Status::Done => "done",
            Status::Usage | Status::BadPlaces(_) => "usage",
            Status::StoreFault => "store",
            Status::BadProgram(cause) => program_word(*cause),
            Status::BadScript(cause) => script_word(*cause),
            Status::BadSave(cause) => save_word(*cause),
            Status::BadAsm(cause) => asm_word(*cause),
            Status::SinkFault => "sink",
            Status::Budget => "budget",
            Status::Memory => "memory",
            Status::CutOff(_, _) => "cutoff",
            Status::Refused(_) => "refused",
            Status::Trapped(_, _) => "trapped",
            Status::InputFault => "input",
        }
    }

    /// The number that follows the word: the place of the record that is refused.
    pub fn place(&self) -> Option<u64>
        ensures { result ≡ place_of self.now }
    {
        match self {
            Status::Refused(place) => Some(*place),
            _ => None,
        }
    }
}
