//! Which file a request names for what.
ghost use Rattle.std.specs.Prelude.{◌≡◌, option_map};
ghost use Rattle.command_words.specs.Request.{as_request};
ghost use Rattle.call_reasons.specs.Blame.{program_of, assembly_of, save_of, budget_of, first_of, second_of, third_of, file_of};

use command_words::Request;

/// The name of the program.
pub fn program_of(request: &Request) -> Option<&str>
    ensures { option_map (λ name. name.now) result ≡ program_of (as_request request.now) }
{
    match request {
        Request::Replay(asked) => Some(asked.program.as_str()),
        Request::Drive(asked) => Some(asked.program.as_str()),
        Request::Roll(asked) => Some(asked.program.as_str()),
        Request::Save(asked) => Some(asked.program.as_str()),
        Request::Resume(asked) => Some(asked.program.as_str()),
        Request::Run(asked) => Some(asked.program.as_str()),
        Request::Monitor(asked) => Some(asked.program.as_str()),
        Request::Check(asked) => Some(asked.program.as_str()),
        Request::Disassemble(program) => Some(program.as_str()),
        Request::Judge(_) | Request::Demo(_) | Request::Assemble(_) => None,
    }
}

/// The name of the text that is assembled.
pub fn assembly_of(request: &Request) -> Option<&str>
    ensures { option_map (λ name. name.now) result ≡ assembly_of (as_request request.now) }
{
    match request {
        Request::Assemble(text) => Some(text.as_str()),
        _ => None,
    }
}

/// The name of the save file.
pub fn save_of(request: &Request) -> Option<&str>
    ensures { option_map (λ name. name.now) result ≡ save_of (as_request request.now) }
{
    match request {
        Request::Resume(asked) => Some(asked.save.as_str()),
        _ => None,
    }
}

/// How many events a run may have, also one that is watched.
pub fn budget_of(request: &Request) -> Option<u32>
    ensures { result ≡ budget_of (as_request request.now) }
{
    match request {
        Request::Run(asked) => Some(asked.rules.budget),
        Request::Monitor(asked) => Some(asked.rules.budget),
        _ => None,
    }
}

fn first_of(request: &Request) -> Option<&str>
    ensures { option_map (λ name. name.now) result ≡ first_of (as_request request.now) }
{
    match request {
        Request::Judge(accesses) => Some(accesses.as_str()),
        Request::Assemble(text) => Some(text.as_str()),
        _ => program_of(request),
    }
}

fn second_of(request: &Request) -> Option<&str>
    ensures { option_map (λ name. name.now) result ≡ second_of (as_request request.now) }
{
    match request {
        Request::Replay(asked) => Some(asked.script.as_str()),
        Request::Roll(asked) => Some(asked.script.as_str()),
        Request::Save(asked) => Some(asked.script.as_str()),
        Request::Resume(asked) => Some(asked.save.as_str()),
        Request::Check(asked) => Some(asked.trace.as_str()),
        _ => None,
    }
}

fn third_of(request: &Request) -> Option<&str>
    ensures { option_map (λ name. name.now) result ≡ third_of (as_request request.now) }
{
    match request {
        Request::Roll(asked) => Some(asked.control.as_str()),
        Request::Resume(asked) => Some(asked.script.as_str()),
        _ => None,
    }
}

/// The name of the file that a call fetches at this place, counted from 0.
pub fn file_of(request: &Request, place: u8) -> Option<&str>
    ensures { option_map (λ name. name.now) result ≡ file_of (as_request request.now) place }
{
    match place {
        0 => first_of(request),
        1 => second_of(request),
        2 => third_of(request),
        _ => None,
    }
}
