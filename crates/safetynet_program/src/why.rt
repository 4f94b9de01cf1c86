//! Why a call ended as it did, said in one line on standard error above the status, and notes on one that is done.
use crate::twice::{FilesAgain, unread_of};
use call_reasons::{file_of, write_notes, write_reason};
use call_status::Status;
use command_words::{Request, WordsFault, read_words};
use reasons::{Lack, Reason, write_lack, write_unread};
use sn_base::Memory;
use std::alloc::Global;
use std::rt::Files;
use usage_reasons::write_usage;

// The first file that can't be read now, in the order in which the call fetches them.
fn write_unread_file<T: Files>(
    rt: &T,
    request: &Request,
    reason: &mut Reason,
) -> Result<(), Memory> {
    'places: for place in 0..3 {
        let Some(name) = file_of(request, place) else {
            continue;
        };
        if let Some(fault) = unread_of(rt, name) {
            return write_unread(reason, name, fault);
        }
    }
    write_lack(reason, Lack::File)
}

/// The line that says why a call with these words ended in this status, which isn't Done.
pub fn write_why<T: Files>(
    rt: &T,
    alloc: Global,
    words: &[String],
    status: Status,
    reason: &mut Reason,
) -> Result<(), Memory> {
    match read_words(alloc, words) {
        Ok(request) if status == Status::StoreFault => write_unread_file(rt, &request, reason),
        Ok(request) => write_reason(alloc, &mut FilesAgain::new(rt), &request, status, reason),
        Err(WordsFault::Usage) => write_usage(reason, words),
        Err(WordsFault::Memory) => write_lack(reason, Lack::Memory),
    }
}

// Whether the words give the number of nodes.
fn gives_nodes(words: &[String]) -> bool {
    words.iter().any(|word| word.as_str() == "--nodes" || word.as_str().starts_with("--nodes="))
}

/// The notes on a call with these words that is done.
pub fn write_notes_on<T: Files>(
    rt: &T,
    alloc: Global,
    words: &[String],
    note: &mut Reason,
) -> Result<(), Memory> {
    match read_words(alloc, words) {
        Ok(request) => {
            let mut files = FilesAgain::new(rt);
            write_notes(alloc, &mut files, &request, gives_nodes(words), note)
        }
        Err(WordsFault::Usage) => Ok(()),
        Err(WordsFault::Memory) => Err(Memory),
    }
}
