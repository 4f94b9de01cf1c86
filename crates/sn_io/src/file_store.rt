//! A store over the files of the system: a trusted edge.
ghost use Rattle.std.specs.Prelude.{◌≡◌, ◌≢◌, ◌+◌, [], length, take, nat_lt, if◌then◌else◌, Some, Ok, Err, IfOk, IfErr, OnOk, IfSome};
ghost use Rattle.std.specs.IoError.{error_kind};
ghost use Rattle.sn_io.specs.Outside.{found_in, found_of};

use crate::outside::{Fetched, Store, StoreFault};
use std::fs::File;
use std::io::{self, ErrorKind, Read};
use std::rt::Files;

/// The files that a runtime gives. It tells nothing of what they hold and is never sure: each error of the system,
/// at opening or reading, is a failure.
#[derive(Drop)]
pub struct FileStore<'a, R: Files> {
    rt: &'a R,
    faults: u64,
}

impl<'a, R: Files> FileStore<'a, R> {
    pub fn new(rt: &'a R) -> FileStore<'a, R>
        ensures { result.faults ≡ 0 }
    {
        FileStore { rt, faults: 0 }
    }
}

// Reads the rest of a file, or one byte more than `limit`, which shows that it is longer.
fn read_past<F: Read + Drop>(file: F, limit: usize, into: &mut Vec<u8>) -> io::Result<usize>
    requires empty { into.old.items ≡ [] }
    ensures read { OnOk result (IfSome (F.remaining file) (λ rest. into.new.items ≡ take (limit + 1) rest)) }
    ensures count { IfOk result (λ count. length into.new.items ≡ count) }
{
    match (limit as u64).checked_add(1) {
        Some(most) => file.take(most).read_to_end(into),
        None => {
            let mut file = file;
            file.read_to_end(into)?;
            Ok(into.len())
        }
    }
}

// What it comes to that so many bytes were read, or that reading failed.
fn fetched_by(read: &io::Result<usize>, limit: usize) -> Result<Fetched, StoreFault>
    ensures read { IfOk read.now (λ count. result ≡ Ok (if nat_lt limit count then Fetched.Longer else Fetched.Whole)) }
    ensures lacked { IfErr read.now (λ error. error_kind error ≡ ErrorKind.OutOfMemory → result ≡ Err StoreFault.Memory) }
    ensures failed { IfErr read.now (λ error. error_kind error ≢ ErrorKind.OutOfMemory → result ≡ Err StoreFault.Failed) }
{
    match read {
        Ok(count) if *count > limit => Ok(Fetched::Longer),
        Ok(_) => Ok(Fetched::Whole),
        Err(error) if error.kind() == ErrorKind::OutOfMemory => Err(StoreFault::Memory),
        Err(_) => Err(StoreFault::Failed),
    }
}

// Puts the rest of a file into `into`, where it has at most `limit` bytes.
pub(crate) fn read_whole<F: Read + Drop>(
    file: F,
    limit: usize,
    into: &mut Vec<u8>,
) -> Result<Fetched, StoreFault>
    requires empty { into.old.items ≡ [] }
    ensures found { IfSome (F.remaining file) (λ rest. IfOk result (λ _. found_of result into.new.items ≡ found_in (Some rest) limit)) }
    ensures cleared { result ≢ Ok Fetched.Whole → into.new.items ≡ [] }
{
    let read = read_past(file, limit, into);
    let fetched = fetched_by(&read, limit);
    if fetched != Ok(Fetched::Whole) {
        into.clear();
    }
    fetched
}

impl<R: Files> Store for FileStore<'_, R> {
    ghost use Rattle.std.specs.Prelude.{None};

    ghost files = { λ s. None };

    ghost sure = { λ s. ⊥ };

    ghost faults = { λ s. s.faults };

    ghost gave = { λ s name found t. Unit {0} };

    fn fetch(
        &mut self,
        name: &str,
        limit: usize,
        into: &mut Vec<u8>,
    ) -> Result<Fetched, StoreFault> {
        let fetched = match File::open(self.rt, name) {
            Ok(file) => read_whole(file, limit, into),
            Err(_) => Err(StoreFault::Failed),
        };
        if fetched == Err(StoreFault::Failed) {
            self.faults = self.faults.saturating_add(1);
        }
        fetched
    }
}
