//! Files that are read once more.
ghost use Rattle.std.specs.Prelude.{◌≡◌};

use reasons::Unread;
use sn_io::{Fetched, FileStore, Store, StoreFault};
use std::fs::{self, File};
use std::io::{self, Error, ErrorKind, Read};
use std::rt::Files;

/// The files of the system, as far as they can be read twice: a pipe gives nothing a second time, and its opening might wait.
#[derive(Drop)]
pub struct FilesAgain<'a, R: Files> {
    rt: &'a R,
    faults: u64,
}

impl<'a, R: Files> FilesAgain<'a, R> {
    pub fn new(rt: &'a R) -> FilesAgain<'a, R>
        ensures { result.faults ≡ 0 }
    {
        FilesAgain { rt, faults: 0 }
    }
}

impl<R: Files> Store for FilesAgain<'_, R> {
    ghost use Rattle.std.specs.Prelude.{None};

    ghost files = { λ s. None };

    ghost sure = { λ s. ⊥ };

    ghost faults = { λ s. s.faults };

    ghost gave = { λ s name found t. Unit {0} };

    fn fetch(
        &mut self,
        name: &str,
        limit: usize,
        into: &mut Vec<u8>,
    ) -> Result<Fetched, StoreFault> {
        let fetched = if is_file(self.rt, name) {
            FileStore::new(self.rt).fetch(name, limit, into)
        } else {
            Err(StoreFault::Failed)
        };
        if fetched == Err(StoreFault::Failed) {
            self.faults = self.faults.saturating_add(1);
        }
        fetched
    }
}

fn is_file<T: Files>(rt: &T, name: &str) -> bool {
    fs::metadata(rt, name).is_ok_and(|found| found.is_file())
}

fn kind_of(error: &Error) -> Unread {
    match error.kind() {
        ErrorKind::NotFound => Unread::NotFound,
        ErrorKind::PermissionDenied => Unread::NotAllowed,
        ErrorKind::IsADirectory => Unread::Directory,
        _ => Unread::Other,
    }
}

fn read_first<T: Files>(rt: &T, name: &str) -> io::Result<usize> {
    let mut file = File::open(rt, name)?;
    file.read(&mut [0])
}

/// Why a file can't be read now, if it can't. Of what is neither a file nor a folder nothing is known.
pub fn unread_of<T: Files>(rt: &T, name: &str) -> Option<Unread> {
    match fs::metadata(rt, name) {
        Err(error) => Some(kind_of(&error)),
        Ok(found) if found.is_dir() => Some(Unread::Directory),
        Ok(found) if !found.is_file() => None,
        Ok(_) => Some(kind_of(&read_first(rt, name).err()?)),
    }
}
