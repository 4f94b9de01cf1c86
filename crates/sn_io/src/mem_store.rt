//! A store in memory.
ghost use Rattle.std.specs.Prelude.{◌≡◌, [], ◌∷◌, ◌++◌, OnOk, OnErr, true, ◌↔◌};
ghost use Rattle.std.specs.Option.{option_copied};
ghost use Rattle.sn_io.specs.Files.{file_of};

use crate::calls::Calls;
use crate::outside::{Fetched, Store, StoreFault};
use sn_base::Memory;
use std::alloc::Global;
use std::marker::Model;

#[derive(Drop)]
struct NamedFile {
    name: String,
    bytes: Vec<u8>,
}

impl Model for NamedFile {
    ghost use Rattle.std.specs.Prelude.{string_bytes};
    ghost use Rattle.sn_io.specs.Files.{FileData};

    ghost Value = { FileData };

    ghost view = { λ f. record { name = string_bytes f.name; bytes = f.bytes.items } };
}

/// Files in memory. Beside a name that it lacks, each call of `fetch` whose number was named to `fail_call` fails; the
/// first call is 1, and a call that found no memory has no number. A name that was added twice has the bytes that it
/// was given first.
#[derive(Drop)]
pub struct MemStore {
    alloc: Global,
    files: Vec<NamedFile>,
    calls: Calls,
    faults: u64,
}

impl Model for MemStore {
    ghost use Rattle.sn_io.specs.Files.{StoreData};

    ghost Value = { StoreData };

    ghost view = { λ s. record { files = s.files.items; calls = s.calls; faults = s.faults } };
}

impl MemStore {
    pub fn new(alloc: Global) -> MemStore
        ensures { result ≡ record { files = []; calls = record { named = []; made = 0 }; faults = 0 } }
    {
        MemStore {
            alloc,
            files: Vec::new(alloc),
            calls: Calls::new(alloc),
            faults: 0,
        }
    }

    pub fn add(&mut self, name: &str, bytes: &[u8]) -> Result<(), Memory>
        ensures ok { OnOk result
            (self.new ≡ record self.old { files = self.old.files ++ (record { name = name.now; bytes = bytes.now }) ∷ [] }) }
        ensures err { OnErr result (self.new ≡ self.old) }
    {
        let name = String::from_str(self.alloc, name)?;
        let bytes = Vec::from_slice(self.alloc, bytes)?;
        self.files.push(NamedFile { name, bytes })?;
        Ok(())
    }

    pub fn fail_call(&mut self, call: u64) -> Result<(), Memory>
        ensures ok { OnOk result
            (self.new ≡ record self.old { calls = record self.old.calls { named = self.old.calls.named ++ call ∷ [] } }) }
        ensures err { OnErr result (self.new ≡ self.old) }
    {
        self.calls.name(call)?;
        Ok(())
    }
}

impl Store for MemStore {
    ghost use Rattle.std.specs.Prelude.{Some};
    ghost use Rattle.sn_io.specs.Calls.{NoneToCome};
    ghost use Rattle.sn_io.specs.Files.{file_of, Gives};

    ghost files = { λ s. Some (file_of s.files) };

    ghost sure = { λ s. NoneToCome s.calls };

    ghost faults = { λ s. s.faults };

    ghost gave = { λ s name found t. Gives s name found t };

    fn fetch(
        &mut self,
        name: &str,
        limit: usize,
        into: &mut Vec<u8>,
    ) -> Result<Fetched, StoreFault> {
        let found = if self.calls.is_next_named() {
            None
        } else {
            find(self.files.as_slice(), name)
        };
        let Some(bytes) = found else {
            self.calls.begin();
            self.faults = self.faults.saturating_add(1);
            return Err(StoreFault::Failed);
        };
        if bytes.len() > limit {
            self.calls.begin();
            return Ok(Fetched::Longer);
        }
        match into.extend_from_slice(bytes) {
            Ok(()) => {
                self.calls.begin();
                Ok(Fetched::Whole)
            }
            Err(_) => Err(StoreFault::Memory),
        }
    }
}

fn find<'a>(files: &'a [NamedFile], name: &str) -> Option<&'a [u8]>
    ensures { option_copied result ≡ file_of files.now name.now }
{
    'files: for file in files {
        if file.name.as_str() == name {
            return Some(file.bytes.as_slice());
        }
    }
    None
}
