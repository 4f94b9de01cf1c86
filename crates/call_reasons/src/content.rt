//! Files fetched once more.
ghost use Rattle.std.specs.Prelude.{◌≡◌, ◌≤◌, ◌<◌, ◌^◌, ℕ, List, Option, Some, IfOk, length};
ghost use Rattle.sn_io.specs.Outside.{found_in};
ghost use Rattle.call_reasons.specs.Found.{found_of};
ghost use Rattle.call_reasons.specs.Files.{bytes_in, is_refused, nodes_in, records_in};

use rv_core::Record;
use save_text::{SaveFault, read_lines};
use sn_base::Memory;
use sn_io::{Fetched, Store, StoreFault};
use sn_text::{ScriptFault, read_script, read_trace};
use std::alloc::Global;

/// The most bytes of a program's file, and of a text that is assembled.
pub const PROGRAM_LIMIT: usize = 16_777_216;

/// The most bytes of a script's file, of a control file and of a trace's.
pub const SCRIPT_LIMIT: usize = 33_554_432;

/// The most bytes of a save file.
pub const SAVE_LIMIT: usize = 67_108_864;

/// What a fetch found.
#[derive(Drop)]
pub enum Content {
    Whole(Vec<u8>),
    Longer,
    Missing,
}

impl Content {
    /// The bytes that can be shown.
    pub fn bytes(&self) -> &[u8]
        ensures { result.now ≡ bytes_in (found_of self.now) }
    {
        match self {
            Content::Whole(bytes) => bytes.as_slice(),
            Content::Longer | Content::Missing => &[],
        }
    }
}

/// Fetches a file of at most so many bytes. One that fails now is missing.
pub fn fetch<S: Store>(
    alloc: Global,
    store: &mut S,
    name: &str,
    limit: usize,
) -> Result<Content, Memory>
    ensures found { (held : List ℕ → Option (List ℕ)) → S.sure store.old → S.files store.old ≡ Some held →
        IfOk result (λ content. found_of content ≡ found_in (held name.now) limit) }
    ensures short { IfOk result (λ content. length (bytes_in (found_of content)) ≤ limit) }
    ensures files { S.files store.new ≡ S.files store.old }
    ensures stays_sure { S.sure store.old → S.sure store.new }
{
    let mut bytes = Vec::new(alloc);
    match store.fetch(name, limit, &mut bytes) {
        Ok(Fetched::Whole) if bytes.len() <= limit => Ok(Content::Whole(bytes)),
        Ok(_) => Ok(Content::Longer),
        Err(StoreFault::Failed) => Ok(Content::Missing),
        Err(StoreFault::Memory) => Err(Memory),
    }
}

/// Whether a script's file for so many nodes is refused.
pub fn is_refused(alloc: Global, content: &Content, nodes: u8) -> Result<bool, Memory>
    requires few { nodes ≤ 16 }
    requires short { length (bytes_in (found_of content.now)) < 2 ^ 62 }
    ensures { IfOk result (λ refused. refused ≡ is_refused nodes (found_of content.now)) }
{
    let Content::Whole(bytes) = content else {
        return Ok(matches!(content, Content::Longer));
    };
    match read_script(alloc, bytes.as_slice(), nodes) {
        Ok(_) => Ok(false),
        Err(ScriptFault::Refused(_)) => Ok(true),
        Err(ScriptFault::Memory) => Err(Memory),
    }
}

/// The number of nodes that a save file says, and 16 where it says none.
pub fn nodes_in(alloc: Global, content: &Content) -> Result<u8, Memory>
    requires short { length (bytes_in (found_of content.now)) < 2 ^ 62 }
    ensures { IfOk result (λ nodes. nodes ≡ nodes_in (found_of content.now)) }
{
    match read_lines(alloc, content.bytes()) {
        Ok(saved) => Ok(saved.config.nodes),
        Err(SaveFault::Refused(_)) => Ok(16),
        Err(SaveFault::Memory) => Err(Memory),
    }
}

/// The records of a trace of so many nodes, and none where its bytes are no trace.
pub fn records_in(alloc: Global, bytes: &[u8], nodes: u8) -> Result<Vec<Record>, Memory>
    requires few { nodes ≤ 16 }
    requires short { length bytes.now < 2 ^ 62 }
    ensures { IfOk result (λ records. records.items ≡ records_in nodes bytes.now) }
{
    match read_trace(alloc, bytes, nodes) {
        Ok(records) => Ok(records),
        Err(ScriptFault::Refused(_)) => Ok(Vec::new(alloc)),
        Err(ScriptFault::Memory) => Err(Memory),
    }
}
