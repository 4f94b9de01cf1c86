//! A program header, as far as a reason names it.
ghost use Rattle.std.specs.Prelude.{◌≡◌, ◌+◌, ◌≤◌, length};
ghost use Rattle.elf_load.specs.Elf.{word_at};
ghost use Rattle.reasons.specs.Headers.{header_of};

use byteorder::{ByteOrder, LittleEndian};

/// Where a segment comes from and goes to.
#[derive(Clone, Copy, PartialEq, Eq, Debug)]
pub struct Header {
    pub address: u32,
    pub file_size: u32,
    pub memory_size: u32,
}

fn word_at(bytes: &[u8], place: usize) -> u32
    requires { place + 4 ≤ length bytes.now }
    ensures { result ≡ word_at bytes.now place }
{
    LittleEndian::read_u32(&bytes[place..])
}

/// The program header of a number, from 0, where the file has it.
#[tactic(auto, unfolding(crate::specs::Headers::header_of))]
pub fn header_of(bytes: &[u8], number: u16) -> Option<Header>
    ensures { result ≡ header_of bytes.now number }
{
    if bytes.len() < 52 {
        return None;
    }
    let place = word_at(bytes, 28) as usize + 32 * usize::from(number);
    if bytes.len() < place + 32 {
        return None;
    }
    Some(Header {
        address: word_at(bytes, place + 8),
        file_size: word_at(bytes, place + 16),
        memory_size: word_at(bytes, place + 20),
    })
}
