//! The ELF file header (ELF specification, "ELF Header").
ghost use Rattle.std.specs.Prelude.{◌≡◌, ◌+◌, ◌≤◌, ◌==◌, length, drop};
ghost use Rattle.std.specs.Int.RustNames.{bit_and};
ghost use Rattle.elf_load.specs.Elf.{half_at, word_at, reaches, is_field, identity};

use crate::fault::{Field, LoadCause};
use byteorder::{ByteOrder, LittleEndian};

/// The size of the file header.
pub const HEADER_SIZE: u64 = 52;

/// The 32-bit number at a place.
pub fn word_at(bytes: &[u8], place: usize) -> u32
    requires { place + 4 ≤ length bytes.now }
    ensures { result ≡ word_at bytes.now place }
{
    LittleEndian::read_u32(&bytes[place..])
}

/// The 16-bit number at a place.
pub fn half_at(bytes: &[u8], place: usize) -> u16
    requires { place + 2 ≤ length bytes.now }
    ensures { result ≡ half_at bytes.now place }
{
    LittleEndian::read_u16(&bytes[place..])
}

/// Passes where the file reaches to a place.
pub fn reaches(bytes: &[u8], end: u64) -> Result<(), LoadCause>
    ensures { result ≡ reaches bytes.now end }
{
    let length = bytes.len() as u64;
    if length < end {
        return Err(LoadCause::Truncated(end, length));
    }
    Ok(())
}

fn is_field(field: Field, wanted: u32, value: u32) -> Result<(), LoadCause>
    ensures { result ≡ is_field field wanted value }
{
    if value != wanted {
        return Err(LoadCause::WrongField(field, value));
    }
    Ok(())
}

/// Passes where the file is a 32-bit RISC-V executable, lowest byte first.
#[tactic(auto, unfolding(crate::specs::Elf::identity))]
pub fn identity(bytes: &[u8]) -> Result<(), LoadCause>
    requires { 52 ≤ length bytes.now }
    ensures { result ≡ identity bytes.now }
{
    is_field(Field::Magic, 0x464c_457f, word_at(bytes, 0))?;
    is_field(Field::Class, 1, u32::from(bytes[4]))?;
    is_field(Field::Order, 1, u32::from(bytes[5]))?;
    is_field(Field::IdentVersion, 1, u32::from(bytes[6]))?;
    is_field(Field::FileKind, 2, u32::from(half_at(bytes, 16)))?;
    is_field(Field::Machine, 243, u32::from(half_at(bytes, 18)))?;
    is_field(Field::Version, 1, word_at(bytes, 20))?;
    is_field(Field::PhEntSize, 32, u32::from(half_at(bytes, 42)))
}
