//! The call that reads a program.
ghost use Rattle.std.specs.Prelude.{◌≡◌, ℕ, ◌<◌, ◌≤◌, ◌&&◌, length, IfOk, IfErr, Ok};
ghost use Rattle.sn_base.specs.Image.{is_executable};
ghost use Rattle.elf_load.specs.Elf.{is_entry, elf_image};
ghost use Rattle.elf_load.specs.Loading.{image_of, IsRefusedAs};

use crate::fault::{LoadCause, LoadFault};
use crate::file_header::{half_at, identity, reaches, word_at};
use crate::hexadecimal::read_text;
use crate::program_header::{read_headers, read_segments};
use sn_base::{Image, Segment};
use std::alloc::Global;

/// The first byte of an ELF file.
const ELF: u8 = 0x7f;

/// The most program headers that a file may have.
const MOST_HEADERS: u16 = 64;

fn executable(segments: &[Segment], address: u32) -> bool
    ensures { result ≡ is_executable segments.now address }
{
    'segments: for segment in segments.iter() {
        let end = u64::from(segment.start) + u64::from(segment.size);
        if segment.exec && segment.start <= address && u64::from(address) < end {
            return true;
        }
    }
    false
}

fn is_entry(segments: &[Segment], entry: u32) -> bool
    ensures { result ≡ is_entry segments.now entry }
{
    entry % 4 == 0
        && executable(segments, entry)
        && executable(segments, entry + 1)
        && executable(segments, entry + 2)
        && executable(segments, entry + 3)
}

#[tactic(auto, unfolding(crate::specs::Elf::elf_step))]
fn read_elf(alloc: Global, bytes: &[u8]) -> Result<Image, LoadFault>
    ensures ok { IfOk result (λ image. elf_image bytes.now ≡ Ok image) }
    ensures refused { IfErr result (λ fault. IsRefusedAs (elf_image bytes.now) fault) }
{
    reaches(bytes, 52)?;
    identity(bytes)?;
    if word_at(bytes, 36) & 1 == 1 {
        return Err(LoadFault::Refused(LoadCause::Compressed));
    }
    let count = half_at(bytes, 44);
    if count > MOST_HEADERS {
        return Err(LoadFault::Refused(LoadCause::TooManySegments(count)));
    }
    let table = word_at(bytes, 28);
    reaches(bytes, u64::from(table) + 32 * u64::from(count))?;
    let headers = read_headers(alloc, bytes, table as usize, count)?;
    let segments = read_segments(alloc, bytes, headers.as_slice())?;
    let entry = word_at(bytes, 24);
    if !is_entry(segments.as_slice(), entry) {
        return Err(LoadFault::Refused(LoadCause::BadEntry(entry)));
    }
    Ok(Image::new(segments, entry))
}

/// The program that the bytes of a file are.
///
/// A file whose first byte is 7f is read as an ELF executable (ELF specification, "ELF Header" and "Program Header";
/// RISC-V ELF psABI for the machine and the flags), and any other as a text of hexadecimal words. The first step that
/// fails decides, in the order in which the definition lists them.
#[tactic(auto, unfolding(crate::specs::Loading::image_of))]
pub fn load(alloc: Global, bytes: &[u8]) -> Result<Image, LoadFault>
    ensures ok { IfOk result (λ image. image_of bytes.now ≡ Ok image) }
    ensures refused { IfErr result (λ fault. IsRefusedAs (image_of bytes.now) fault) }
{
    match bytes.first() {
        None => Err(LoadFault::Refused(LoadCause::Empty)),
        Some(&ELF) => read_elf(alloc, bytes),
        Some(_) => read_text(alloc, bytes),
    }
}
