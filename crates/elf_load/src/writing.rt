//! Images as ELF files: the file header, a program header for each segment, and then the segments' bytes.
ghost use Rattle.std.specs.Prelude.{◌≡◌, ℕ, ◌+◌, ◌*◌, ◌<◌, ◌≤◌, ◌^◌, ◌++◌, Bool, List, length, vec_len, All, IfOk, OnOk};
ghost use Rattle.sn_base.specs.Image.{IsSegment};
ghost use Rattle.elf_load.specs.Writing.{IsReadAs, halves, words, file_header, flags_of, header_bytes, table_from, content_of};

use byteorder::{ByteOrder, LittleEndian};
use sn_base::{Image, Memory, Segment};
use std::alloc::Global;

/// e_ident, e_type, e_machine and e_version of a 32-bit RISC-V executable.
const IDENTITY: [u8; 24] = [
    0x7f, 0x45, 0x4c, 0x46, 1, 1, 1, 0, 0, 0, 0, 0, 0, 0, 0, 0, 2, 0, 0xf3, 0, 1, 0, 0, 0,
];

/// The size of the file header, which is also the place of the program headers.
const FILE_HEADER: u16 = 52;

/// The size of a program header.
const PROGRAM_HEADER: u16 = 32;

/// p_type of a segment that is loaded.
const LOAD: u32 = 1;

/// Appends numbers, each in four bytes.
fn add_words(file: &mut Vec<u8>, numbers: &[u32]) -> Result<(), Memory>
    ensures { OnOk result (file.new.items ≡ file.old.items ++ words numbers.now) }
{
    'numbers: for number in numbers {
        let mut bytes = [0u8; 4];
        LittleEndian::write_u32(&mut bytes, *number);
        file.extend_from_slice(&bytes)?;
    }
    Ok(())
}

/// Appends numbers, each in two bytes.
fn add_halves(file: &mut Vec<u8>, numbers: &[u16]) -> Result<(), Memory>
    ensures { OnOk result (file.new.items ≡ file.old.items ++ halves numbers.now) }
{
    'numbers: for number in numbers {
        let mut bytes = [0u8; 2];
        LittleEndian::write_u16(&mut bytes, *number);
        file.extend_from_slice(&bytes)?;
    }
    Ok(())
}

fn add_file_header(file: &mut Vec<u8>, count: u16, entry: u32) -> Result<(), Memory>
    ensures { OnOk result (file.new.items ≡ file.old.items ++ file_header count entry) }
{
    file.extend_from_slice(&IDENTITY)?;
    add_words(file, &[entry, u32::from(FILE_HEADER), 0, 0])?;
    add_halves(file, &[FILE_HEADER, PROGRAM_HEADER, count, 0, 0, 0])
}

/// p_flags of a segment that isn't both written and executed.
fn flags_of(write: bool, exec: bool) -> u32
    ensures { result ≡ flags_of write exec }
{
    if write {
        6
    } else if exec {
        5
    } else {
        4
    }
}

/// The size of a segment's bytes in the file.
fn file_size(segment: &Segment) -> u32
    requires { IsSegment segment.now }
    ensures { result ≡ length segment.now.bytes }
{
    segment.bytes.len() as u32
}

/// Appends the program header of a segment whose bytes stand at a place.
fn add_header(file: &mut Vec<u8>, segment: &Segment, place: u32) -> Result<(), Memory>
    requires { IsSegment segment.now }
    ensures { OnOk result (file.new.items ≡ file.old.items ++ header_bytes segment.now place) }
{
    let size = file_size(segment);
    let flags = flags_of(segment.write, segment.exec);
    let start = segment.start;
    add_words(
        file,
        &[LOAD, place, start, start, size, segment.size, flags, 1],
    )
}

/// Appends the program headers of segments whose bytes stand one after the other from a place.
#[tactic(auto, unfolding(crate::specs::Writing::table_from))]
fn add_table(file: &mut Vec<u8>, segments: &[Segment], place: u32) -> Result<(), Memory>
    requires few { length segments.now ≤ 64 }
    requires each { All IsSegment segments.now }
    requires near { place ≤ 4096 }
    ensures { OnOk result (file.new.items ≡ file.old.items ++ table_from segments.now place) }
{
    let mut place = place;
    'segments: for segment in segments.iter() {
        add_header(file, segment, place)?;
        place += file_size(segment);
    }
    Ok(())
}

fn add_content(file: &mut Vec<u8>, segments: &[Segment]) -> Result<(), Memory>
    ensures { OnOk result (file.new.items ≡ file.old.items ++ content_of segments.now) }
{
    'segments: for segment in segments.iter() {
        file.extend_from_slice(segment.bytes.as_slice())?;
    }
    Ok(())
}

/// The ELF file of an image, which `load` reads as the same program.
pub fn write_elf(alloc: Global, image: &Image) -> Result<Vec<u8>, Memory>
    requires { length image.now.segments ≤ 64 }
    ensures { IfOk result (λ file. IsReadAs file.items image.now) }
{
    let segments = image.segments();
    let count = segments.len() as u16;
    let mut file = Vec::new(alloc);
    add_file_header(&mut file, count, image.entry())?;
    add_table(
        &mut file,
        segments,
        u32::from(FILE_HEADER + PROGRAM_HEADER * count),
    )?;
    add_content(&mut file, segments)?;
    Ok(file)
}
