//! A file as a linker writes it, what may be wrong with it, and texts of hexadecimal words.
use elf_load::{Field, LoadCause, LoadFault, load, write_elf};
use sn_base::{Image, Memory, Width};
use std::alloc::{AllocError, Global};
use std::process::Abort;
use std::test::Fail;

/// The headers that a linker writes for a program of five words and one variable.
const HEADERS: [u8; 148] = [
    0x7f, 0x45, 0x4c, 0x46, 1, 1, 1, 0, 0, 0, 0, 0, 0, 0, 0, 0, // e_ident
    2, 0, 0xf3, 0, 1, 0, 0, 0, // e_type, e_machine, e_version
    0, 0, 0, 0x80, 52, 0, 0, 0, 0, 0, 0, 0, // e_entry, e_phoff, e_shoff
    0, 0, 0, 0, 52, 0, 32, 0, 3, 0, // e_flags, e_ehsize, e_phentsize, e_phnum
    40, 0, 0, 0, 0, 0, // e_shentsize, e_shnum, e_shstrndx
    3, 0, 0, 0x70, 0, 0x20, 0, 0, 0, 0, 0, 0, 0, 0, 0, 0, // attributes, which no loader reads
    4, 0, 0, 0, 0, 0, 0, 0, 4, 0, 0, 0, 1, 0, 0, 0, //
    1, 0, 0, 0, 0, 0x10, 0, 0, 0, 0, 0, 0x80, 0, 0, 0, 0x80, // the code, of flags 5
    20, 0, 0, 0, 20, 0, 0, 0, 5, 0, 0, 0, 0, 0x10, 0, 0, //
    1, 0, 0, 0, 0, 0x20, 0, 0, 0, 0x10, 0, 0x80, 0, 0x10, 0, 0x80, // the data, of flags 6
    4, 0, 0, 0, 8, 0, 0, 0, 6, 0, 0, 0, 0, 0x10, 0, 0, //
];

/// lui x5, 0x80001; addi x6, x0, 1; amoadd.w x7, x6, (x5); lw x10, 0(x5); jal x0, 0.
const CODE: [u8; 20] = [
    0xb7, 0x12, 0x00, 0x80, 0x13, 0x03, 0x10, 0x00, 0xaf, 0xa3, 0x62, 0x00, 0x03, 0xa5, 0x02, 0x00,
    0x6f, 0x00, 0x00, 0x00,
];

/// What was found is what was wanted of it.
fn same<T: PartialEq>(rt: &impl Abort, what: &str, found: &T, wanted: &T) {
    assert!(rt; *found == *wanted, "{what}");
}

/// Puts these bytes at a place, as far as the file goes.
fn put(file: &mut [u8], place: usize, bytes: &[u8]) {
    for at in 0..bytes.len() {
        if place < file.len() && at < file.len() - place {
            file[place + at] = bytes[at];
        }
    }
}

fn linked(alloc: Global) -> Result<Vec<u8>, AllocError> {
    let mut file = vec![in alloc; 0u8; 8196]?;
    put(file.as_mut_slice(), 0, &HEADERS);
    put(file.as_mut_slice(), 0x1000, &CODE);
    put(file.as_mut_slice(), 0x2000, &[9, 8, 7, 6]);
    Ok(file)
}

/// Why a file is refused, or nothing where it is accepted.
fn cause(alloc: Global, bytes: &[u8]) -> Result<Option<LoadCause>, Memory> {
    match load(alloc, bytes) {
        Ok(_) => Ok(None),
        Err(LoadFault::Refused(cause)) => Ok(Some(cause)),
        Err(LoadFault::Memory) => Err(Memory),
    }
}

/// Why the linker's file with these bytes changed is refused.
fn cause_with(alloc: Global, place: usize, bytes: &[u8]) -> Result<Option<LoadCause>, Memory> {
    let mut file = linked(alloc)?;
    put(file.as_mut_slice(), place, bytes);
    cause(alloc, file.as_slice())
}

/// A place of the linker's file, the bytes that are put there, and why the file is refused then.
type Change = (usize, &'static [u8], Option<LoadCause>);

fn each_has_its_cause(rt: &impl Abort, alloc: Global, changes: &[Change]) -> Result<(), Memory> {
    for (place, bytes, wanted) in changes {
        let found = cause_with(alloc, *place, bytes)?;
        assert!(rt; found == *wanted, "at {place}");
    }
    Ok(())
}

/// The words that an image gives at these places, where it gives one.
fn has_words(rt: &impl Abort, image: &Image, words: &[(u32, Option<u32>)]) {
    for (pc, word) in words {
        assert!(rt; image.fetch(*pc) == *word, "at {pc}");
    }
}

/// Whether words may be written at these addresses.
fn is_writable(rt: &impl Abort, image: &Image, words: &[(u32, bool)]) {
    for (address, may) in words {
        assert!(rt;
            image.writable(*address, Width::Word) == *may,
            "at {address}"
        );
    }
}

#[test]
fn a_linked_file_is_accepted(rt: HostRuntime) -> Result<(), Fail> {
    let file = linked(rt.alloc())?;
    let image = load(rt.alloc(), file.as_slice())?;
    same(&rt, "entry", &image.entry(), &0x8000_0000);
    same(&rt, "segments", &image.segments().len(), &2);
    same(&rt, "first byte of the data", &image.byte(0x8000_1000), &9);
    same(&rt, "byte after the data", &image.byte(0x8000_1004), &0);
    let words = [
        (0x8000_0000, Some(0x8000_12b7)),
        (0x8000_0010, Some(0x0000_006f)),
        (0x8000_0014, None),
    ];
    has_words(&rt, &image, &words);
    let written = [
        (0x8000_1004, true),
        (0x8000_0010, false),
        (0x8000_2000, true),
    ];
    is_writable(&rt, &image, &written);
    Ok(())
}

/// Why the first bytes of the linker's file, so many, are refused.
fn cause_of_cut(length: usize) -> LoadCause {
    let needed = match length {
        0..=51 => 52,
        52..=147 => 148,
        148..=4115 => 4116,
        _ => 8196,
    };
    match length {
        0 => LoadCause::Empty,
        _ => LoadCause::Truncated(needed, length as u64),
    }
}

fn is_refused_at_each_cut(rt: &impl Abort, alloc: Global, file: &[u8]) -> Result<(), Memory> {
    for length in 0..file.len() {
        let found = cause(alloc, &file[..length])?;
        assert!(rt; found == Some(cause_of_cut(length)), "at {length}");
    }
    Ok(())
}

#[test]
fn every_cut_is_refused_by_the_place_that_is_missing(rt: HostRuntime) -> Result<(), Fail> {
    let file = linked(rt.alloc())?;
    is_refused_at_each_cut(&rt, rt.alloc(), file.as_slice())?;
    Ok(())
}

/// Fields of the file's header, in the order in which they are tried.
const FIELDS: &[Change] = &[
    (
        1,
        &[0x46],
        Some(LoadCause::WrongField(Field::Magic, 0x464c_467f)),
    ),
    (4, &[2, 2], Some(LoadCause::WrongField(Field::Class, 2))),
    (5, &[2, 2], Some(LoadCause::WrongField(Field::Order, 2))),
    (6, &[0], Some(LoadCause::WrongField(Field::IdentVersion, 0))),
    (
        16,
        &[3, 1],
        Some(LoadCause::WrongField(Field::FileKind, 259)),
    ),
    (18, &[62], Some(LoadCause::WrongField(Field::Machine, 62))),
    (
        23,
        &[1],
        Some(LoadCause::WrongField(Field::Version, 0x0100_0001)),
    ),
    (42, &[56], Some(LoadCause::WrongField(Field::PhEntSize, 56))),
    (36, &[1], Some(LoadCause::Compressed)),
    (36, &[4], None),
];

#[test]
fn fields_are_tried_in_order(rt: HostRuntime) -> Result<(), Memory> {
    each_has_its_cause(&rt, rt.alloc(), FIELDS)
}

const TABLES: &[Change] = &[
    (44, &[64], None),
    (44, &[65], Some(LoadCause::TooManySegments(65))),
    (44, &[0], Some(LoadCause::BadEntry(0x8000_0000))),
];

#[test]
fn a_table_has_at_most_64_headers(rt: HostRuntime) -> Result<(), Memory> {
    each_has_its_cause(&rt, rt.alloc(), TABLES)
}

const MOST: &[u8] = &[0xff, 0xff, 0xff, 0xff];

/// The greatest number in each field of the file's header and of the three that follow, alone; in several fields of one; and in the
/// table's place where it has 64 headers.
const GREATEST: &[Change] = &[
    (0, MOST, Some(LoadCause::BadHexLine(1))),
    (4, &[255], Some(LoadCause::WrongField(Field::Class, 255))),
    (5, &[255], Some(LoadCause::WrongField(Field::Order, 255))),
    (
        6,
        &[255],
        Some(LoadCause::WrongField(Field::IdentVersion, 255)),
    ),
    (7, &[255; 9], None),
    (
        16,
        &[255; 2],
        Some(LoadCause::WrongField(Field::FileKind, 65_535)),
    ),
    (
        18,
        &[255; 2],
        Some(LoadCause::WrongField(Field::Machine, 65_535)),
    ),
    (
        20,
        MOST,
        Some(LoadCause::WrongField(Field::Version, 0xffff_ffff)),
    ),
    (24, MOST, Some(LoadCause::BadEntry(0xffff_ffff))),
    (28, MOST, Some(LoadCause::Truncated(4_294_967_391, 8196))),
    (32, MOST, None),
    (36, MOST, Some(LoadCause::Compressed)),
    (40, &[255; 2], None),
    (
        42,
        &[255; 2],
        Some(LoadCause::WrongField(Field::PhEntSize, 65_535)),
    ),
    (44, &[255; 2], Some(LoadCause::TooManySegments(65_535))),
    (46, &[255; 2], None),
    (48, &[255; 2], None),
    (50, &[255; 2], None),
    (52, MOST, None),
    (56, &[255; 28], None),
    (84, MOST, Some(LoadCause::BadEntry(0x8000_0000))),
    (88, MOST, Some(LoadCause::Truncated(4_294_967_315, 8196))),
    (
        88,
        &[255; 28],
        Some(LoadCause::Truncated(8_589_934_590, 8196)),
    ),
    (92, MOST, Some(LoadCause::Outside(1))),
    (96, MOST, None),
    (100, MOST, Some(LoadCause::FileLargerThanMemory(1))),
    (104, MOST, Some(LoadCause::Outside(1))),
    (108, MOST, Some(LoadCause::WritableCode(1))),
    (112, MOST, None),
    (116, MOST, None),
    (120, MOST, Some(LoadCause::Truncated(4_294_967_299, 8196))),
    (124, MOST, Some(LoadCause::Outside(2))),
    (128, MOST, None),
    (132, MOST, Some(LoadCause::FileLargerThanMemory(2))),
    (136, MOST, Some(LoadCause::Outside(2))),
    (140, MOST, Some(LoadCause::WritableCode(2))),
    (144, MOST, None),
    (
        28,
        &[
            255, 255, 255, 255, 0, 0, 0, 0, 0, 0, 0, 0, 52, 0, 32, 0, 64, 0,
        ],
        Some(LoadCause::Truncated(4_294_969_343, 8196)),
    ),
];

#[test]
fn greatest_numbers_do_not_wrap(rt: HostRuntime) -> Result<(), Memory> {
    each_has_its_cause(&rt, rt.alloc(), GREATEST)
}

/// Flags of the code, then the data's address in memory, its sizes and its flags: at the end of memory and past it, below memory, at
/// the last byte of the code and after it, and empty.
const SEGMENTS: &[Change] = &[
    (108, &[7], Some(LoadCause::WritableCode(1))),
    (124, &[0xf8, 0xff, 0x3f, 0x80, 0, 0, 0, 0, 4, 0, 0, 0], None),
    (
        124,
        &[0xf8, 0xff, 0x3f, 0x80, 0, 0, 0, 0, 4, 0, 0, 0, 9],
        Some(LoadCause::Outside(2)),
    ),
    (124, &[0xfc, 0xff, 0xff, 0x7f], Some(LoadCause::Outside(2))),
    (124, &[0x13, 0], Some(LoadCause::Overlap(1, 2))),
    (124, &[0x14, 0], None),
    (124, &[0x13, 0, 0, 0x80, 0, 0, 0, 0, 4, 0, 0, 0, 0], None),
];

#[test]
fn segments_lie_in_memory_apart_and_are_not_both_written_and_executed(
    rt: HostRuntime,
) -> Result<(), Memory> {
    each_has_its_cause(&rt, rt.alloc(), SEGMENTS)
}

const ENTRIES: &[Change] = &[
    (24, &[0x10], None),
    (24, &[0x14], Some(LoadCause::BadEntry(0x8000_0014))),
    (24, &[2], Some(LoadCause::BadEntry(0x8000_0002))),
    (25, &[0x10], Some(LoadCause::BadEntry(0x8000_1000))),
];

#[test]
fn the_entry_is_a_word_of_code(rt: HostRuntime) -> Result<(), Memory> {
    each_has_its_cause(&rt, rt.alloc(), ENTRIES)
}

#[test]
fn a_text_is_lines_of_words(rt: HostRuntime) -> Result<(), Fail> {
    let text = b"# a comment\r\n\r\n04100513\nFFF2b313\r\n\n00000073";
    let image = load(rt.alloc(), text)?;
    same(&rt, "entry", &image.entry(), &0x8000_0000);
    same(&rt, "segments", &image.segments().len(), &1);
    let words = [
        (0x8000_0000, Some(0x0410_0513)),
        (0x8000_0004, Some(0xfff2_b313)),
        (0x8000_0008, Some(0x0000_0073)),
        (0x8000_000c, None),
    ];
    has_words(&rt, &image, &words);
    is_writable(&rt, &image, &[(0x8000_0000, false)]);
    Ok(())
}

/// Texts, and why each is refused.
const TEXTS: &[(&[u8], LoadCause)] = &[
    (b"0410051", LoadCause::BadHexLine(1)),
    (b"00000073\n\n000000073\n", LoadCause::BadHexLine(3)),
    (b"0000007g\n", LoadCause::BadHexLine(1)),
    (b"00000073\r", LoadCause::BadHexLine(1)),
    (b"00000073\n\r", LoadCause::BadHexLine(2)),
    (b" #\n", LoadCause::BadHexLine(1)),
    (b"# none\n\n#\r", LoadCause::BadEntry(0x8000_0000)),
    (b"", LoadCause::Empty),
];

#[test]
fn lines_that_are_no_words_are_named(rt: HostRuntime) -> Result<(), Memory> {
    for (text, wanted) in TEXTS {
        let found = cause(rt.alloc(), text)?;
        same(&rt, "a text", &found, &Some(*wanted));
    }
    Ok(())
}

/// Why a text of so many words is refused, and then one with a further word and a last line that is none.
fn causes_of_words(
    alloc: Global,
    count: usize,
) -> Result<(Option<LoadCause>, Option<LoadCause>), Memory> {
    let mut text = Vec::new(alloc);
    for _ in 0..count {
        text.extend_from_slice(b"00000013\n")?;
    }
    let most = cause(alloc, text.as_slice())?;
    text.extend_from_slice(b"00000013\nx\n")?;
    let more = cause(alloc, text.as_slice())?;
    Ok((most, more))
}

#[test]
fn a_text_has_at_most_the_words_of_memory(rt: HostRuntime) -> Result<(), Fail> {
    let (most, more) = causes_of_words(rt.alloc(), 1_048_576)?;
    same(&rt, "as many words", &most, &None);
    same(&rt, "one more", &more, &Some(LoadCause::TooManyWords));
    Ok(())
}

/// The file of an image that has at most 64 segments.
fn written(alloc: Global, image: &Image) -> Result<Vec<u8>, Memory> {
    if image.segments().len() > 64 {
        return Ok(Vec::new(alloc));
    }
    write_elf(alloc, image)
}

/// Whether two images are the same from a little below memory to a little above the linker's data.
fn are_same(first: &Image, second: &Image) -> bool {
    for address in 0x7fff_fff0..0x8000_2000 {
        if first.byte(address) != second.byte(address)
            || first.fetch(address) != second.fetch(address)
            || first.writable(address, Width::Byte) != second.writable(address, Width::Byte)
        {
            return false;
        }
    }
    first.entry() == second.entry()
}

/// Whether an image's file is read as the same program.
fn is_read_again(alloc: Global, image: &Image) -> Result<bool, Fail> {
    let copy = written(alloc, image)?;
    let read = load(alloc, copy.as_slice())?;
    Ok(are_same(&read, image))
}

#[test]
fn a_written_file_is_read_as_the_same_program(rt: HostRuntime) -> Result<(), Fail> {
    let file = linked(rt.alloc())?;
    let image = load(rt.alloc(), file.as_slice())?;
    same(
        &rt,
        "read again",
        &is_read_again(rt.alloc(), &image)?,
        &true,
    );
    Ok(())
}

/// The file of the program 00000073.
const WRITTEN: [u8; 88] = [
    0x7f, 0x45, 0x4c, 0x46, 1, 1, 1, 0, 0, 0, 0, 0, 0, 0, 0, 0, 2, 0, 0xf3, 0, 1, 0, 0, 0, //
    0, 0, 0, 0x80, 52, 0, 0, 0, 0, 0, 0, 0, 0, 0, 0, 0, 52, 0, 32, 0, 1, 0, 0, 0, 0, 0, 0, 0, //
    1, 0, 0, 0, 84, 0, 0, 0, 0, 0, 0, 0x80, 0, 0, 0, 0x80, 4, 0, 0, 0, 4, 0, 0, 0, 5, 0, 0, 0, //
    1, 0, 0, 0, 0x73, 0, 0, 0,
];

#[test]
fn a_written_file_has_the_headers_of_the_format(rt: HostRuntime) -> Result<(), Fail> {
    let image = load(rt.alloc(), b"00000073")?;
    let file = written(rt.alloc(), &image)?;
    assert!(rt; file.as_slice() == WRITTEN.as_slice());
    Ok(())
}
