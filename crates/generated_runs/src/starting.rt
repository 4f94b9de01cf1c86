//! The machine that a run begins on.
ghost use Rattle.std.specs.Prelude.{◌≡◌, ◌≤◌, ◌++◌, ◌*◌, IfOk, OnOk};
ghost use Rattle.std.specs.List.{flat_map};
ghost use Rattle.byteorder.specs.Endian.{little_bytes};
ghost use Rattle.counting_program.specs.Program.{counting_image};
ghost use Rattle.generated_runs.specs.Generated.{generated_config, IsFresh};
ghost use Rattle.sn_base.specs.declared.limits.TheConstants.{EVENTS};

use byteorder::{ByteOrder, LittleEndian};
use sn_base::{Config, Image, Memory, RAM_START, Segment};
use sn_machine::Machine;
use std::alloc::Global;

/// The words of the program.
const COUNTING: [u32; 8] = [
    0x8000_12b7,
    0x0010_0313,
    0x0062_a3af,
    0x03f3_f513,
    0x0305_0513,
    0x0010_0893,
    0x0000_0073,
    0xfedf_f06f,
];

/// Appends words, each in four bytes.
fn add_words(bytes: &mut Vec<u8>, words: &[u32]) -> Result<(), Memory>
    ensures { OnOk result (bytes.new.items ≡ bytes.old.items ++ flat_map (little_bytes 4) words.now) }
{
    'words: for word in words {
        let mut four = [0u8; 4];
        LittleEndian::write_u32(&mut four, *word);
        bytes.extend_from_slice(&four)?;
    }
    Ok(())
}

/// The program as an image.
fn counting_image(alloc: Global) -> Result<Image, Memory>
    ensures { IfOk result (λ image. image ≡ counting_image) }
{
    let mut bytes = Vec::new(alloc);
    add_words(&mut bytes, &COUNTING)?;
    let mut segments = Vec::new(alloc);
    segments.push(Segment {
        start: RAM_START,
        size: 32,
        bytes,
        write: false,
        exec: true,
    })?;
    Ok(Image::new(segments, RAM_START))
}

/// A fresh machine of the program, with room for so many events.
pub fn start(alloc: Global, size: u32) -> Result<Machine, Memory>
    requires { size ≤ EVENTS }
    ensures fresh { IfOk result (λ machine. IsFresh machine) }
    ensures room { IfOk result (λ machine. size ≤ machine.spare) }
{
    let image = counting_image(alloc)?;
    let config = Config {
        nodes: 4,
        sets: 16,
        ways: 4,
        log: 256,
    };
    let machine = Machine::with_room(alloc, image, config, size)?;
    Ok(machine)
}
