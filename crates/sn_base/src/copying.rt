//! A program once more, for a machine of its own.
ghost use Rattle.std.specs.Prelude.{◌≡◌, IfOk};

use crate::image::{Image, Segment};
use crate::memory::Memory;
use std::alloc::Global;

fn copy_segment(alloc: Global, segment: &Segment) -> Result<Segment, Memory>
    ensures { IfOk result (λ s. s ≡ segment.now) }
{
    let mut bytes = Vec::new(alloc);
    bytes.extend_from_slice(segment.bytes.as_slice())?;
    Ok(Segment {
        start: segment.start,
        size: segment.size,
        bytes,
        write: segment.write,
        exec: segment.exec,
    })
}

fn copy_segments(alloc: Global, segments: &[Segment]) -> Result<Vec<Segment>, Memory>
    ensures { IfOk result (λ copies. copies.items ≡ segments.now) }
{
    let mut copies = Vec::new(alloc);
    'segments: for segment in segments {
        copies.push(copy_segment(alloc, segment)?)?;
    }
    Ok(copies)
}

/// The same program, in memory of its own.
pub fn copy_of(alloc: Global, program: &Image) -> Result<Image, Memory>
    ensures { IfOk result (λ image. image ≡ program.now) }
{
    let segments = copy_segments(alloc, program.segments())?;
    Ok(Image::new(segments, program.entry()))
}
