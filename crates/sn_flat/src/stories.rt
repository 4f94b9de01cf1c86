//! Short programs on the flat machine, one record at a time.

#[cfg(test)]
mod tests {
    use crate::{Flat, NotLegal};
    use rv_core::{End, Record};
    use sn_base::{Image, Memory, NodeId, Segment};
    use std::alloc::Global;
    use std::test::Fail;

    /// A program of at most 16 words, which may be executed and not written.
    fn program(alloc: Global, words: &[u32]) -> Result<Image, Memory> {
        let mut bytes = Vec::new(alloc);
        for word in words {
            bytes.extend_from_slice(&word.to_le_bytes())?;
        }
        bytes.truncate(64);
        let mut segments = Vec::new(alloc);
        segments.push(Segment {
            start: 0x8000_0000,
            size: 64,
            bytes,
            write: false,
            exec: true,
        })?;
        Ok(Image::new(segments, 0x8000_0000))
    }

    fn plain(core: NodeId) -> Record {
        Record {
            core,
            seen: 0,
            sc_done: false,
            read: None,
        }
    }

    fn seeing(core: NodeId, seen: u32) -> Record {
        Record {
            core,
            seen,
            sc_done: false,
            read: None,
        }
    }

    #[test]
    fn a_byte_is_read_put_out_and_the_core_ends(rt: HostRuntime) -> Result<(), Fail> {
        let image = program(
            rt.alloc(),
            &[
                0x0020_0893,
                0x0000_0073,
                0x0010_0893,
                0x0000_0073,
                0x05d0_0893,
                0x0000_0073,
            ],
        )?;
        let zero = NodeId::new(0).ok_or("node")?;
        let byte = Record {
            core: zero,
            seen: 0,
            sc_done: false,
            read: Some(0x41),
        };
        let mut flat = Flat::start(rt.alloc(), &image, 1)?;
        assert_eq!(rt; flat.step(&image, &byte), Err(NotLegal));
        assert_eq!(rt; flat.step(&image, &plain(zero)), Ok(None));
        assert_eq!(rt; flat.step(&image, &plain(zero)), Err(NotLegal));
        assert_eq!(rt; flat.step(&image, &byte), Ok(None));
        assert_eq!(rt; flat.step(&image, &plain(zero)), Ok(None));
        assert_eq!(rt; flat.step(&image, &plain(zero)), Ok(Some(0x41)));
        assert_eq!(rt; flat.step(&image, &plain(zero)), Ok(None));
        assert_eq!(rt; flat.step(&image, &plain(zero)), Ok(None));
        assert_eq!(rt; flat.step(&image, &plain(zero)), Err(NotLegal));
        assert!(rt; flat.core(zero).end == End::Exited(0x41));
        Ok(())
    }

    #[test]
    fn an_atomic_maximum_without_sign(rt: HostRuntime) -> Result<(), Fail> {
        let image = program(
            rt.alloc(),
            &[
                0x8000_12b7,
                0xfff0_0313,
                0x0010_0393,
                0x0072_a023,
                0xe062_a3af,
            ],
        )?;
        let zero = NodeId::new(0).ok_or("node")?;
        let mut flat = Flat::start(rt.alloc(), &image, 1)?;
        for _ in 0..4 {
            assert_eq!(rt; flat.step(&image, &plain(zero)), Ok(None));
        }
        assert_eq!(rt; flat.word(0x8000_1000), 1);
        assert_eq!(rt; flat.step(&image, &seeing(zero, 0)), Err(NotLegal));
        assert_eq!(rt; flat.step(&image, &seeing(zero, 1)), Ok(None));
        assert_eq!(rt; flat.word(0x8000_1000), 0xffff_ffff);
        Ok(())
    }

    #[test]
    fn a_store_of_another_core_breaks_a_reservation(rt: HostRuntime) -> Result<(), Fail> {
        let image = program(
            rt.alloc(),
            &[
                0x8000_12b7,
                0x0005_1863,
                0x1002_a32f,
                0x1862_a3af,
                0x0000_006f,
                0x00a2_a023,
                0x0000_006f,
            ],
        )?;
        let (zero, one) = (NodeId::new(0).ok_or("node")?, NodeId::new(1).ok_or("node")?);
        let done = Record {
            core: zero,
            seen: 0,
            sc_done: true,
            read: None,
        };
        let mut flat = Flat::start(rt.alloc(), &image, 2)?;
        for core in [zero, zero, zero, one, one, one] {
            assert_eq!(rt; flat.step(&image, &plain(core)), Ok(None));
        }
        assert_eq!(rt; flat.word(0x8000_1000), 1);
        assert_eq!(rt; flat.step(&image, &done), Err(NotLegal));
        assert_eq!(rt; flat.step(&image, &plain(zero)), Ok(None));
        assert_eq!(rt; flat.word(0x8000_1000), 1);
        let two = NodeId::new(2).ok_or("node")?;
        assert_eq!(rt; flat.step(&image, &plain(two)), Err(NotLegal));
        let mut alone = Flat::start(rt.alloc(), &image, 1)?;
        for _ in 0..3 {
            assert_eq!(rt; alone.step(&image, &plain(zero)), Ok(None));
        }
        assert_eq!(rt; alone.step(&image, &done), Ok(None));
        assert_eq!(rt; alone.word(0x8000_1000), 0);
        Ok(())
    }
}
