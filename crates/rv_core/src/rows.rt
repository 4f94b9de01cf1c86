//! Instructions whose results the manual, or common mistakes, make worth a look.
ghost use Rattle.std.specs.Prelude.{◌≡◌, true};
ghost use Rattle.rv_core.specs.Core.{is_running};

#[cfg(test)]
mod tests {
    use crate::{Cause, CoreState, End, Want};
    use sn_base::{Image, Memory, NodeId, Segment};
    use std::alloc::Global;
    use std::test::Fail;

    /// A program of at most 16 words, which may be executed and not written.
    fn program(alloc: Global, words: &[u32]) -> Result<Image, Memory> {
        let mut bytes = Vec::new(alloc);
        for word in words {
            bytes.extend_from_slice(&word.to_le_bytes())?;
        }
        bytes.truncate(64);
        let mut segments = Vec::new(alloc);
        segments.push(Segment {
            start: 0x8000_0000,
            size: 64,
            bytes,
            write: false,
            exec: true,
        })?;
        Ok(Image::new(segments, 0x8000_0000))
    }

    fn core() -> CoreState
        ensures { is_running result.end ≡ true }
    {
        CoreState {
            pc: 0x8000_0000,
            x: [0; 32],
            reservation: None,
            end: End::Running,
        }
    }

    #[test]
    fn a_core_starts_at_the_entry_with_its_number(rt: HostRuntime) -> Result<(), Fail> {
        let core = CoreState::start(NodeId::new(3).ok_or("node")?, 0x8000_0040);
        assert_eq!(rt; core.pc, 0x8000_0040);
        assert_eq!(rt; core.x[10], 3);
        assert!(rt; core.is_running() && core.reservation.is_none());
        Ok(())
    }

    #[test]
    fn jalr_clears_the_lowest_bit_and_links(rt: HostRuntime) -> Result<(), Fail> {
        let image = program(rt.alloc(), &[0x0000_82e7])?;
        let mut core = core();
        core.x[1] = 0x8000_0009;
        assert!(rt; core.want(&image) == Want::Nothing);
        core.finish(&image, 0, false, None);
        assert_eq!(rt; core.pc, 0x8000_0008);
        assert_eq!(rt; core.x[5], 0x8000_0004);
        Ok(())
    }

    #[test]
    fn a_jump_to_a_half_word_traps_and_changes_nothing_else(rt: HostRuntime) -> Result<(), Fail> {
        let image = program(rt.alloc(), &[0x0020_00ef])?;
        let mut core = core();
        assert!(rt; core.want(&image) == Want::Nothing);
        core.finish(&image, 0, false, None);
        assert!(rt; core.end == End::Trapped(Cause::MisalignedTarget));
        assert_eq!(rt; core.pc, 0x8000_0000);
        assert_eq!(rt; core.x[1], 0);
        Ok(())
    }

    #[test]
    fn an_instruction_is_decoded_once_for_both(rt: HostRuntime) -> Result<(), Fail> {
        let image = program(rt.alloc(), &[0x0002_a303])?;
        let mut core = core();
        core.x[5] = 0x8000_1000;
        let instruction = core.instruction(&image);
        assert!(rt; core.want_by(&image, instruction) == Want::Load(0x8000_1000));
        core.finish_by(&image, instruction, 7, false, None);
        assert_eq!(rt; (core.pc, core.x[6]), (0x8000_0004, 7));
        Ok(())
    }

    #[test]
    fn a_word_past_the_bytes_that_are_given_is_0(rt: HostRuntime) -> Result<(), Fail> {
        let image = program(rt.alloc(), &[0x0002_a303])?;
        let mut core = core();
        core.pc = 0x8000_0004;
        let instruction = core.instruction(&image);
        assert!(rt; instruction == Err(Cause::Illegal));
        core.pc = 0x8000_0040;
        assert!(rt; core.instruction(&image) == Err(Cause::FetchFault));
        Ok(())
    }

    #[test]
    fn a_shift_keeps_the_sign(rt: HostRuntime) -> Result<(), Fail> {
        let image = program(rt.alloc(), &[0x41f2_d313])?;
        let mut core = core();
        core.x[5] = 0x8000_0000;
        assert!(rt; core.want(&image) == Want::Nothing);
        core.finish(&image, 0, false, None);
        assert_eq!(rt; core.x[6], 0xffff_ffff);
        Ok(())
    }

    #[test]
    fn sltiu_extends_the_sign_and_compares_without(rt: HostRuntime) -> Result<(), Fail> {
        let image = program(rt.alloc(), &[0xfff2_b313])?;
        for (x5, x6) in [(0, 1), (0xffff_ffff, 0)] {
            let mut core = core();
            core.x[5] = x5;
            assert!(rt; core.want(&image) == Want::Nothing);
            core.finish(&image, 0, false, None);
            assert_eq!(rt; core.x[6], x6);
        }
        Ok(())
    }
}
