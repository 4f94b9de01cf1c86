//! The state of a core.
ghost use Rattle.std.specs.Prelude.{◌≡◌};
ghost use Rattle.rv_core.specs.Core.{start_of, is_running};

use sn_base::{BlockNo, NodeId};

/// Why a core trapped.
#[derive(Clone, Copy, PartialEq, Eq, Debug)]
pub enum Cause {
    /// The word is no instruction.
    Illegal,
    /// The four bytes at the program counter aren't all executable.
    FetchFault,
    /// A taken jump or branch goes to an address that isn't a multiple of 4.
    MisalignedTarget,
    /// The address of an access isn't a multiple of its width.
    MisalignedAccess,
    /// An access lies outside memory, or writes where nothing may be written.
    AccessFault,
    /// ECALL with a number in a7 that names no call.
    UnknownCall,
    /// EBREAK.
    Break,
}

/// Whether a core runs on.
#[derive(Clone, Copy, PartialEq, Eq, Debug)]
pub enum End {
    Running,
    /// It ended with this code.
    Exited(u32),
    Trapped(Cause),
}

/// A core: its program counter, its registers x0 to x31, the block that it has reserved by LR, and its end. Register
/// x0 reads 0 whatever stands in it.
#[derive(Clone, Copy, PartialEq, Eq, Debug)]
pub struct CoreState {
    pub pc: u32,
    pub x: [u32; 32],
    pub reservation: Option<BlockNo>,
    pub end: End,
}

impl CoreState {
    /// A core at the program's entry, with its number in a0 (x10) and 0 in every other register.
    pub fn start(core: NodeId, entry: u32) -> CoreState
        ensures { result ≡ start_of core entry }
    {
        let mut x = [0; 32];
        x[10] = u32::from(core.number());
        CoreState {
            pc: entry,
            x,
            reservation: None,
            end: End::Running,
        }
    }

    /// Whether the core runs on.
    pub fn is_running(&self) -> bool
        ensures { result ≡ is_running self.now.end }
    {
        match self.end {
            End::Running => true,
            End::Exited(_) | End::Trapped(_) => false,
        }
    }
}
