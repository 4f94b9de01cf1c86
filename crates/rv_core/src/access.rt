//! Which accesses a program may make.
ghost use Rattle.std.specs.Prelude.{◌≡◌};
ghost use Rattle.rv_core.specs.Access.{width_of, fault_of};

use crate::state::Cause;
use rv_decode::LoadOp;
use sn_base::{BlockNo, Image, Width};

pub(crate) fn width_of(op: LoadOp) -> Width
    ensures { result ≡ width_of op }
{
    match op {
        LoadOp::Lb | LoadOp::Lbu => Width::Byte,
        LoadOp::Lh | LoadOp::Lhu => Width::Half,
        LoadOp::Lw => Width::Word,
    }
}

/// Why an access traps, where it does.
pub(crate) fn fault(image: &Image, width: Width, writes: bool, address: u32) -> Option<Cause>
    ensures { result ≡ fault_of image.now width writes address }
{
    let size = match width {
        Width::Byte => 1,
        Width::Half => 2,
        Width::Word => 4,
    };
    if address % size != 0 {
        return Some(Cause::MisalignedAccess);
    }
    if BlockNo::of(address).is_none() || (writes && !image.writable(address, width)) {
        return Some(Cause::AccessFault);
    }
    None
}
