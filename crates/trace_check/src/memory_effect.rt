//! What an instruction of a trace does in memory.
ghost use Rattle.std.specs.Prelude.{◌≡◌, IfSome};
ghost use Rattle.rv_core.specs.Wanted.{wanted_address};
ghost use Rattle.trace_check.specs.EffectData.{want_by};

use crate::kind::Kind;
use rv_core::Want;
use sn_base::{Width, Write};
use std::marker::Model;

/// What a record's instruction wants of memory, and what it writes there. Contracts see the two.
///
/// A trace has as many of them as records, and they are read again and again: so each is kept in 12 bytes, with one address
/// for both.
#[derive(Drop)]
pub struct MemoryEffect {
    address: u32,
    value: u32,
    kind: Kind,
    width: Option<Width>,
}

impl Model for MemoryEffect {
    ghost use Rattle.trace_check.specs.EffectData.{EffectData, want_by, write_by};

    ghost Value = { EffectData };

    ghost view = { λ d. record { want = want_by d.kind d.address; write = write_by d.width d.address d.value } };
}

impl MemoryEffect {
    pub fn new(want: Want, write: Option<Write>) -> MemoryEffect
        requires { IfSome write (λ w. w.address ≡ wanted_address want) }
        ensures { result ≡ record { want = want; write = write } }
    {
        let address = address_of(want);
        let kind = kind_of(want);
        match write {
            None => MemoryEffect {
                address,
                value: 0,
                kind,
                width: None,
            },
            Some(write) => MemoryEffect {
                address,
                value: write.value,
                kind,
                width: Some(write.width),
            },
        }
    }

    pub fn want(&self) -> Want
        ensures { result ≡ self.now.want }
    {
        match self.kind {
            Kind::Nothing => Want::Nothing,
            Kind::Load => Want::Load(self.address),
            Kind::Store => Want::Store(self.address),
            Kind::Amo => Want::Amo(self.address),
            Kind::Lr => Want::Lr(self.address),
            Kind::Sc => Want::Sc(self.address),
            Kind::Input => Want::Input,
        }
    }

    pub fn write(&self) -> Option<Write>
        ensures { result ≡ self.now.write }
    {
        let width = self.width?;
        Some(Write {
            address: self.address,
            width,
            value: self.value,
        })
    }
}

fn address_of(want: Want) -> u32
    ensures { result ≡ wanted_address want }
{
    match want {
        Want::Nothing | Want::Input => 0,
        Want::Load(address)
        | Want::Store(address)
        | Want::Amo(address)
        | Want::Lr(address)
        | Want::Sc(address) => address,
    }
}

fn kind_of(want: Want) -> Kind
    ensures { want_by result (wanted_address want) ≡ want }
{
    match want {
        Want::Nothing => Kind::Nothing,
        Want::Load(_) => Kind::Load,
        Want::Store(_) => Kind::Store,
        Want::Amo(_) => Kind::Amo,
        Want::Lr(_) => Kind::Lr,
        Want::Sc(_) => Kind::Sc,
        Want::Input => Kind::Input,
    }
}
