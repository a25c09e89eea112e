ghost use Rattle.std.specs.Prelude.{◌≡◌, IfOk, OnErr, OnOk};
ghost use Rattle.mesh_model.specs.Fragments.Assembly.{new_assembly, with_part};
ghost use Rattle.mesh_frag.specs.Kept.{is_young, told};

use crate::frag::Frag;
use crate::parts::Parts;
use mesh_base::{Millis, NoMemory};
use std::alloc::Global;
use std::marker::Model;

/// How long an assembly stays open, in milliseconds.
const ASSEMBLY_AGE: Millis = 10_000;

/// The parts that came of a packet that isn't whole.
#[derive(Debug, Drop)]
pub(crate) struct OpenAssembly {
    opened: Millis,
    parts: Parts,
}

impl Model for OpenAssembly {
    ghost use Rattle.mesh_model.specs.Fragments.Assembly.{Assembly};

    ghost Value = { Assembly };

    ghost view = { λ a. record { opened = a.opened; parts = a.parts } };
}

impl OpenAssembly {
    /// One that is opened at a moment, of which nothing came.
    pub(crate) fn new(alloc: Global, now: Millis) -> OpenAssembly
        ensures { result ≡ new_assembly now }
    {
        OpenAssembly {
            opened: now,
            parts: Parts::new(alloc),
        }
    }

    /// Whether it is open still.
    pub(crate) fn is_young(&self, now: Millis) -> bool
        ensures { result ≡ is_young now self.now }
    {
        now.saturating_sub(self.opened) < ASSEMBLY_AGE
    }

    /// Takes a part of a packet of this length, unless one of its place came before, and tells what
    /// there is then.
    pub(crate) fn take(&mut self, total: u16, place: u8, tail: &[u8]) -> Result<Frag, NoMemory>
        ensures ok { OnOk result (self.new ≡ with_part place tail.now self.old) }
        ensures answered { IfOk result (λ frag. frag ≡ told total self.new) }
        ensures err { OnErr result (self.new ≡ self.old) }
    {
        if self.parts.has(place) {
            return self.told(total);
        }
        self.parts.add(place, tail)?;
        let told = self.told(total);
        if told.is_err() {
            self.parts.drop_last();
        }
        told
    }

    // What there is of a packet of this length.
    fn told(&self, total: u16) -> Result<Frag, NoMemory>
        ensures { IfOk result (λ frag. frag ≡ told total self.now) }
    {
        match self.parts.whole(total)? {
            Some(bytes) => Ok(Frag::Whole(bytes)),
            None => Ok(Frag::Open {
                have: self.parts.len(),
            }),
        }
    }
}
