//! The primaries that announced themselves.

ghost use Rattle.std.specs.Prelude.{◌≡◌, List, [], ◌∷◌, OnErr, OnOk};
ghost use Rattle.mesh_model.specs.Knowledge.Served.{PrimaryCall};
ghost use Rattle.alfred_store.specs.PrimariesStand.{PrimariesStand};

use indexmap::IndexMap;
use indexmap::map::Iter;
use mesh_base::{Mac, Millis, NoMemory};
use std::alloc::Global;
use std::marker::Model;

/// The primaries that announced themselves, in the order of their addresses, each with the moment
/// at which it did so last.
#[derive(Debug, Drop)]
pub struct Primaries {
    kept: IndexMap<Mac, Millis>,
}

impl Model for Primaries {
    ghost use Rattle.std.specs.Prelude.{ℕ, List};
    ghost use Rattle.mesh_base.specs.declared.address.Mac.{Mac};

    ghost Value = { List (Mac × ℕ) };

    ghost view = { λ p. p.kept.entries };
}

impl Primaries {
    /// None announced itself.
    pub fn new(alloc: Global) -> Primaries
        ensures { PrimariesStand result [] }
    {
        Primaries {
            kept: IndexMap::new(alloc),
        }
    }

    /// Notes that a primary announced itself.
    pub fn note(&mut self, now: Millis, primary: Mac) -> Result<(), NoMemory>
        ensures ok { (calls : List PrimaryCall) → PrimariesStand self.old calls →
            OnOk result (PrimariesStand self.new
            (record { moment = now; primary = primary } ∷ calls)) }
        ensures err { OnErr result (self.new ≡ self.old) }
    {
        self.kept.insert_sorted(primary, now)?;
        Ok(())
    }

    /// The primaries in the order of their addresses, each with the moment at which it announced
    /// itself last.
    pub fn iter(&self) -> Iter<'_, Mac, Millis>
        ensures { result ≡ self.now }
    {
        self.kept.iter()
    }
}
