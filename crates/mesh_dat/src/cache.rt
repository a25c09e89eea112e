//! What a node learned of pairs of an IP address and a VLAN.

ghost use Rattle.std.specs.Prelude.{◌≡◌, ◌↔◌, ◌≤◌, List, [], ◌∷◌, find, length, slice_get, IsNone, IsOk, IsSome, OnErr, OnOk};
ghost use Rattle.mesh_model.specs.Services.ArpTable.{Learned, is_pair, pair_address, pairs_at};
ghost use Rattle.mesh_dat.specs.Cache.{CacheStands};

use crate::kept::Kept;
use indexmap::IndexMap;
use mesh_base::{Mac, Millis, NoMemory, Vid};
use mesh_model::{ArpRow, Pair};
use std::alloc::Global;
use std::marker::Model;

/// The pairs that a node learned, each with what it learned last, in the order of the pairs.
#[derive(Debug, Drop)]
pub struct Cache {
    kept: IndexMap<Pair, Kept>,
}

impl Model for Cache {
    ghost use Rattle.std.specs.Prelude.{List};
    ghost use Rattle.mesh_model.specs.declared.service.Pair.{Pair};
    ghost use Rattle.mesh_dat.specs.declared.kept.Kept.{Kept};

    ghost Value = { List (Pair × Kept) };

    ghost view = { λ c. c.kept.entries };
}

impl Cache {
    /// Nothing was learned.
    pub fn new(alloc: Global) -> Cache
        ensures { CacheStands result [] }
    {
        Cache {
            kept: IndexMap::new(alloc),
        }
    }

    /// Notes the address of an IP address, as a number, in a VLAN.
    pub fn learn(&mut self, now: Millis, ip: u32, vid: Vid, mac: Mac) -> Result<(), NoMemory>
        ensures ok { (learned : List Learned) → CacheStands self.old learned →
            OnOk result (CacheStands self.new
            (record { moment = now; ip = ip; vid = vid; mac = mac } ∷ learned)) }
        ensures err { OnErr result (self.new ≡ self.old) }

        // No memory is wanted where the pair was learned before.
        ensures known { (learned : List Learned) → CacheStands self.old learned →
            IsSome (find (is_pair ip vid) learned) → IsOk result }
    {
        let kept = Kept { moment: now, mac };
        self.kept.insert_sorted(Pair { ip, vid }, kept)?;
        Ok(())
    }

    /// The address of an IP address in a VLAN, while it is known.
    pub fn lookup(&self, now: Millis, ip: u32, vid: Vid) -> Option<Mac>
        ensures { (learned : List Learned) → CacheStands self.now learned →
            result ≡ pair_address learned now ip vid }
    {
        let pair = Pair { ip, vid };
        let row = self.kept.get(&pair)?.row(now, pair)?;
        Some(row.mac)
    }

    /// The known pair at this place in the order of pairs, from 0.
    pub fn row_at(&self, now: Millis, i: usize) -> Option<ArpRow>
        ensures at_place { (learned : List Learned) → CacheStands self.now learned →
            result ≡ slice_get (pairs_at learned now) i }
        ensures past_end { (learned : List Learned) → CacheStands self.now learned →
            IsNone result ↔ (length (pairs_at learned now) ≤ i) }
    {
        self.kept
            .iter()
            .filter_map(|(pair, kept)| kept.row(now, *pair))
            .nth(i)
    }
}
