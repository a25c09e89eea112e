ghost use Rattle.std.specs.Prelude.{◌≡◌, List, [], ◌∷◌, OnErr, OnOk};
ghost use Rattle.mesh_model.specs.Services.ArpTable.{AskedFor, PairCall, ToldOf, is_awaited};
ghost use Rattle.node_ground.specs.AsksStand.{AsksStand};

use indexmap::IndexSet;
use mesh_base::NoMemory;
use mesh_model::service::Pair;
use std::alloc::Global;
use std::marker::Model;

/// The pairs of the distributed ARP table for which other nodes were asked, until one of them is
/// told. One is found in one step.
#[derive(Debug, Drop)]
pub struct Asks {
    awaited: IndexSet<Pair>,
}

impl Model for Asks {
    ghost use Rattle.std.specs.Prelude.{List};
    ghost use Rattle.mesh_model.specs.declared.service.Pair.{Pair};

    ghost Value = { List Pair };

    ghost view = { λ a. a.awaited.keys };
}

impl Asks {
    /// None was asked for.
    pub fn new(alloc: Global) -> Asks
        ensures { AsksStand result [] }
    {
        Asks {
            awaited: IndexSet::new(alloc),
        }
    }

    /// Notes that other nodes are asked for a pair.
    pub fn ask(&mut self, pair: Pair) -> Result<(), NoMemory>
        ensures ok { (calls : List PairCall) → AsksStand self.old calls →
            OnOk result (AsksStand self.new (AskedFor pair.ip pair.vid ∷ calls)) }
        ensures err { OnErr result (self.new ≡ self.old) }
    {
        self.awaited.insert(pair)?;
        Ok(())
    }

    /// Notes that a pair was told, and answers whether it was awaited.
    pub fn close(&mut self, pair: Pair) -> bool
        ensures awaited { (calls : List PairCall) → AsksStand self.old calls →
            result ≡ is_awaited calls pair.ip pair.vid }
        ensures told { (calls : List PairCall) → AsksStand self.old calls →
            AsksStand self.new (ToldOf pair.ip pair.vid ∷ calls) }
    {
        self.awaited.swap_remove(&pair)
    }
}
