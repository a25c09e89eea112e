//! What originators offered last.

ghost use Rattle.std.specs.Prelude.{◌≡◌, List, [], ◌∷◌, OnErr, OnOk, option_map};
ghost use Rattle.mesh_model.specs.Knowledge.Served.{Offered, offer_of};
ghost use Rattle.mesh_serv.specs.OffersStand.{OffersStand, offered};

use indexmap::IndexMap;
use indexmap::map::Iter;
use mesh_base::{Mac, NoMemory};
use std::alloc::Global;
use std::marker::Model;

/// The throughputs of a gateway, each in units of 100 kbit/s.
#[derive(Clone, Copy, Debug, PartialEq, Eq)]
pub struct Bandwidth {
    pub download: u32,
    pub upload: u32,
}

/// What an originator offers.
#[derive(Clone, Copy, Debug, PartialEq, Eq)]
pub struct Offer {
    /// The throughputs of a gateway, where it is one.
    pub gateway: Option<Bandwidth>,
    /// Whether it takes part in the distributed ARP table.
    pub arp_table: bool,
    /// Its multicast flags, where it tells any.
    pub multicast: Option<u8>,
}

/// What originators offered last, in the order of their addresses.
#[derive(Debug, Drop)]
pub struct Offers {
    kept: IndexMap<Mac, Offer>,
}

impl Model for Offers {
    ghost use Rattle.std.specs.Prelude.{List};
    ghost use Rattle.mesh_base.specs.declared.address.Mac.{Mac};
    ghost use Rattle.mesh_serv.specs.declared.offers.Offer.{Offer};

    ghost Value = { List (Mac × Offer) };

    ghost view = { λ o. o.kept.entries };
}

impl Offers {
    /// Nothing was offered.
    pub fn new(alloc: Global) -> Offers
        ensures { OffersStand result [] }
    {
        Offers {
            kept: IndexMap::new(alloc),
        }
    }

    /// Notes what an originator offers. Nothing is written where it offered the same before.
    pub fn note(&mut self, orig: Mac, offer: Offer) -> Result<(), NoMemory>
        ensures ok { (offers : List Offered) → OffersStand self.old offers →
            OnOk result (OffersStand self.new
            (record { orig = orig; offer = offered offer } ∷ offers)) }
        ensures err { OnErr result (self.new ≡ self.old) }
    {
        if self.offer_of(orig) == Some(offer) {
            return Ok(());
        }
        self.kept.insert_sorted(orig, offer)?;
        Ok(())
    }

    /// What an originator offered last.
    pub fn offer_of(&self, orig: Mac) -> Option<Offer>
        ensures { (offers : List Offered) → OffersStand self.now offers →
            option_map offered result ≡ offer_of offers orig }
    {
        self.kept.get(&orig).copied()
    }

    /// The originators that offered something, in the order of their addresses, each with what it
    /// offered last.
    pub fn iter(&self) -> Iter<'_, Mac, Offer>
        ensures { result ≡ self.now }
    {
        self.kept.iter()
    }
}
