ghost use Rattle.mesh_base.specs.declared.address.Mac.{Mac};
ghost use Rattle.mesh_model.specs.Knowledge.Served as served;
ghost use Rattle.mesh_model.specs.Knowledge.Served.{after_set, no_services};
ghost use Rattle.node_ground.specs.ServicesStand.{ServicesStand};
ghost use Rattle.node_ground.specs.SettingsSeen.{setting_seen};

use crate::asks::Asks;
use crate::settings::{Setting, Settings};
use alfred_store::Store;
use mesh_base::Mac;
use mesh_dat::Cache;
use mesh_serv::Offers;
use std::alloc::Global;

/// What a node keeps for services: its settings, what originators offered last, the gateway that it
/// chose, if any, of the ARP table the pairs that it learned and those that it asked for, and what
/// it keeps of the fact store.
#[derive(Debug, Drop)]
pub struct Services {
    pub settings: Settings,
    pub offers: Offers,
    pub choice: Option<Mac>,
    pub cache: Cache,
    pub asks: Asks,
    pub store: Store,
}

impl Services {
    /// Before anything was set, offered, chosen, learned or put, at the node of this address.
    pub fn new(alloc: Global, me: Mac) -> Services
        ensures { ServicesStand result me no_services }
    {
        Services {
            settings: Settings::new(),
            offers: Offers::new(alloc),
            choice: None,
            cache: Cache::new(alloc),
            asks: Asks::new(alloc),
            store: Store::new(alloc, me),
        }
    }

    /// All is forgotten at the node of an address but its settings.
    pub fn restart(&mut self, alloc: Global, me: Mac)
        ensures { (known : served.Services) → ServicesStand self.old me known →
            ServicesStand self.new me (record no_services { settings = known.settings }) }
    {
        let settings = self.settings;
        *self = Services::new(alloc, me);
        self.settings = settings;
    }

    /// Sets one of the settings. A part as a gateway that is set gives up the choice.
    pub fn set(&mut self, setting: Setting)
        ensures { (me : Mac) (known : served.Services) → ServicesStand self.old me known →
            ServicesStand self.new me (after_set (setting_seen setting) known) }
    {
        self.settings.set(setting);
        if let Setting::Gateway(_) = setting {
            self.choice = None;
        }
    }
}
