//! The settings of a node.

ghost use Rattle.std.specs.Prelude.{◌≡◌};
ghost use Rattle.mesh_model.specs.Clients.Settings.{first_settings};
ghost use Rattle.mesh_model.specs.Clients.Settings as model;
ghost use Rattle.node_ground.specs.SettingsSeen.{setting_seen, settings_seen};

use mesh_model::{AlfredMode, Policy};
use mesh_serv::Bandwidth;

/// A node's part as a gateway.
#[derive(Clone, Copy, Debug, PartialEq, Eq)]
pub enum GatewayPart {
    /// It has none.
    NoPart,
    /// It offers these throughputs.
    Serves(Bandwidth),
    /// Its clients choose a gateway by this policy.
    Chooses(Policy),
}

/// One setting of a node.
#[derive(Clone, Copy, Debug, PartialEq, Eq)]
pub enum Setting {
    /// Whether the clients that are sighted from now on are on a wireless device.
    Wifi(bool),
    Gateway(GatewayPart),
    /// The multicast flags.
    Multicast(u8),
    /// Whether the node takes part in the distributed ARP table.
    ArpTable(bool),
    /// The part in the fact store.
    FactStore(AlfredMode),
    /// Whether the node puts its picture in the fact store.
    Pictures(bool),
    /// The greatest length of a packet for one node that goes whole, 0 where all do.
    LongestWhole(u16),
}

/// The settings of a node.
#[derive(Clone, Copy, Debug, PartialEq, Eq)]
pub struct Settings {
    /// Whether the clients that are sighted are on a wireless device.
    pub wifi: bool,
    pub gateway: GatewayPart,
    /// Its multicast flags, none where they are 0.
    pub multicast: u8,
    /// Whether it takes part in the distributed ARP table.
    pub arp_table: bool,
    /// Its part in the fact store.
    pub fact_store: AlfredMode,
    /// Whether it puts its picture in the fact store.
    pub pictures: bool,
    /// The greatest length of a packet for one node that goes whole, 0 where all do.
    pub longest_whole: u16,
}

impl Settings {
    /// Before anything is set.
    pub fn new() -> Settings
        ensures { settings_seen result ≡ first_settings }
    {
        Settings {
            wifi: false,
            gateway: GatewayPart::NoPart,
            multicast: 0,
            arp_table: true,
            fact_store: AlfredMode::Off,
            pictures: false,
            longest_whole: 0,
        }
    }

    /// Sets one of them.
    pub fn set(&mut self, setting: Setting)
        ensures { settings_seen self.new
            ≡ model.set_to (setting_seen setting) (settings_seen self.old) }
    {
        match setting {
            Setting::Wifi(on) => self.wifi = on,
            Setting::Gateway(part) => self.gateway = part,
            Setting::Multicast(flags) => self.multicast = flags,
            Setting::ArpTable(on) => self.arp_table = on,
            Setting::FactStore(mode) => self.fact_store = mode,
            Setting::Pictures(on) => self.pictures = on,
            Setting::LongestWhole(size) => self.longest_whole = size,
        }
    }
}
