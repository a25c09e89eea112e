//! The LAN of a gateway, and who holds its clients.

ghost use Rattle.std.specs.Prelude.{◌≡◌, OnErr, OnOk};
ghost use Rattle.mesh_base.specs.declared.address.Mac.{Mac};
ghost use Rattle.mesh_model.specs.Acts.BridgeRows.{is_beside, spread_of_broadcast, spread_of_packet};
ghost use Rattle.mesh_model.specs.Clients.Lans as lans;
ghost use Rattle.mesh_model.specs.Clients.Log.{Attach};
ghost use Rattle.mesh_codec.specs.Payloads.{seen_frame};
ghost use Rattle.node_lans.specs.BridgeStands.{BridgeStands};

use mesh_base::{Mac, NoMemory};
use mesh_bla::{Claims, Spread};
use mesh_codec::ClientFrame;
use std::alloc::Global;

/// The LAN of a gateway: its number, from 1, and the addresses of its gateways.
#[derive(Debug, Drop)]
pub struct LanOf {
    pub number: u16,
    pub gateways: Vec<Mac>,
}

/// A node's LAN, where it is a gateway, and who holds clients there.
#[derive(Debug, Drop)]
pub struct Bridge {
    pub lan: Option<LanOf>,
    pub claims: Claims,
}

impl Bridge {
    /// The node of an address, which is no gateway.
    pub fn new(alloc: Global, me: Mac) -> Bridge
        ensures { BridgeStands result me lans.no_bridge }
    {
        Bridge {
            lan: None,
            claims: Claims::new(alloc, me),
        }
    }

    /// The node becomes a gateway of the LAN of a number, which has these gateways.
    pub fn attach(&mut self, alloc: Global, number: u16, gateways: &[Mac]) -> Result<(), NoMemory>
        ensures attached { (me : Mac) (bridge : lans.Bridge) → BridgeStands self.old me bridge →
            OnOk result (BridgeStands self.new me
            (lans.after_line (Attach number gateways.now) bridge)) }
        ensures err { OnErr result (self.new ≡ self.old) }
    {
        let gateways = Vec::from_slice(alloc, gateways)?;
        self.lan = Some(LanOf { number, gateways });
        Ok(())
    }

    /// Whether the node of an address is a gateway of the LAN too.
    pub fn is_beside(&self, mac: Mac) -> bool
        ensures { (me : Mac) (bridge : lans.Bridge) → BridgeStands self.now me bridge →
            result ≡ is_beside bridge.lan mac }
    {
        match &self.lan {
            Some(lan) => lan.gateways.as_slice().contains(&mac),
            None => false,
        }
    }

    /// How far a frame goes that came by a broadcast of an originator.
    pub fn spread_of_broadcast(&self, orig: Mac, frame: &ClientFrame<'_>) -> Spread
        ensures { (me : Mac) (bridge : lans.Bridge) → BridgeStands self.now me bridge →
            result ≡ spread_of_broadcast bridge orig (seen_frame frame.now) }
    {
        if !frame.dst.is_group() {
            return Spread::Unicast;
        }
        if self.is_beside(orig) {
            Spread::SameLan
        } else {
            Spread::Flood
        }
    }
}

/// How far a frame goes that came by a packet for the node.
pub fn spread_of_packet(frame: &ClientFrame<'_>) -> Spread
    ensures { result ≡ spread_of_packet (seen_frame frame.now) }
{
    if frame.dst.is_group() {
        Spread::Flood
    } else {
        Spread::Unicast
    }
}
