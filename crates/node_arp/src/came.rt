//! What packets of the distributed ARP table bring.

ghost use Rattle.std.specs.Prelude.{◌≡◌, option_map};
ghost use Rattle.mesh_messages.specs.Arp.{seen_arp};
ghost use Rattle.mesh_model.specs.Packets.ArpMessages.{arp_came, came_under};
ghost use Rattle.node_arp.specs.Came.{seen_came};

use mesh_messages::{ARP_REPLY, ARP_REQUEST, ArpMessage, read_arp};

/// The subtype of a question for a pair (`BATADV_P_DAT_DHT_GET`).
pub(crate) const DHT_GET: u8 = 2;
/// The subtype of a pair that is to be kept (`BATADV_P_DAT_DHT_PUT`).
pub(crate) const DHT_PUT: u8 = 3;
/// The subtype of an answer (`BATADV_P_DAT_CACHE_REPLY`).
pub(crate) const CACHE_REPLY: u8 = 4;

/// What a packet of the table brings.
#[derive(Clone, Copy, Debug)]
pub(crate) enum ArpCame {
    /// A pair to keep.
    Puts(ArpMessage),
    /// A question for a pair.
    Asks(ArpMessage),
    /// An answer.
    Tells(ArpMessage),
}

// What a message under a subtype brings, where its operation fits.
fn came_under(subtype: u8, message: ArpMessage) -> Option<ArpCame>
    ensures { option_map seen_came result ≡ came_under subtype (seen_arp message) }
{
    if subtype == DHT_PUT && message.operation == ARP_REPLY {
        Some(ArpCame::Puts(message))
    } else if subtype == DHT_GET && message.operation == ARP_REQUEST {
        Some(ArpCame::Asks(message))
    } else if subtype == CACHE_REPLY && message.operation == ARP_REPLY {
        Some(ArpCame::Tells(message))
    } else {
        None
    }
}

/// What a packet with a subtype and these bytes brings, where it is one of the table.
pub(crate) fn read_came(subtype: u8, bytes: &[u8]) -> Option<ArpCame>
    ensures { option_map seen_came result ≡ arp_came subtype bytes.now }
{
    came_under(subtype, read_arp(bytes)?)
}
