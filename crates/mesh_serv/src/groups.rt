//! Which groups multicast flags want, and how a frame goes to the receivers of a group.

ghost use Rattle.std.specs.Prelude.{◌≡◌, ◌<◌};
ghost use Rattle.mesh_model.specs.Services.Groups.{begins, fan_of, is_set, is_wanted};

use mesh_base::Mac;
use mesh_model::Fan;

/// The flag of a node that wants the groups that no switch leaves out: all hosts of IPv4's local
/// network (224.0.0.0/24) and all nodes of IPv6 (ff02::1).
const ALL_UNSNOOPABLES: u8 = 1;
/// The flag of one that wants all groups of IPv4.
const ALL_IPV4: u8 = 2;
/// The flag of one that wants all groups of IPv6.
const ALL_IPV6: u8 = 4;

/// How the groups of IPv4's local network begin.
const LOCAL_IPV4: [u8; 5] = [0x01, 0x00, 0x5e, 0x00, 0x00];
/// How the groups of IPv4 begin.
const IPV4: [u8; 3] = [0x01, 0x00, 0x5e];
/// All nodes of IPv6.
const ALL_NODES: [u8; 6] = [0x33, 0x33, 0x00, 0x00, 0x00, 0x01];
/// How the groups of IPv6 begin.
const IPV6: [u8; 2] = [0x33, 0x33];

/// The most receivers to which a frame goes one by one.
const MOST_EACH: usize = 16;

// Whether a flag is set.
fn is_set(value: u8, flags: u8) -> bool
    requires { 0 < value }
    ensures { result ≡ is_set value flags }
{
    flags / value % 2 == 1
}

// Whether an address begins with these bytes.
fn begins(front: &[u8], group: Mac) -> bool
    ensures { result ≡ begins front.now group }
{
    group.0.starts_with(front)
}

/// Whether a node with these multicast flags wants the frames of a group. Of the flags bits 0 to 2
/// count. It takes no memory.
pub fn wants(group: Mac, flags: u8) -> bool
    ensures { result ≡ is_wanted group flags }
{
    (is_set(ALL_UNSNOOPABLES, flags) && (begins(&LOCAL_IPV4, group) || begins(&ALL_NODES, group)))
        || (is_set(ALL_IPV4, flags) && begins(&IPV4, group))
        || (is_set(ALL_IPV6, flags) && begins(&IPV6, group))
}

/// How a frame to a group goes to so many receivers: to none, to each by address, or to all stations
/// where there are more than 16. It takes no memory.
pub fn plan(receivers: usize) -> Fan
    ensures { result ≡ fan_of receivers }
{
    match receivers {
        0 => Fan::Nobody,
        1..=MOST_EACH => Fan::Each,
        _ => Fan::Flood,
    }
}
