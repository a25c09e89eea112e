//! Frames of a few bytes, which take no memory.

ghost use Rattle.std.specs.Prelude.{◌≡◌, ◌≤◌, ◌+◌, ◌++◌, [], length};
ghost use Rattle.byteorder.specs.Endian.{big_bytes};
ghost use Rattle.mesh_model.specs.Packets.Ethernet.{tag_spelling};

use crate::address::ADDRESS;
use mesh_base::{Mac, Vid};
use std::marker::Model;

/// The type of an Ethernet frame that says that a VLAN's number follows (`ETH_P_8021Q`).
const VLAN_ETHERTYPE: u16 = 0x8100;
/// The most bytes of a frame before what follows its type: two addresses, a tag, and a type.
pub(crate) const LONGEST_HEAD: usize = 2 * ADDRESS + 4 + 2;
/// The most bytes that there is room for, those of ARP in a VLAN.
const LONGEST: usize = LONGEST_HEAD + 28;

/// An Ethernet frame of at most 46 bytes.
#[derive(Debug, Drop)]
pub struct FrameBytes {
    bytes: [u8; LONGEST],
    len: usize,
}

impl Model for FrameBytes {
    ghost use Rattle.std.specs.Prelude.{◌≤◌, ℕ, List, take};
    ghost use Rattle.mesh_messages.specs.declared.frame_bytes.TheConstants.{LONGEST};

    ghost Value = { List ℕ };

    ghost view = { λ frame. take frame.len frame.bytes };

    ghost invariant = { λ frame. frame.len ≤ LONGEST };
}

impl FrameBytes {
    // No bytes.
    fn new() -> FrameBytes
        ensures { result ≡ [] }
    {
        FrameBytes {
            bytes: [0; LONGEST],
            len: 0,
        }
    }

    /// The addresses, the tag and the type of a frame.
    pub(crate) fn head(ethertype: u16, dst: Mac, src: Mac, vid: Vid) -> FrameBytes
        ensures head { result ≡ dst.0 ++ src.0 ++ tag_spelling vid ++ big_bytes 2 ethertype }
        ensures len { length result ≤ LONGEST_HEAD }
    {
        let mut frame = FrameBytes::new();
        frame.put(&dst.0);
        frame.put(&src.0);
        if vid != Vid::UNTAGGED {
            frame.put(&VLAN_ETHERTYPE.to_be_bytes());
            frame.put(&vid.0.saturating_sub(Vid::TAGGED).to_be_bytes());
        }
        frame.put(&ethertype.to_be_bytes());
        frame
    }

    /// Puts bytes behind those that are there.
    pub(crate) fn put(&mut self, part: &[u8])
        requires { length self.old + length part.now ≤ LONGEST }
        ensures { self.new ≡ self.old ++ part.now }
    {
        let end = self.len + part.len();
        self.bytes[self.len..end].copy_from_slice(part);
        self.len = end;
    }

    /// The bytes, lent.
    pub fn as_slice(&self) -> &[u8]
        ensures { result.now ≡ self.now }
    {
        &self.bytes[..self.len]
    }
}
