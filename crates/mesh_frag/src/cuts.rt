//! How a packet is cut.

ghost use Rattle.std.specs.Prelude.{◌≡◌, ◌*◌, ◌≤◌, length, slice_get, take, drop, option_map, IfOk, IfSome};
ghost use Rattle.mesh_model.specs.Fragments.Cutting.{CanBeMade, fragments, frag_head_size, reach_of, reach_of_head, tail_size};
ghost use Rattle.mesh_frag.specs.Frags.{HeadsFragment};

use mesh_base::{Bytes, Mac, NoMemory};
use mesh_codec::{Head, decode};
use std::alloc::Global;
use std::marker::Model;

/// The bytes of a fragment's header.
pub const HEAD_SIZE: usize = 20;

/// The fragments of a packet, in order of place.
#[derive(Debug, Drop)]
pub struct Cuts {
    /// The greatest length of a packet that goes whole, in bytes.
    most: usize,
    /// The number of the cut.
    number: u16,
    /// The node that cuts.
    me: Mac,
    /// How many hops the packet has left.
    ttl: u8,
    /// The node that it is for.
    dst: Mac,
    /// Its bytes.
    packet: Bytes,
}

impl Model for Cuts {
    ghost use Rattle.std.specs.Prelude.{ℕ, List, Some};
    ghost use Rattle.mesh_model.specs.declared.packet.Head.{Head};
    ghost use Rattle.mesh_model.specs.Fragments.Cutting.{CanBeMade, fragments_within};

    ghost Value = { List (Head × List ℕ) };

    ghost view = { λ c. fragments_within
        (record { most = c.most; number = c.number; me = c.me; packet = c.packet })
        (Some (record { ttl = c.ttl; dst = c.dst })) };

    ghost invariant = { λ c. CanBeMade
        (record { most = c.most; number = c.number; me = c.me; packet = c.packet }) };
}

impl Cuts {
    /// How many fragments there are.
    pub fn len(&self) -> usize
        ensures { result ≡ length self.now }
    {
        self.packet.len().div_ceil(tail_size(self.most))
    }

    /// The fragment at a place, from 0: its head, which can be written, and its tail. `None` past
    /// the last.
    pub fn at(&self, place: usize) -> Option<(Head, &[u8])>
        ensures at_place { option_map (λ fragment. (fragment.0, fragment.1.now)) result
            ≡ slice_get self.now place }
        ensures fits { IfSome result (λ fragment. HeadsFragment fragment.0) }
    {
        if place >= self.len() {
            return None;
        }
        let head = Head::Frag {
            ttl: self.ttl,
            number: place as u8,
            priority: 0,
            dst: self.dst,
            orig: self.me,
            seq: self.number,
            total: self.packet.len() as u16,
        };
        let tail = piece_at(self.packet.as_slice(), tail_size(self.most), place);
        Some((head, tail))
    }
}

// How many bytes the tail of a fragment has, unless it is the last.
fn tail_size(most: usize) -> usize
    requires { frag_head_size ≤ most }
    ensures { result ≡ tail_size most }
{
    most - HEAD_SIZE
}

// The piece at a place of bytes that are cut into pieces of this size.
fn piece_at(bytes: &[u8], size: usize, place: usize) -> &[u8]
    requires { place * size ≤ length bytes.now }
    ensures { result.now ≡ take size (drop (place * size) bytes.now) }
{
    let rest = &bytes[place * size..];
    &rest[..size.min(rest.len())]
}

/// How many hops the packet that bytes begin with has left, and where it goes, where it is for one
/// node.
pub fn reach_of(bytes: &[u8]) -> Option<(u8, Mac)>
    ensures { result ≡ option_map (λ reach. (reach.ttl, reach.dst)) (reach_of bytes.now) }
{
    match decode(bytes) {
        Ok((head, _, _)) => reach_of_head(head),
        Err(_) => None,
    }
}

/// How many hops a packet with this head has left, and where it goes, where it is for one node.
pub fn reach_of_head(head: Head) -> Option<(u8, Mac)>
    ensures { result ≡ option_map (λ reach. (reach.ttl, reach.dst)) (reach_of_head head) }
{
    match head {
        Head::Unicast { ttl, dst, .. } => Some((ttl, dst)),
        Head::IvOgm { .. }
        | Head::Bcast { .. }
        | Head::Elp { .. }
        | Head::Ogm2 { .. }
        | Head::Frag { .. }
        | Head::Unicast4 { .. }
        | Head::Icmp { .. }
        | Head::Utvlv { .. } => None,
    }
}

/// Cuts a packet that is longer than `most` into fragments of at most that length, at the node
/// `me`, under this number.
pub fn cut(
    alloc: Global,
    packet: &[u8],
    most: usize,
    me: Mac,
    number: u16,
) -> Result<Cuts, NoMemory>
    requires { CanBeMade
        (record { most = most; number = number; me = me; packet = packet.now }) }
    ensures { IfOk result (λ cuts. cuts ≡ fragments
        (record { most = most; number = number; me = me; packet = packet.now })) }
{
    let Some((ttl, dst)) = reach_of(packet) else {
        unreachable!()
    };
    let packet = Bytes::from_slice(alloc, packet)?;
    Ok(Cuts {
        most,
        number,
        me,
        ttl,
        dst,
        packet,
    })
}
