ghost use Rattle.std.specs.Prelude.{◌≡◌, ◌≤◌, ◌<◌, length, take, IfSome, option_copied, slice_get};
ghost use Rattle.mesh_model.specs.Packets.Bodies.{key_of_bytes, whole_pieces};
ghost use Rattle.mesh_model.specs.Packets.Pictures.{neighbour_of_bytes, picture_of_bytes};

use crate::layout::{CLIENT_SIZE, COUNT_SIZE, METRIC_OFFSET, NEIGHBOUR_SIZE, VID_OFFSET};
use byteorder::{BigEndian, ByteOrder};
use mesh_base::{Key, Mac, Vid};
use std::marker::Model;

/// A picture where it lies in bytes.
#[derive(Debug, Drop)]
pub struct VisView<'a> {
    neighbours: &'a [u8],
    clients: &'a [u8],
}

impl<'a> Model for VisView<'a> {
    ghost use Rattle.std.specs.Prelude.{map};
    ghost use Rattle.mesh_model.specs.Packets.Bodies.{key_of_bytes, key_size, whole_pieces};
    ghost use Rattle.mesh_model.specs.Packets.Pictures.{Picture, neighbour_of_bytes, neighbour_size};

    ghost Value = { Picture };

    ghost view = { λ v. record {
      neighbours = map neighbour_of_bytes (whole_pieces neighbour_size v.neighbours.now);
      clients = map key_of_bytes (whole_pieces key_size v.clients.now);
    } };
}

/// The picture that bytes are, where it lies; `None` exactly where they aren't one, to their last
/// byte.
pub fn read_vis(bytes: &[u8]) -> Option<VisView<'_>>
    ensures { result ≡ picture_of_bytes bytes.now }
{
    let neighbours = usize::from(*bytes.first()?);
    let place = COUNT_SIZE + NEIGHBOUR_SIZE * neighbours;
    let clients = usize::from(*bytes.get(place)?);
    if bytes.len() != place + (COUNT_SIZE + CLIENT_SIZE * clients) {
        return None;
    }
    Some(VisView {
        neighbours: &bytes[COUNT_SIZE..place],
        clients: &bytes[place + COUNT_SIZE..],
    })
}

// The address in the first bytes.
fn address_in(bytes: &[u8]) -> Mac
    requires { METRIC_OFFSET ≤ length bytes.now }
    ensures { result ≡ record { 0 = take METRIC_OFFSET bytes.now } }
{
    let mut address = [0; METRIC_OFFSET];
    address.copy_from_slice(&bytes[..METRIC_OFFSET]);
    Mac(address)
}

// The neighbour in the first bytes.
fn neighbour_in(bytes: &[u8]) -> (Mac, u32)
    requires { NEIGHBOUR_SIZE ≤ length bytes.now }
    ensures { result ≡ neighbour_of_bytes bytes.now }
{
    (
        address_in(bytes),
        BigEndian::read_u32(&bytes[METRIC_OFFSET..]),
    )
}

// The client in the first bytes.
fn client_in(bytes: &[u8]) -> Key
    requires { CLIENT_SIZE ≤ length bytes.now }
    ensures { result ≡ key_of_bytes bytes.now }
{
    Key {
        mac: address_in(bytes),
        vid: Vid(BigEndian::read_u16(&bytes[VID_OFFSET..])),
    }
}

// The piece at this place, of those of this size that the bytes hold whole.
fn piece(bytes: &[u8], size: usize, place: usize) -> Option<&[u8]>
    requires { 0 < size }
    ensures value { option_copied result ≡ slice_get (whole_pieces size bytes.now) place }
    ensures whole { IfSome result (λ piece. length piece.now ≡ size) }
{
    if place >= bytes.len() / size {
        return None;
    }
    let start = size * place;
    Some(&bytes[start..start + size])
}

impl<'a> VisView<'a> {
    /// How many neighbours there are.
    pub fn neighs(&self) -> usize
        ensures { result ≡ length self.now.neighbours }
    {
        self.neighbours.len() / NEIGHBOUR_SIZE
    }

    /// How many clients there are.
    pub fn clients(&self) -> usize
        ensures { result ≡ length self.now.clients }
    {
        self.clients.len() / CLIENT_SIZE
    }

    /// The neighbour at this place with its metric; `None` exactly past the last.
    pub fn neigh_at(&self, i: usize) -> Option<(Mac, u32)>
        ensures { result ≡ slice_get self.now.neighbours i }
    {
        let bytes = piece(self.neighbours, NEIGHBOUR_SIZE, i)?;
        Some(neighbour_in(bytes))
    }

    /// The client at this place; `None` exactly past the last.
    pub fn client_at(&self, i: usize) -> Option<Key>
        ensures { result ≡ slice_get self.now.clients i }
    {
        let bytes = piece(self.clients, CLIENT_SIZE, i)?;
        Some(client_in(bytes))
    }
}
