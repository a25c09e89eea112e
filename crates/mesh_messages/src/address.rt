//! Addresses in bytes.

ghost use Rattle.std.specs.Prelude.{◌≡◌, ◌+◌, ◌≤◌, length};
ghost use Rattle.mesh_model.specs.Packets.Ethernet.{address_in};

use mesh_base::Mac;

/// The bytes of an address.
pub(crate) const ADDRESS: usize = 6;

/// The address in the six bytes at a place.
pub(crate) fn address_at(bytes: &[u8], place: usize) -> Mac
    requires { place + ADDRESS ≤ length bytes.now }
    ensures { result ≡ address_in place bytes.now }
{
    let mut address = [0; ADDRESS];
    address.copy_from_slice(&bytes[place..place + ADDRESS]);
    Mac(address)
}
