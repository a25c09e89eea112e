ghost use Rattle.std.specs.Prelude.{◌≡◌};
ghost use Rattle.mesh_base.specs.KeyOrder.{key_order};
ghost use Rattle.mesh_base.specs.Vlan.{untagged, tagged_bit};
ghost use Rattle.mesh_base.specs.declared.client.Key.{Key};

use crate::address::Mac;

/// A moment or a length of time, in milliseconds.
pub type Millis = u64;

/// A VLAN by its wire number: 0 for untagged, 32768 plus the number (1 to 4094) for tagged.
#[derive(Clone, Copy, Debug, PartialEq, Eq, PartialOrd, Ord, Hash)]
pub struct Vid(pub u16);

impl Vid {
    /// No VLAN.
    pub const UNTAGGED: Vid = Vid(0);
    /// The bit of the wire number that says that the VLAN is tagged.
    pub const TAGGED: u16 = 0x8000;
}

/// A law: the numbers that a wire number begins with are those of the definitions.
pub fn wire_numbers_are_those_of_the_definitions()
    ensures untagged { Vid.UNTAGGED.0 ≡ untagged }
    ensures tagged { Vid.TAGGED ≡ tagged_bit }
{}

/// A client's address in a VLAN. Keys are ordered by the address bytes, then by the wire number.
#[derive(Clone, Copy, Debug, PartialEq, Eq, PartialOrd, Ord, Hash)]
pub struct Key {
    pub mac: Mac,
    pub vid: Vid,
}

/// A client of a table: its key and its flags, of which WIFI (bit 4) and ISOLATED (bit 5) count.
#[derive(Clone, Copy, Debug, PartialEq, Eq, PartialOrd, Ord, Hash)]
pub struct Entry {
    pub key: Key,
    pub flags: u8,
}

/// A law: keys are ordered by the address bytes, then by the wire number.
pub fn keys_are_ordered_by_address_then_vlan()
    ensures { (a b : Key) → ⟦<Key as Ord>⟧.cmp a b ≡ key_order a b }
{}
