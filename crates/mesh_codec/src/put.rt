//! The parts of a header, put at the end of a list that has room for them.

ghost use Rattle.std.specs.Prelude.{◌≡◌, ◌++◌, ◌+◌, ◌≤◌, length};
ghost use Rattle.std.specs.Vec.{vec_len, vec_capacity};
ghost use Rattle.mesh_model.specs.Packets.Layout.Part.{number, address, fragment, reserved};
ghost use Rattle.mesh_model.specs.Packets.Layout.{FitsFragmentByte};
ghost use Rattle.mesh_codec.specs.Inner.Writing.{HasRoom, Puts};

use crate::numbers::ADDRESS;
use byteorder::{BigEndian, ByteOrder};
use mesh_base::Mac;

/// Bytes as they are.
pub fn put(out: &mut Vec<u8>, bytes: &[u8])
    requires { HasRoom out.old (length bytes.now) }
    ensures items { out.new.items ≡ out.old.items ++ bytes.now }
    ensures len { vec_len out.new ≡ vec_len out.old + length bytes.now }
    ensures room { vec_capacity out.old ≤ vec_capacity out.new }
{
    out.extend_from_slice(bytes).unwrap();
}

/// A number of 1 byte.
pub fn put_u8(out: &mut Vec<u8>, value: u8)
    requires { HasRoom out.old 1 }
    ensures part { Puts out.old (number 1 value) out.new }
    ensures len { vec_len out.new ≡ vec_len out.old + 1 }
{
    put(out, &[value]);
}

/// A number of 2 bytes.
pub fn put_u16(out: &mut Vec<u8>, value: u16)
    requires { HasRoom out.old 2 }
    ensures part { Puts out.old (number 2 value) out.new }
    ensures len { vec_len out.new ≡ vec_len out.old + 2 }
{
    let mut bytes = [0; 2];
    BigEndian::write_u16(&mut bytes, value);
    put(out, &bytes);
}

/// A number of 4 bytes.
pub fn put_u32(out: &mut Vec<u8>, value: u32)
    requires { HasRoom out.old 4 }
    ensures part { Puts out.old (number 4 value) out.new }
    ensures len { vec_len out.new ≡ vec_len out.old + 4 }
{
    let mut bytes = [0; 4];
    BigEndian::write_u32(&mut bytes, value);
    put(out, &bytes);
}

/// An address.
pub fn put_mac(out: &mut Vec<u8>, mac: Mac)
    requires { HasRoom out.old ADDRESS }
    ensures part { Puts out.old (address mac) out.new }
    ensures len { vec_len out.new ≡ vec_len out.old + ADDRESS }
{
    put(out, &mac.0);
}

/// A fragment's number and priority, in one byte.
pub fn put_fragment(out: &mut Vec<u8>, number: u8, priority: u8)
    requires fits { FitsFragmentByte number priority }
    requires room { HasRoom out.old 1 }
    ensures part { Puts out.old (fragment number priority) out.new }
    ensures len { vec_len out.new ≡ vec_len out.old + 1 }
{
    put(out, &[(number << 4) | (priority << 1)]);
}

/// So many reserved bytes, 1 or 2.
pub fn put_reserved(out: &mut Vec<u8>, size: usize)
    requires size { size ≤ 2 }
    requires room { HasRoom out.old size }
    ensures part { Puts out.old (reserved size) out.new }
    ensures len { vec_len out.new ≡ vec_len out.old + size }
{
    put(out, &[0; 2][..size]);
}
