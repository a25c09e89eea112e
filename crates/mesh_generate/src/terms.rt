//! The parts of the lines: numbers, names of nodes, and last bytes of addresses.

ghost use Rattle.std.specs.Prelude.{◌≡◌, ◌/◌, ◌%◌, ◌++◌, decimal, slice_index, OnOk};
ghost use Rattle.hex.specs.Hex.{lower_digits};
ghost use Rattle.mesh_base.specs.Address.{hex_of_byte};
ghost use Rattle.mesh_model.specs.Run.Generated.{name_of_node};
ghost use Rattle.mesh_model.specs.Text.PacketLines.{named_number};

use mesh_base::NoMemory;

/// The base of hex digits.
const HEX: u8 = 16;

/// Appends a number in decimal behind its name.
pub fn put_named_number(out: &mut Vec<u8>, name: &[u8], number: u128) -> Result<(), NoMemory>
    ensures { OnOk result (out.new.items ≡ out.old.items ++ named_number name.now number) }
{
    let mut digits = itoa::Buffer::new();
    out.extend_from_slice(name)?;
    out.extend_from_slice(digits.format(number).as_bytes())?;
    Ok(())
}

/// Appends the name of the node at a place.
pub fn put_name(out: &mut Vec<u8>, place: u8) -> Result<(), NoMemory>
    ensures { OnOk result (out.new.items ≡ out.old.items ++ name_of_node place) }
{
    put_named_number(out, b"n", u128::from(place))?;
    Ok(())
}

/// Appends a byte as two hex digits.
pub fn put_hex(out: &mut Vec<u8>, byte: u8) -> Result<(), NoMemory>
    ensures { OnOk result (out.new.items ≡ out.old.items ++ hex_of_byte byte) }
{
    let digits = b"0123456789abcdef";
    out.extend_from_slice(&[
        digits[usize::from(byte / HEX)],
        digits[usize::from(byte % HEX)],
    ])?;
    Ok(())
}
