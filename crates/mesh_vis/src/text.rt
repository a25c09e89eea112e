//! Addresses and clients as texts.

ghost use Rattle.std.specs.Prelude.{◌≡◌, ◌∷◌, ◌++◌, codes, string_bytes, IfOk, OnOk, decimal};
ghost use Rattle.mesh_base.specs.Address.{colon, hex_of_byte, mac_text};
ghost use Rattle.mesh_model.specs.Text.Tables.{vid_text};

use mesh_base::{Key, Mac, NoMemory, Vid};
use std::alloc::Global;

// Appends a byte as two hex digits.
#[tactic(auto, unfolding(hex::specs::Hex::encode_with))]
fn put_byte(alloc: Global, text: &mut String, byte: u8) -> Result<(), NoMemory>
    ensures { OnOk result (string_bytes text.new ≡ string_bytes text.old ++ hex_of_byte byte) }
{
    let bytes = [byte];
    let digits = hex::encode(alloc, bytes.as_slice())?;
    text.push_str(digits.as_str())?;
    Ok(())
}

// Appends a colon and a byte.
fn put_next(alloc: Global, text: &mut String, byte: u8) -> Result<(), NoMemory>
    ensures { OnOk result (string_bytes text.new
        ≡ string_bytes text.old ++ colon ∷ hex_of_byte byte) }
{
    text.push_str(":")?;
    put_byte(alloc, text, byte)?;
    Ok(())
}

/// An address as it is printed.
pub(crate) fn mac_string(alloc: Global, mac: Mac) -> Result<String, NoMemory>
    ensures { IfOk result (λ text. string_bytes text ≡ mac_text mac) }
{
    let [a, b, c, d, e, f] = mac.0;
    let mut text = String::new(alloc);
    put_byte(alloc, &mut text, a)?;
    put_next(alloc, &mut text, b)?;
    put_next(alloc, &mut text, c)?;
    put_next(alloc, &mut text, d)?;
    put_next(alloc, &mut text, e)?;
    put_next(alloc, &mut text, f)?;
    Ok(text)
}

// Appends a number in decimal.
fn put_number(text: &mut String, number: u16) -> Result<(), NoMemory>
    ensures { OnOk result (string_bytes text.new ≡ string_bytes text.old ++ decimal number) }
{
    let mut digits = itoa::Buffer::new();
    text.push_str(digits.format(number))?;
    Ok(())
}

// Appends a VLAN: `-`, its number, or `raw:` and its wire number.
#[tactic(auto, unfolding(mesh_model::specs::Text::Tables::vid_text))]
fn put_vid(text: &mut String, vid: Vid) -> Result<(), NoMemory>
    ensures { OnOk result (string_bytes text.new ≡ string_bytes text.old ++ vid_text vid) }
{
    if vid == Vid::UNTAGGED {
        text.push_str("-")?;
    } else if vid.0 >= Vid::TAGGED {
        put_number(text, vid.0 - Vid::TAGGED)?;
    } else {
        text.push_str("raw:")?;
        put_number(text, vid.0)?;
    }
    Ok(())
}

/// A client as it is printed: its address and its VLAN.
pub(crate) fn client_string(alloc: Global, key: Key) -> Result<String, NoMemory>
    ensures { IfOk result (λ text.
        string_bytes text ≡ mac_text key.mac ++ codes "/" ++ vid_text key.vid) }
{
    let mut text = mac_string(alloc, key.mac)?;
    text.push_str("/")?;
    put_vid(&mut text, key.vid)?;
    Ok(text)
}
