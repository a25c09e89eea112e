//! The parts of a line: texts, numbers, addresses, VLANs, flags, checksums, IP addresses and ages.

ghost use Rattle.std.specs.Prelude.{◌≡◌, ◌/◌, ◌%◌, ◌++◌, ◌<◌, codes, decimal, slice_index, List, [], ◌∷◌, OnOk};
ghost use Rattle.hex.specs.Hex.{encode_lower, lower_digits};
ghost use Rattle.mesh_base.specs.Address.{hex_of_byte, mac_text, pairs_text};
ghost use Rattle.mesh_model.specs.Text.PacketLines.{named_number, named_address, named_flags};
ghost use Rattle.mesh_model.specs.Text.Events.{ip_text, lan_text, name_text};
ghost use Rattle.mesh_model.specs.Text.GlobalTables.{byte_text};
ghost use Rattle.mesh_model.specs.Text.Tables.{address_text, age_text, flag_text, flags_text, sum_text, vid_text};
ghost use Rattle.batctl_text.specs.Inner.Parts.{part_text};

use crate::line_text::LineText;
use mesh_base::{Mac, Millis, Names, NoMemory, Vid};
use mesh_tvlv::layout::{ISOLATED, WIFI};

/// The base of hex digits.
const HEX: u8 = 16;

/// A part of a line.
#[derive(Clone, Copy)]
pub enum Part<'a> {
    /// These bytes.
    Text(&'a [u8]),
    /// A number in decimal behind its name.
    Number(&'a [u8], u64),
    /// An address behind its name.
    Address(&'a [u8], Mac),
    /// What a container's line begins with: its type, version and length.
    Container(u8, u8, usize),
    /// A byte of flags behind its name, as two hex digits.
    Flags(&'a [u8], u8),
    /// A VLAN: `-`, its number, or `raw:` and its wire number.
    Vlan(Vid),
    /// The flags of an entry, a letter or `-` each.
    Marks(u8),
    /// An age, or `-` for none.
    Age(Option<Millis>),
    /// An address, or `-` for none.
    Hop(Option<Mac>),
    /// A byte in decimal, or `-` for none.
    Byte(Option<u8>),
    /// A checksum as eight hex digits.
    Sum(u32),
    /// An IP address, which is a number: its four bytes in decimal.
    Ip(u32),
    /// Bytes as two hex digits each.
    Hex(&'a [u8]),
}

/// A part without text.
pub const NOTHING: Part<'static> = Part::Text(b"");

/// The name of a node, or its address where it has none.
pub fn name_part<'a>(names: &'a Names, mac: Mac) -> Part<'a>
    ensures { part_text result ≡ name_text names.now mac }
{
    match names.node_name(mac) {
        Some(name) => Part::Text(name),
        None => Part::Address(b"", mac),
    }
}

/// The name of a LAN by its number; nothing where it has none.
pub fn lan_part(names: &Names, number: u32) -> Part<'_>
    ensures { part_text result ≡ lan_text names.now number }
{
    match names.lan_name(number) {
        Some(name) => Part::Text(name),
        None => Part::Text(b""),
    }
}

// Appends a number of some digits.
fn put_digits(line: &mut LineText, number: u64) -> Result<(), NoMemory>
    ensures { OnOk result (line.new ≡ line.old ++ decimal number) }
{
    let mut digits = itoa::Buffer::new();
    line.put(digits.format(number).as_bytes())?;
    Ok(())
}

#[inline(always)]
fn put_number(line: &mut LineText, number: u64) -> Result<(), NoMemory>
    ensures { OnOk result (line.new ≡ line.old ++ decimal number) }
{
    if number < 10 {
        line.put(&[b'0' + number as u8])?;
        return Ok(());
    }
    put_digits(line, number)?;
    Ok(())
}

// Appends a number in decimal behind its name.
#[inline(always)]
fn put_named_number(line: &mut LineText, name: &[u8], number: u64) -> Result<(), NoMemory>
    ensures { OnOk result (line.new ≡ line.old ++ named_number name.now number) }
{
    line.put(name)?;
    put_number(line, number)?;
    Ok(())
}

// Appends an address behind its name.
#[inline(always)]
fn put_named_address(line: &mut LineText, name: &[u8], mac: Mac) -> Result<(), NoMemory>
    ensures { OnOk result (line.new ≡ line.old ++ named_address name.now mac) }
{
    line.put(name)?;
    line.put(&mac_digits(mac.0))?;
    Ok(())
}

// Appends what a container's line begins with.
fn put_container_start(
    line: &mut LineText,
    kind: u8,
    version: u8,
    len: usize,
) -> Result<(), NoMemory>
    ensures { OnOk result (line.new ≡ line.old ++ named_number (codes "tvlv ") kind
        ++ named_number (codes " version=") version ++ named_number (codes " len=") len) }
{
    put_named_number(line, b"tvlv ", u64::from(kind))?;
    put_named_number(line, b" version=", u64::from(version))?;
    put_named_number(line, b" len=", len as u64)?;
    Ok(())
}

// Appends a byte of flags behind its name, as two hex digits.
#[inline(always)]
fn put_named_flags(line: &mut LineText, name: &[u8], flags: u8) -> Result<(), NoMemory>
    ensures { OnOk result (line.new ≡ line.old ++ named_flags name.now flags) }
{
    line.put(name)?;
    line.put(&[high_digit(flags)])?;
    line.put(&[low_digit(flags)])?;
    Ok(())
}

// The text of an address.
fn mac_digits(bytes: [u8; 6]) -> [u8; 17]
    ensures { result ≡ pairs_text bytes }
{
    let [a, b, c, d, e, f] = bytes;
    [
        high_digit(a),
        low_digit(a),
        b':',
        high_digit(b),
        low_digit(b),
        b':',
        high_digit(c),
        low_digit(c),
        b':',
        high_digit(d),
        low_digit(d),
        b':',
        high_digit(e),
        low_digit(e),
        b':',
        high_digit(f),
        low_digit(f),
    ]
}

// The hex digit of a byte's upper four bits.
fn high_digit(byte: u8) -> u8
    ensures { result ≡ slice_index lower_digits (byte / HEX) }
{
    b"0123456789abcdef"[usize::from(byte / HEX)]
}

// The hex digit of a byte's lower four bits.
fn low_digit(byte: u8) -> u8
    ensures { result ≡ slice_index lower_digits (byte % HEX) }
{
    b"0123456789abcdef"[usize::from(byte % HEX)]
}

// Appends a VLAN: `-`, its number, or `raw:` and its wire number.
#[tactic(auto, unfolding(mesh_model::specs::Text::Tables::vid_text))]
fn put_vid(line: &mut LineText, vid: Vid) -> Result<(), NoMemory>
    ensures { OnOk result (line.new ≡ line.old ++ vid_text vid) }
{
    if vid == Vid::UNTAGGED {
        line.put(b"-")?;
    } else if vid.0 >= Vid::TAGGED {
        put_number(line, u64::from(vid.0 - Vid::TAGGED))?;
    } else {
        line.put(b"raw:")?;
        put_number(line, u64::from(vid.0))?;
    }
    Ok(())
}

// Appends a checksum as eight hex digits.
#[tactic(auto, unfolding(mesh_model::specs::Text::Tables::sum_text))]
fn put_sum(line: &mut LineText, sum: u32) -> Result<(), NoMemory>
    ensures { OnOk result (line.new ≡ line.old ++ sum_text sum) }
{
    let mut digits = [0; 8];
    let Ok(()) = hex::encode_to_slice(sum.to_be_bytes().as_slice(), &mut digits) else {
        unreachable!()
    };
    line.put(&digits)?;
    Ok(())
}

// Appends an IP address: its four bytes in decimal.
#[tactic(auto, unfolding(mesh_model::specs::Text::Events::ip_text))]
fn put_ip(line: &mut LineText, ip: u32) -> Result<(), NoMemory>
    ensures { OnOk result (line.new ≡ line.old ++ ip_text ip) }
{
    put_number(line, u64::from(ip / 0x100_0000))?;
    put_named_number(line, b".", u64::from(ip / 0x1_0000 % 0x100))?;
    put_named_number(line, b".", u64::from(ip / 0x100 % 0x100))?;
    put_named_number(line, b".", u64::from(ip % 0x100))?;
    Ok(())
}

// The letter of a flag that is set, else `-`.
fn flag_letter(flags: u8, flag: u8, letter: u8) -> u8
    requires { 0 < flag }
    ensures { result ∷ [] ≡ flag_text flags flag (letter ∷ []) }
{
    if flags / flag % 2 == 1 { letter } else { b'-' }
}

#[tactic(auto, unfolding(mesh_model::specs::Text::Tables::flags_text))]
fn put_marks(line: &mut LineText, flags: u8) -> Result<(), NoMemory>
    ensures { OnOk result (line.new ≡ line.old ++ flags_text flags) }
{
    line.put(&[
        flag_letter(flags, WIFI, b'w'),
        flag_letter(flags, ISOLATED, b'i'),
    ])?;
    Ok(())
}

#[tactic(auto, unfolding(mesh_model::specs::Text::Tables::age_text))]
fn put_age(line: &mut LineText, age: Option<Millis>) -> Result<(), NoMemory>
    ensures { OnOk result (line.new ≡ line.old ++ age_text age) }
{
    match age {
        Some(age) => put_number(line, age)?,
        None => line.put(b"-")?,
    }
    Ok(())
}

fn put_hop(line: &mut LineText, mac: Option<Mac>) -> Result<(), NoMemory>
    ensures { OnOk result (line.new ≡ line.old ++ address_text mac) }
{
    match mac {
        Some(mac) => line.put(&mac_digits(mac.0))?,
        None => line.put(b"-")?,
    }
    Ok(())
}

fn put_byte(line: &mut LineText, byte: Option<u8>) -> Result<(), NoMemory>
    ensures { OnOk result (line.new ≡ line.old ++ byte_text byte) }
{
    match byte {
        Some(byte) => put_number(line, u64::from(byte))?,
        None => line.put(b"-")?,
    }
    Ok(())
}

fn put_hex(line: &mut LineText, bytes: &[u8]) -> Result<(), NoMemory>
    ensures { OnOk result (line.new ≡ line.old ++ encode_lower bytes.now) }
{
    for byte in bytes {
        line.put(&[high_digit(*byte), low_digit(*byte)])?;
    }
    Ok(())
}

/// Appends a part.
pub fn put_part(line: &mut LineText, part: &Part<'_>) -> Result<(), NoMemory>
    ensures { OnOk result (line.new ≡ line.old ++ part_text part.now) }
{
    match *part {
        Part::Text(text) => line.put(text)?,
        Part::Number(name, value) => put_named_number(line, name, value)?,
        Part::Address(name, mac) => put_named_address(line, name, mac)?,
        Part::Container(kind, version, len) => put_container_start(line, kind, version, len)?,
        Part::Flags(name, flags) => put_named_flags(line, name, flags)?,
        Part::Vlan(vid) => put_vid(line, vid)?,
        Part::Marks(flags) => put_marks(line, flags)?,
        Part::Age(age) => put_age(line, age)?,
        Part::Hop(mac) => put_hop(line, mac)?,
        Part::Byte(byte) => put_byte(line, byte)?,
        Part::Sum(sum) => put_sum(line, sum)?,
        Part::Ip(ip) => put_ip(line, ip)?,
        Part::Hex(bytes) => put_hex(line, bytes)?,
    }
    Ok(())
}
