ghost use Rattle.std.specs.Prelude.{◌≡◌, ◌≤◌, ◌+◌, drop, length};
ghost use Rattle.byteorder.specs.Endian.{big_number};
ghost use Rattle.mesh_model.specs.Packets.FirstPacket.{address_of};

use crate::numbers::ADDRESS;
use byteorder::{BigEndian, ByteOrder};
use mesh_base::Mac;
use std::marker::Model;

/// The bytes of a header that aren't read yet, and those behind it. Each call takes a field from
/// their front.
#[derive(Drop)]
pub struct Cursor<'a> {
    left: &'a [u8],
}

impl<'a> Model for Cursor<'a> {
    ghost use Rattle.std.specs.Prelude.{ℕ, List};

    ghost Value = { List ℕ };

    ghost view = { λ cursor. cursor.left.now };
}

impl<'a> Cursor<'a> {
    /// A cursor before these bytes.
    pub fn new(bytes: &'a [u8]) -> Cursor<'a>
        ensures { result ≡ bytes.now }
    {
        Cursor { left: bytes }
    }

    /// A number of 1 byte.
    pub fn u8(&mut self) -> u8
        requires { 1 ≤ length self.old }
        ensures number { result ≡ big_number 1 self.old }
        ensures left { self.new ≡ drop 1 self.old }
        ensures len { length self.old ≡ 1 + length self.new }
    {
        let (front, left) = self.left.split_at(1);
        self.left = left;
        front[0]
    }

    /// A number of 2 bytes.
    pub fn u16(&mut self) -> u16
        requires { 2 ≤ length self.old }
        ensures number { result ≡ big_number 2 self.old }
        ensures left { self.new ≡ drop 2 self.old }
        ensures len { length self.old ≡ 2 + length self.new }
    {
        let number = BigEndian::read_u16(self.left);
        self.left = &self.left[2..];
        number
    }

    /// A number of 4 bytes.
    pub fn u32(&mut self) -> u32
        requires { 4 ≤ length self.old }
        ensures number { result ≡ big_number 4 self.old }
        ensures left { self.new ≡ drop 4 self.old }
        ensures len { length self.old ≡ 4 + length self.new }
    {
        let number = BigEndian::read_u32(self.left);
        self.left = &self.left[4..];
        number
    }

    /// An address.
    pub fn mac(&mut self) -> Mac
        requires { ADDRESS ≤ length self.old }
        ensures address { result ≡ address_of self.old }
        ensures left { self.new ≡ drop ADDRESS self.old }
        ensures len { length self.old ≡ ADDRESS + length self.new }
    {
        let (front, left) = self.left.split_at(ADDRESS);
        let mut address = [0; ADDRESS];
        address.copy_from_slice(front);
        self.left = left;
        Mac(address)
    }

    /// Passes over so many bytes.
    pub fn skip(&mut self, size: usize)
        requires { size ≤ length self.old }
        ensures left { self.new ≡ drop size self.old }
        ensures len { length self.old ≡ size + length self.new }
    {
        self.left = &self.left[size..];
    }

    /// The bytes that are left.
    pub fn left(&self) -> &'a [u8]
        ensures { result.now ≡ self.now }
    {
        self.left
    }
}
