ghost use Rattle.std.specs.Prelude.{◌≡◌, ◌∷◌, drop, nat_eq, take, true, Some};
ghost use Rattle.std.specs.Cmp.{partial_order_from_own_ties};
ghost use Rattle.std.specs.Cmp.Lexicographic.{pointwise, slice_cmp};
ghost use Rattle.std.specs.Ordering.{nat_cmp};
ghost use Rattle.std.specs.Cmp.Rules.{comparing, hashing};
ghost use Rattle.std.specs.Hash as fed;
ghost use Rattle.std.specs.Int.{from_be_bytes, to_be_bytes, w16, w32, w64};
ghost use Rattle.std.proofs.Common.{rules};
ghost use Rattle.mesh_base.specs.Address.{mac_of_text, is_broadcast, is_group, is_zero};

use hex::FromHex;
use std::cmp::Ordering;
use std::hash::{Hash, Hasher};

/// A hardware address of 48 bits, its bytes in the order in which they are sent (IEEE 802, EUI-48).
#[derive(Clone, Copy, Debug, Eq)]
pub struct Mac(pub [u8; 6]);

// Addresses are ordered and hashed as one word each, and are equal where two pieces are: tables are
// looked up by them all the time.
impl PartialEq for Mac {
    ghost eq = { λ a b. pointwise nat_eq a.0 b.0 };

    ghost laws = { Prim.search (comparing, rules) };

    fn eq(&self, other: &Mac) -> bool {
        self.tail() == other.tail() && self.head() == other.head()
    }
}

impl PartialOrd for Mac {
    ghost partial_cmp = { λ a b. Some (slice_cmp nat_cmp a.0 b.0) };

    ghost laws = { partial_order_from_own_ties (Prim.search (comparing, rules))
        (Prim.search (comparing, rules)) };

    fn partial_cmp(&self, other: &Mac) -> Option<Ordering> {
        Some(self.cmp(other))
    }
}

impl Ord for Mac {
    ghost cmp = { λ a b. slice_cmp nat_cmp a.0 b.0 };

    ghost total = { Prim.search (comparing, rules) };

    ghost matches_partial_cmp = { Prim.search (comparing, rules) };

    ghost matches_eq = { Prim.search (comparing, rules) };

    fn cmp(&self, other: &Mac) -> Ordering {
        self.word().cmp(&other.word())
    }
}

impl Hash for Mac {
    ghost hash_input = { λ mac. fed.u64 (from_be_bytes w64 (0 ∷ 0 ∷ mac.0)) };

    ghost respects_eq = { Prim.search (hashing, rules) };

    fn hash<H: Hasher>(&self, state: &mut H) {
        state.write_u64(self.word());
    }
}

impl Mac {
    /// The address of all stations.
    pub const BROADCAST: Mac = Mac([255; 6]);
    /// The address of no station.
    pub const ZERO: Mac = Mac([0; 6]);
    /// The bit of the first byte that says that the address is one of a group.
    const GROUP: u8 = 1;

    /// Reads six pairs of hex digits, of either case, joined by colons, as in `02:00:00:00:00:0a`.
    pub fn read(text: &[u8]) -> Option<Mac>
        ensures { result ≡ mac_of_text text.now }
    {
        let [
            a,
            b,
            b':',
            c,
            d,
            b':',
            e,
            f,
            b':',
            g,
            h,
            b':',
            i,
            j,
            b':',
            k,
            l,
        ] = *text
        else {
            return None;
        };
        let bytes = <[u8; 6]>::from_hex([a, b, c, d, e, f, g, h, i, j, k, l]).ok()?;
        Some(Mac(bytes))
    }

    // The first four bytes as a number, the first the highest.
    fn head(self) -> u32
        ensures value { result ≡ from_be_bytes w32 (take 4 self.0) }
        ensures bytes { to_be_bytes w32 result ≡ take 4 self.0 }
    {
        let [a, b, c, d, _, _] = self.0;
        u32::from_be_bytes([a, b, c, d])
    }

    // The last two bytes as a number, the first the higher: those of neighbours differ here first.
    fn tail(self) -> u16
        ensures value { result ≡ from_be_bytes w16 (drop 4 self.0) }
        ensures bytes { to_be_bytes w16 result ≡ drop 4 self.0 }
    {
        let [_, _, _, _, e, f] = self.0;
        u16::from_be_bytes([e, f])
    }

    // The bytes as a number, the first the highest. They are read as an address is copied, four and
    // then two.
    fn word(self) -> u64
        ensures value { result ≡ from_be_bytes w64 (0 ∷ 0 ∷ self.0) }
        ensures bytes { to_be_bytes w64 result ≡ 0 ∷ 0 ∷ self.0 }
    {
        u64::from(self.head()) * 65_536 + u64::from(self.tail())
    }

    /// Whether the address is one of a group, which all stations is too.
    pub fn is_group(self) -> bool
        ensures { result ≡ is_group self }
    {
        self.0[0] & Self::GROUP != 0
    }

    /// Whether all six bytes are 0, as no station's are.
    pub fn is_zero(self) -> bool
        ensures { result ≡ is_zero self }
    {
        self.0.iter().all(|byte| *byte == 0)
    }

    /// Whether the address is that of all stations.
    pub fn is_broadcast(self) -> bool
        ensures { result ≡ is_broadcast self }
    {
        self.0.iter().all(|byte| *byte == 255)
    }
}

/// A law: the addresses of all stations and of none are those of the definitions.
pub fn named_addresses_are_those_of_the_definitions()
    ensures broadcast { is_broadcast Mac.BROADCAST ≡ true }
    ensures zero { is_zero Mac.ZERO ≡ true }
{}
