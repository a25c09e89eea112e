ghost use Rattle.std.specs.Prelude.{◌≡◌, ◌+◌};
ghost use Rattle.mesh_model.specs.Tables.Checksum.{after_byte, crc32c};
ghost use Rattle.mesh_model.specs.Tables.Sums.{entry_sum};

use mesh_base::{Entry, Steps};
use std::sync::ledger::Ledger;

/// The register after eight bits, from each register that has only its lowest four set.
const LOW_HALVES: [u32; 16] = [
    0x0000_0000,
    0xf26b_8303,
    0xe13b_70f7,
    0x1350_f3f4,
    0xc79a_971f,
    0x35f1_141c,
    0x26a1_e7e8,
    0xd4ca_64eb,
    0x8ad9_58cf,
    0x78b2_dbcc,
    0x6be2_2838,
    0x9989_ab3b,
    0x4d43_cfd0,
    0xbf28_4cd3,
    0xac78_bf27,
    0x5e13_3c24,
];

/// The register after eight bits, from each register that has only the four above these set.
const HIGH_HALVES: [u32; 16] = [
    0x0000_0000,
    0x105e_c76f,
    0x20bd_8ede,
    0x30e3_49b1,
    0x417b_1dbc,
    0x5125_dad3,
    0x61c6_9362,
    0x7198_540d,
    0x82f6_3b78,
    0x92a8_fc17,
    0xa24b_b5a6,
    0xb215_72c9,
    0xc38d_26c4,
    0xd3d3_e1ab,
    0xe330_a81a,
    0xf36e_6f75,
];

/// The flags that count in an entry's sum: WIFI, bit 4, and ISOLATED, bit 5.
const CLIENT_FLAGS: u8 = 0x30;

/// The CRC32C of bytes.
#[tactic(auto, unfolding(mesh_model::specs::Tables::Checksum::crc32c))]
pub fn crc32c(bytes: &[u8]) -> u32
    ensures { result ≡ crc32c bytes.now }
{
    bytes
        .iter()
        .fold(u32::MAX, |register, byte| after_byte(register, *byte))
        ^ u32::MAX
}

// The register after a byte came in.
fn after_byte(register: u32, byte: u8) -> u32
    ensures { result ≡ after_byte register byte }
{
    let met = register ^ u32::from(byte);
    let low = LOW_HALVES[(met % 16) as usize];
    let high = HIGH_HALVES[(met / 16 % 16) as usize];
    met / 256 ^ low ^ high
}

/// The sum of an entry: the CRC32C of the wire number in two bytes, the higher first, the flags
/// that count, and the address.
#[tactic(auto, unfolding(mesh_model::specs::Tables::Sums::entry_sum))]
pub fn entry_sum<L: Ledger>(entry: &Entry, steps: &mut Steps<L>) -> u32
    ensures sum { result ≡ entry_sum entry.now }
    ensures step { steps.new ≡ steps.old + 1 }
{
    steps.tick();
    let [high, low] = entry.key.vid.0.to_be_bytes();
    let [a, b, c, d, e, f] = entry.key.mac.0;
    crc32c(&[high, low, entry.flags & CLIENT_FLAGS, a, b, c, d, e, f])
}
