ghost use Rattle.std.specs.Prelude.{◌≡◌, ◌*◌, length, IfOk, Some, None, unwrap_or, if◌then◌else◌};
ghost use Rattle.std.specs.Result.{result_ok};
ghost use Rattle.hex.specs.Hex.{decode_pairs, hex_digit_value};
ghost use Rattle.mesh_model.specs.Scenario.Terms.{bytes_of_hex};

use mesh_base::{Bytes, NoMemory};
use std::alloc::Global;

/// The base of hex digits.
const HEX: u16 = 16;

/// Stands for a byte that is no hex digit. A pair with one of those is no byte.
const NONE: u16 = 256;

/// The value of each byte as a hex digit of either case.
const VALUES: &[u16; 256] = &[
    NONE, NONE, NONE, NONE, NONE, NONE, NONE, NONE, NONE, NONE, NONE, NONE, NONE, NONE, NONE, NONE,
    NONE, NONE, NONE, NONE, NONE, NONE, NONE, NONE, NONE, NONE, NONE, NONE, NONE, NONE, NONE, NONE,
    NONE, NONE, NONE, NONE, NONE, NONE, NONE, NONE, NONE, NONE, NONE, NONE, NONE, NONE, NONE, NONE,
    0, 1, 2, 3, 4, 5, 6, 7, 8, 9, NONE, NONE, NONE, NONE, NONE, NONE, NONE, 10, 11, 12, 13, 14, 15,
    NONE, NONE, NONE, NONE, NONE, NONE, NONE, NONE, NONE, NONE, NONE, NONE, NONE, NONE, NONE, NONE,
    NONE, NONE, NONE, NONE, NONE, NONE, NONE, NONE, NONE, NONE, 10, 11, 12, 13, 14, 15, NONE, NONE,
    NONE, NONE, NONE, NONE, NONE, NONE, NONE, NONE, NONE, NONE, NONE, NONE, NONE, NONE, NONE, NONE,
    NONE, NONE, NONE, NONE, NONE, NONE, NONE, NONE, NONE, NONE, NONE, NONE, NONE, NONE, NONE, NONE,
    NONE, NONE, NONE, NONE, NONE, NONE, NONE, NONE, NONE, NONE, NONE, NONE, NONE, NONE, NONE, NONE,
    NONE, NONE, NONE, NONE, NONE, NONE, NONE, NONE, NONE, NONE, NONE, NONE, NONE, NONE, NONE, NONE,
    NONE, NONE, NONE, NONE, NONE, NONE, NONE, NONE, NONE, NONE, NONE, NONE, NONE, NONE, NONE, NONE,
    NONE, NONE, NONE, NONE, NONE, NONE, NONE, NONE, NONE, NONE, NONE, NONE, NONE, NONE, NONE, NONE,
    NONE, NONE, NONE, NONE, NONE, NONE, NONE, NONE, NONE, NONE, NONE, NONE, NONE, NONE, NONE, NONE,
    NONE, NONE, NONE, NONE, NONE, NONE, NONE, NONE, NONE, NONE, NONE, NONE, NONE, NONE, NONE, NONE,
    NONE, NONE, NONE, NONE, NONE, NONE, NONE, NONE, NONE, NONE, NONE, NONE, NONE, NONE, NONE, NONE,
    NONE, NONE, NONE, NONE, NONE, NONE, NONE,
];

/// The value of a hex digit.
fn digit(byte: u8) -> u16
    ensures { result ≡ unwrap_or (hex_digit_value byte) NONE }
{
    VALUES[usize::from(byte)]
}

/// Writes the bytes that digits spell, and answers whether all are digits. It goes on past one that
/// is none, so that no pass of the loop branches on a byte, and it allocates nothing.
fn spell(digits: &[u8], bytes: &mut [u8]) -> bool
    requires { length digits.now ≡ 2 * length bytes.old }
    ensures { result_ok (decode_pairs 0 digits.now) ≡ (if result then Some bytes.new else None) }
{
    let mut greatest: u16 = 0;
    'bytes: for i in 0..bytes.len() {
        let pair = digit(digits[2 * i]) * HEX + digit(digits[2 * i + 1]);
        greatest = greatest.max(pair);
        bytes[i] = (pair % 256) as u8;
    }
    greatest < NONE
}

/// The bytes that a word spells in hex digits of either case, an even number of them and at least
/// 2, or `None` where it doesn't.
pub fn hex_bytes(alloc: Global, word: &[u8]) -> Result<Option<Bytes>, NoMemory>
    ensures { IfOk result (λ bytes. bytes ≡ bytes_of_hex word.now) }
{
    if word.is_empty() || word.len() % 2 == 1 {
        return Ok(None);
    }
    let mut bytes = vec![in alloc; 0; word.len() / 2]?;
    if spell(word, bytes.as_mut_slice()) {
        Ok(Some(Bytes::from_vec(bytes)))
    } else {
        Ok(None)
    }
}
