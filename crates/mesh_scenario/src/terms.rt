//! What a single word may say.

ghost use Rattle.std.specs.Prelude.{◌≡◌, ◌<◌, ◌≤◌, ◌&&◌, not, option_map, option_and_then, IfSome};
ghost use Rattle.mesh_model.specs.Scenario.Terms.{is_name_character, is_name, number_of, vid_of, is_mark, is_pattern};
ghost use Rattle.mesh_model.specs.Scenario.LinkOptions.{number_within};
ghost use Rattle.mesh_base.specs.Address.{is_broadcast, is_group, is_unicast};
ghost use Rattle.mesh_model.specs.Scenario.Fields.{kept_number, number_limit};

use mesh_base::{Mac, Vid};

/// The most characters of a name.
const NAME_LIMIT: usize = 16;
/// The greatest number of a VLAN (IEEE 802.1Q).
const VLAN_LIMIT: u64 = 4094;
/// The most marks of a pattern.
const PATTERN_LIMIT: usize = 64;

/// Whether a character may stand in a name.
fn is_name_character(character: u8) -> bool
    ensures { result ≡ is_name_character character }
{
    character.is_ascii_alphabetic() || character.is_ascii_digit() || character == b'_'
}

/// Whether a word is a name.
pub fn is_name(word: &[u8]) -> bool
    ensures { result ≡ is_name word.now }
{
    let [first, rest @ ..] = word else {
        return false;
    };
    if !first.is_ascii_alphabetic() || word.len() > NAME_LIMIT {
        return false;
    }
    rest.iter().all(|character| is_name_character(*character))
}

/// The number that a word of decimal digits spells; `u64::MAX` stands for all that are greater.
pub fn number(word: &[u8]) -> Option<u64>
    ensures { result ≡ option_map kept_number (number_of word.now) }
{
    if word.is_empty() || !word.iter().all(|digit| digit.is_ascii_digit()) {
        return None;
    }
    let mut value: u64 = 0;
    for digit in word {
        value = value
            .saturating_mul(10)
            .saturating_add(u64::from(digit.saturating_sub(b'0')));
    }
    Some(value)
}

/// The VLAN that a word names: `-` for untagged, or a number 1 to 4094.
pub fn vid(word: &[u8]) -> Option<Vid>
    ensures { result ≡ vid_of word.now }
{
    if word == b"-".as_slice() {
        return Some(Vid::UNTAGGED);
    }
    match number(word)? {
        number @ 1..=VLAN_LIMIT => Some(Vid(Vid::TAGGED + number as u16)),
        _ => None,
    }
}

/// Whether an address is one station's.
pub fn is_unicast(mac: Mac) -> bool
    ensures { result ≡ is_unicast mac }
{
    !mac.is_group() && !mac.is_zero()
}

/// Whether an address is that of a group other than all stations.
pub fn is_group(mac: Mac) -> bool
    ensures { result ≡ (is_group mac && not (is_broadcast mac)) }
{
    mac.is_group() && !mac.is_broadcast()
}

/// Whether a character is a mark of a pattern.
fn is_mark(character: u8) -> bool
    ensures { result ≡ is_mark character }
{
    matches!(character, b'.' | b'x' | b'2' | b'h')
}

/// Whether a word is the pattern of a link.
pub fn is_pattern(word: &[u8]) -> bool
    ensures { result ≡ is_pattern word.now }
{
    if word.is_empty() || word.len() > PATTERN_LIMIT {
        return false;
    }
    word.iter().all(|character| is_mark(*character))
}

/// The number in a range that a word spells.
pub fn number_within(least: u64, most: u64, word: &[u8]) -> Option<u64>
    requires { most < number_limit }
    ensures value { result ≡ option_and_then (number_within least most) (number_of word.now) }
    ensures within { IfSome result (λ number. number ≤ most) }
{
    let number = number(word)?;
    if least <= number && number <= most {
        Some(number)
    } else {
        None
    }
}
