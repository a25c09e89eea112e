//! IP addresses.

ghost use Rattle.std.specs.Prelude.{◌≡◌, ◌∷◌, [], IfSome, IfNone, option_and_then};
ghost use Rattle.std.specs.List.{slice_split};
ghost use Rattle.mesh_model.specs.Scenario.Terms.{number_of, octet, ip_of};
ghost use Rattle.mesh_scenario.specs.Inner.Taking.{is_dot};

use crate::terms::number;

/// What stands before the first dot of a text, and what stands behind it.
fn at_dot(text: &[u8]) -> Option<(&[u8], &[u8])>
    ensures some { IfSome result (λ parts.
        slice_split is_dot text.now ≡ parts.0.now ∷ slice_split is_dot parts.1.now) }
    ensures none { IfNone result (slice_split is_dot text.now ≡ text.now ∷ []) }
{
    let offset = text.iter().position(|byte| *byte == b'.')?;
    Some((&text[..offset], &text[offset + 1..]))
}

/// The number 0 to 255 that a word of decimal digits spells.
fn octet(word: &[u8]) -> Option<u8>
    ensures { result ≡ option_and_then octet (number_of word.now) }
{
    u8::try_from(number(word)?).ok()
}

/// The IP address that a word spells: four numbers 0 to 255 joined by dots.
pub fn ip(word: &[u8]) -> Option<u32>
    ensures { result ≡ ip_of word.now }
{
    let (a, rest) = at_dot(word)?;
    let (b, rest) = at_dot(rest)?;
    let (c, d) = at_dot(rest)?;
    if let Some(_) = at_dot(d) {
        return None;
    }
    Some(u32::from_be_bytes([octet(a)?, octet(b)?, octet(c)?, octet(d)?]))
}
