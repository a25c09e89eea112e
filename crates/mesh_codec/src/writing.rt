ghost use Rattle.std.specs.Prelude.{◌≡◌, ◌++◌, ◌+◌, ◌≤◌, ℕ, List, length, OnOk, OnErr, IfErr, IsErrOf, IsOk};
ghost use Rattle.std.specs.Vec.{vec_len, vec_capacity};
ghost use Rattle.mesh_model.specs.Packets.Layout.{HasSpelling, spelling};
ghost use Rattle.mesh_codec.specs.Encoding.{FitsFragment, IsTooLong, HasStrayTail, HasObstacle};
ghost use Rattle.mesh_codec.specs.Inner.Writing.{CanTell};

use crate::failure::CodecErr;
use crate::numbers::LONGEST_HEADER;
use crate::put::put;
use crate::put_header::put_header;
use mesh_model::Head;

// Whether a tail of so many bytes may follow the header of this head.
fn check_tail(head: &Head, len: usize) -> Result<(), CodecErr>
    ensures fits { OnOk result (CanTell head.now len) }
    ensures told { (tail : List ℕ) → length tail ≡ len →
        OnOk result (IsTooLong head.now tail → ⊥) }
    ensures none { (tail : List ℕ) → length tail ≡ len →
        OnOk result (HasStrayTail head.now tail → ⊥) }
    ensures cause { (tail : List ℕ) → length tail ≡ len →
        IfErr result (HasObstacle head.now tail) }
    ensures memory { result ≡ Err CodecErr.Memory → ⊥ }
{
    match head {
        Head::IvOgm { .. } | Head::Ogm2 { .. } | Head::Utvlv { .. } => {
            if len > usize::from(u16::MAX) {
                return Err(CodecErr::Long { len });
            }
        }
        Head::Elp { .. } | Head::Icmp { .. } => {
            if len > 0 {
                return Err(CodecErr::Tail { len });
            }
        }
        Head::Bcast { .. } | Head::Unicast { .. } | Head::Frag { .. } | Head::Unicast4 { .. } => {}
    }
    Ok(())
}

/// Appends the header of the packet with this head and a tail of so many bytes, which is to come
/// behind it, and makes room for the tail.
///
/// `Short`, `Version`, `Kind` and `Length` are no answers of this call.
pub fn encode_head(out: &mut Vec<u8>, head: &Head, tail_len: usize) -> Result<(), CodecErr>
    requires fits { FitsFragment head.now }

    // With its tail behind it, it is the one spelling, which can be read again.
    ensures ok { (tail : List ℕ) → length tail ≡ tail_len →
        OnOk result (out.new.items ++ tail ≡ out.old.items ++ spelling head.now tail) }
    ensures written { (tail : List ℕ) → length tail ≡ tail_len →
        OnOk result (HasSpelling head.now tail) }
    ensures room { OnOk result (vec_len out.new + tail_len ≤ vec_capacity out.new) }

    // A refusal has its cause, comes wherever that applies (memory aside), and changes nothing.
    ensures cause { (tail : List ℕ) → length tail ≡ tail_len →
        IfErr result (HasObstacle head.now tail) }
    ensures long { (tail : List ℕ) → length tail ≡ tail_len → IsTooLong head.now tail →
        IsErrOf result (CodecErr.Long tail_len) }
    ensures stray { (tail : List ℕ) → length tail ≡ tail_len → HasStrayTail head.now tail →
        IsErrOf result (CodecErr.Tail tail_len) }
    ensures err { OnErr result (out.new.items ≡ out.old.items) }
{
    check_tail(head, tail_len)?;
    out.reserve(LONGEST_HEADER.saturating_add(tail_len))?;
    put_header(out, head, tail_len);
    Ok(())
}

/// Appends the packet with this head and tail.
///
/// Flags may have any value. `Short`, `Version`, `Kind` and `Length` are no answers of this call.
pub fn encode(out: &mut Vec<u8>, head: &Head, tail: &[u8]) -> Result<(), CodecErr>
    requires fits { FitsFragment head.now }

    // What is appended is the one spelling, which can be read again.
    ensures ok { OnOk result (out.new.items ≡ out.old.items ++ spelling head.now tail.now) }
    ensures written { OnOk result (HasSpelling head.now tail.now) }

    // A refusal has its cause, comes wherever that applies (memory aside), and changes nothing.
    ensures cause { IfErr result (HasObstacle head.now tail.now) }
    ensures long { IsTooLong head.now tail.now →
        IsErrOf result (CodecErr.Long (length tail.now)) }
    ensures stray { HasStrayTail head.now tail.now →
        IsErrOf result (CodecErr.Tail (length tail.now)) }
    ensures err { OnErr result (out.new.items ≡ out.old.items) }
{
    encode_head(out, head, tail.len())?;
    put(out, tail);
    Ok(())
}
