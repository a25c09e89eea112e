ghost use Rattle.std.specs.Prelude.{ℕ, List, IfOk, IfErr, IsOkAnd, IsErrOf};
ghost use Rattle.mesh_model.specs.declared.packet.Head.{Head};
ghost use Rattle.mesh_model.specs.Packets.Layout.{IsPacket};
ghost use Rattle.mesh_codec.specs.declared.failure.CodecErr.{CodecErr};
ghost use Rattle.mesh_codec.specs.Decoding.{HasCause, IsSame};

use crate::failure::CodecErr;
use crate::first_packet::first_packet;
use mesh_model::Head;

/// The packet that begins the bytes: its head, its tail where it lies, and how many bytes it uses.
///
/// Containers are as long as the header tells, and a message of ELP or ICMP has no tail; bytes may
/// follow these. The other kinds use all the bytes. Takes no memory: `Long`, `Tail` and `Memory`
/// are no answers of this call.
pub fn decode(bytes: &[u8]) -> Result<(Head, &[u8], usize), CodecErr>
    // What is answered is the packet that begins the bytes, and where one does it is answered.
    ensures ok { IfOk result (λ packet. IsPacket bytes.now packet.0 packet.1.now packet.2) }
    ensures only { (head : Head) (tail : List ℕ) (used : ℕ) → IsPacket bytes.now head tail used →
        IsOkAnd result (λ packet. IsSame packet head tail used) }

    // A refusal is the first cause for which none does, and where a cause applies it is answered.
    ensures cause { IfErr result (HasCause bytes.now) }
    ensures refused { (error : CodecErr) → HasCause bytes.now error → IsErrOf result error }
{
    let front = first_packet(bytes)?;
    let used = bytes.len() - front.rest.len();
    Ok((front.packet.head, front.packet.tail, used))
}
