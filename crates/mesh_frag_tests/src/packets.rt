ghost use Rattle.std.specs.Prelude.{◌≡◌, ◌≤◌, ◌<◌, ◌^◌, length, IfOk, IsSome};
ghost use Rattle.mesh_model.specs.Fragments.Cutting.{reach_of};

use mesh_base::Mac;
use mesh_codec::encode;
use mesh_frag::Head;
use std::test::Fail;

/// The node that cuts.
pub const A: Mac = Mac([2, 0, 0, 0, 0, 10]);
/// The node that packets are for.
pub const B: Mac = Mac([2, 0, 0, 0, 0, 11]);
// The bytes of the header of a packet for one node.
const HEAD_SIZE: usize = 10;

/// A packet for B of this length.
pub fn packet_of(rt: &HostRuntime, size: usize) -> Result<Vec<u8>, Fail>
    requires { HEAD_SIZE ≤ size }
    ensures size { IfOk result (λ packet. length packet.items ≡ size) }
    ensures unicast { IfOk result (λ packet. IsSome (reach_of packet.items)) }
{
    let head = Head::Unicast {
        ttl: 50,
        ttvn: 1,
        dst: B,
    };
    let tail: Vec<u8> = (0..size - HEAD_SIZE)
        .map(|i| (i % 251) as u8)
        .collect(rt.alloc())?;
    let mut packet = Vec::new(rt.alloc());
    encode(&mut packet, &head, &tail)?;
    Ok(packet)
}
