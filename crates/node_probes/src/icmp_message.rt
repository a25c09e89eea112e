ghost use Rattle.std.specs.Prelude.{◌≡◌};
ghost use Rattle.mesh_model.specs.Acts.ProbeRows.{icmp_head};
ghost use Rattle.mesh_model.specs.Probes.OpenProbes.{is_answer};
ghost use Rattle.node_probes.specs.Icmp.{icmp_of};

use mesh_base::Mac;
use mesh_codec::Head;
use mesh_codec::numbers::{DESTINATION_UNREACHABLE, ECHO_REPLY, TTL_EXCEEDED};

/// A message of ping or traceroute, as its packet has it.
#[derive(Clone, Copy, Debug)]
pub struct IcmpMessage {
    pub ttl: u8,
    pub kind: u8,
    pub dst: Mac,
    pub orig: Mac,
    pub uid: u8,
    pub seq: u16,
}

impl IcmpMessage {
    /// The head of its packet.
    pub fn head(self) -> Head
        ensures { result ≡ icmp_head (icmp_of self) }
    {
        let IcmpMessage {
            ttl,
            kind,
            dst,
            orig,
            uid,
            seq,
        } = self;
        Head::Icmp {
            ttl,
            msg: kind,
            dst,
            orig,
            uid,
            seq,
        }
    }

    /// Whether it answers an echo request.
    pub fn is_answer(self) -> bool
        ensures { result ≡ is_answer self.kind }
    {
        self.kind == ECHO_REPLY || self.kind == DESTINATION_UNREACHABLE || self.kind == TTL_EXCEEDED
    }
}
