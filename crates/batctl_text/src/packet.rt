//! The line of a packet, by its kind.

ghost use Rattle.std.specs.Prelude.{◌≡◌, ◌++◌, OnOk, OnErr};
ghost use Rattle.mesh_model.specs.Text.PacketLines.{packet_line};

use crate::part::Part::{Address, Flags, Number, Text};
use crate::whole_line::put_line;
use mesh_base::NoMemory;
use mesh_model::Head;

/// Appends the line of a packet with this head, whose tail has so many bytes.
#[tactic(auto, unfolding(mesh_model::specs::Text::PacketLines::packet_line))]
pub fn packet_line(out: &mut Vec<u8>, head: &Head, len: usize) -> Result<(), NoMemory>
    ensures ok { OnOk result (out.new.items ≡ out.old.items ++ packet_line head.now len) }
    ensures err { OnErr result (out.new.items ≡ out.old.items) }
{
    match *head {
        Head::IvOgm {
            ttl,
            flags,
            seq,
            orig,
            prev,
            tq,
        } => put_line(
            out,
            &[
                Text(b"packet "),
                Text(b"iv_ogm"),
                Number(b" ttl=", u64::from(ttl)),
                Flags(b" flags=", flags),
                Number(b" seq=", u64::from(seq)),
                Address(b" orig=", orig),
                Address(b" prev=", prev),
                Number(b" tq=", u64::from(tq)),
                Number(b" tvlv=", len as u64),
            ],
        ),
        Head::Bcast { ttl, seq, orig } => put_line(
            out,
            &[
                Text(b"packet "),
                Text(b"bcast"),
                Number(b" ttl=", u64::from(ttl)),
                Number(b" seq=", u64::from(seq)),
                Address(b" orig=", orig),
                Number(b" data=", len as u64),
            ],
        ),
        Head::Elp {
            orig,
            seq,
            interval,
        } => put_line(
            out,
            &[
                Text(b"packet "),
                Text(b"elp"),
                Address(b" orig=", orig),
                Number(b" seq=", u64::from(seq)),
                Number(b" interval=", u64::from(interval)),
            ],
        ),
        Head::Ogm2 {
            ttl,
            flags,
            seq,
            orig,
            throughput,
        } => put_line(
            out,
            &[
                Text(b"packet "),
                Text(b"ogm2"),
                Number(b" ttl=", u64::from(ttl)),
                Flags(b" flags=", flags),
                Number(b" seq=", u64::from(seq)),
                Address(b" orig=", orig),
                Number(b" tvlv=", len as u64),
                Number(b" tp=", u64::from(throughput)),
            ],
        ),
        Head::Unicast { ttl, ttvn, dst } => put_line(
            out,
            &[
                Text(b"packet "),
                Text(b"unicast"),
                Number(b" ttl=", u64::from(ttl)),
                Number(b" ttvn=", u64::from(ttvn)),
                Address(b" dst=", dst),
                Number(b" data=", len as u64),
            ],
        ),
        Head::Frag {
            ttl,
            number,
            priority,
            dst,
            orig,
            seq,
            total,
        } => put_line(
            out,
            &[
                Text(b"packet "),
                Text(b"frag"),
                Number(b" ttl=", u64::from(ttl)),
                Number(b" no=", u64::from(number)),
                Number(b" prio=", u64::from(priority)),
                Address(b" dst=", dst),
                Address(b" orig=", orig),
                Number(b" seq=", u64::from(seq)),
                Number(b" total=", u64::from(total)),
                Number(b" data=", len as u64),
            ],
        ),
        Head::Unicast4 {
            ttl,
            ttvn,
            dst,
            src,
            subtype,
        } => put_line(
            out,
            &[
                Text(b"packet "),
                Text(b"unicast4"),
                Number(b" ttl=", u64::from(ttl)),
                Number(b" ttvn=", u64::from(ttvn)),
                Address(b" dst=", dst),
                Address(b" src=", src),
                Number(b" sub=", u64::from(subtype)),
                Number(b" data=", len as u64),
            ],
        ),
        Head::Icmp {
            ttl,
            msg,
            dst,
            orig,
            uid,
            seq,
        } => put_line(
            out,
            &[
                Text(b"packet "),
                Text(b"icmp"),
                Number(b" ttl=", u64::from(ttl)),
                Number(b" msg=", u64::from(msg)),
                Address(b" dst=", dst),
                Address(b" orig=", orig),
                Number(b" uid=", u64::from(uid)),
                Number(b" seq=", u64::from(seq)),
            ],
        ),
        Head::Utvlv { ttl, dst, src } => put_line(
            out,
            &[
                Text(b"packet "),
                Text(b"utvlv"),
                Number(b" ttl=", u64::from(ttl)),
                Address(b" dst=", dst),
                Address(b" src=", src),
                Number(b" tvlv=", len as u64),
            ],
        ),
    }
}
