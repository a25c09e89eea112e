ghost use Rattle.std.specs.Prelude.{◌≡◌, ◌≤◌, ◌<◌, ◌+◌, ◌∷◌, length, sum_by, Ok, Err, IfOk, IfErr};
ghost use Rattle.mesh_model.specs.Packets.Layout.{HasSpelling};
ghost use Rattle.mesh_model.specs.Packets.Numbers.{compat_version};
ghost use Rattle.mesh_model.specs.Packets.Shapes.{field_size, header_size, shape_of_type};
ghost use Rattle.mesh_model.specs.Packets.FirstPacket.{first_packet, packet_of_shape, packet_cut};
ghost use Rattle.mesh_codec.specs.Inner.Reading.{seen_front, extent_length, HasRead, IsHeader};

use crate::header::{
    Extent, Header, bcast, elp, frag, icmp, iv_ogm, ogm2, unicast, unicast4, utvlv,
};
use crate::numbers::{
    BCAST, BCAST_SIZE, ELP, ELP_SIZE, FRAG, FRAG_SIZE, ICMP, ICMP_SIZE, IV_OGM, IV_OGM_SIZE, OGM2,
    OGM2_SIZE, PREFIX, UNICAST, UNICAST_SIZE, UNICAST4, UNICAST4_SIZE, UTVLV, UTVLV_SIZE, VERSION,
};
use mesh_model::{Head, NoPacket};

/// A packet where it lies: its head and its tail.
#[derive(Clone, Copy, Debug, PartialEq, Eq)]
pub struct Packet<'a> {
    pub head: Head,
    pub tail: &'a [u8],
}

/// A packet at the front of bytes, and the bytes after it.
#[derive(Clone, Copy)]
pub struct Front<'a> {
    pub packet: Packet<'a>,
    pub rest: &'a [u8],
}

// The bytes after type and version, where there are those of a header of this size.
fn whole(fields: &[u8], size: usize) -> Result<&[u8], NoPacket>
    requires { PREFIX ≤ size }
    ensures ok { IfOk result (λ whole.
        (whole.now ≡ fields.now) × (size ≤ PREFIX + length fields.now)) }
    ensures short { IfErr result (λ cause.
        (cause ≡ NoPacket.Short (PREFIX + length fields.now) size)
        × (PREFIX + length fields.now < size)) }
{
    let have = PREFIX + fields.len();
    if have < size {
        return Err(NoPacket::Short { have, need: size });
    }
    Ok(fields)
}

// The header of the kind with this type byte, from the bytes after type and version.
#[inline(always)]
fn header_in(kind: u8, fields: &[u8]) -> Result<Header<'_>, NoPacket>
    ensures ok { IfOk result (λ header. IsHeader (shape_of_type kind) fields.now header) }
    ensures err { IfErr result (λ cause.
        packet_of_shape kind (shape_of_type kind) (kind ∷ compat_version ∷ fields.now)
        ≡ Err cause) }
{
    match kind {
        IV_OGM => Ok(iv_ogm(whole(fields, IV_OGM_SIZE)?)),
        BCAST => Ok(bcast(whole(fields, BCAST_SIZE)?)),
        ELP => Ok(elp(whole(fields, ELP_SIZE)?)),
        OGM2 => Ok(ogm2(whole(fields, OGM2_SIZE)?)),
        UNICAST => Ok(unicast(whole(fields, UNICAST_SIZE)?)),
        FRAG => Ok(frag(whole(fields, FRAG_SIZE)?)),
        UNICAST4 => Ok(unicast4(whole(fields, UNICAST4_SIZE)?)),
        ICMP => Ok(icmp(whole(fields, ICMP_SIZE)?)),
        UTVLV => Ok(utvlv(whole(fields, UTVLV_SIZE)?)),
        byte => Err(NoPacket::Kind { byte }),
    }
}

// The packet of a header, whose tail is in the bytes after it.
fn cut(header: Header<'_>) -> Result<Front<'_>, NoPacket>
    ensures ok { IfOk result (λ front. packet_cut header.entry.head
        (extent_length header.entry.extent (length header.entry.rest.now)) header.entry.rest.now
        ≡ Ok (seen_front front)) }
    ensures err { IfErr result (λ cause. packet_cut header.entry.head
        (extent_length header.entry.extent (length header.entry.rest.now)) header.entry.rest.now
        ≡ Err cause) }
{
    let left = header.rest.len();
    let len = match header.extent {
        Extent::Told(told) => usize::from(told),
        Extent::Rest => left,
        Extent::Nothing => 0,
    };
    if left < len {
        return Err(NoPacket::Length { told: len, left });
    }
    let (tail, rest) = header.rest.split_at(len);
    let packet = Packet {
        head: header.head,
        tail,
    };
    Ok(Front { packet, rest })
}

/// The packet that the bytes begin with, or why there is none.
#[inline(always)]
pub fn first_packet(bytes: &[u8]) -> Result<Front<'_>, NoPacket>
    ensures ok { IfOk result (λ front. first_packet bytes.now ≡ Ok (seen_front front)) }
    ensures written { IfOk result (λ front. HasSpelling front.packet.head front.packet.tail.now) }
    ensures err { IfErr result (λ cause. first_packet bytes.now ≡ Err cause) }
{
    let [kind, version, fields @ ..] = bytes else {
        return Err(NoPacket::Short {
            have: bytes.len(),
            need: PREFIX,
        });
    };
    if *version != VERSION {
        return Err(NoPacket::Version { byte: *version });
    }
    cut(header_in(*kind, fields)?)
}
