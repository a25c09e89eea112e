//! The headers of the nine kinds, put at the end of a list that has room for them.

ghost use Rattle.std.specs.Prelude.{◌≡◌, ℕ, ◌+◌, ◌≤◌};
ghost use Rattle.std.specs.List.{flat_map};
ghost use Rattle.std.specs.Vec.{vec_len};
ghost use Rattle.mesh_model.specs.declared.packet.Head.TheVariants.{IvOgm, Bcast, Elp, Ogm2, Unicast, Frag, Unicast4, Icmp, Utvlv};
ghost use Rattle.mesh_model.specs.Packets.Layout.{header_of, part_spelling, FitsFragmentByte};
ghost use Rattle.mesh_codec.specs.Encoding.{FitsFragment};
ghost use Rattle.mesh_codec.specs.Inner.Writing.{HasRoom, PutsHeader, PutsParts, CanTell};

use crate::numbers::{
    BCAST, BCAST_SIZE, ELP, ELP_SIZE, FRAG, FRAG_SIZE, ICMP, ICMP_SIZE, IV_OGM, IV_OGM_SIZE,
    LONGEST_HEADER, OGM2, OGM2_SIZE, UNICAST, UNICAST_SIZE, UNICAST4, UNICAST4_SIZE, UTVLV,
    UTVLV_SIZE, VERSION,
};
use crate::put::{put, put_fragment, put_mac, put_reserved, put_u8, put_u16, put_u32};
use mesh_base::Mac;
use mesh_model::Head;

// The header of an originator message of algorithm IV, in one piece: most packets have it.
fn iv_ogm_bytes(
    ttl: u8,
    flags: u8,
    seq: u32,
    orig: Mac,
    prev: Mac,
    tq: u8,
    told: u16,
) -> [u8; IV_OGM_SIZE]
    ensures { result
        ≡ flat_map part_spelling (header_of (IvOgm ttl flags seq orig prev tq) told) }
{
    let [s, e, q, n] = seq.to_be_bytes();
    let [a, b, c, d, f, g] = orig.0;
    let [h, i, j, k, l, m] = prev.0;
    let [high, low] = told.to_be_bytes();
    [
        IV_OGM, VERSION, ttl, flags, s, e, q, n, a, b, c, d, f, g, h, i, j, k, l, m, 0, tq, high,
        low,
    ]
}

fn put_iv_ogm(
    out: &mut Vec<u8>,
    ttl: u8,
    flags: u8,
    seq: u32,
    orig: Mac,
    prev: Mac,
    tq: u8,
    told: u16,
)
    requires room { HasRoom out.old IV_OGM_SIZE }
    ensures parts { PutsHeader out.old (header_of (IvOgm ttl flags seq orig prev tq) told)
        out.new }
    ensures len { vec_len out.new ≡ vec_len out.old + IV_OGM_SIZE }
{
    put(out, &iv_ogm_bytes(ttl, flags, seq, orig, prev, tq, told));
}

fn put_bcast(out: &mut Vec<u8>, ttl: u8, seq: u32, orig: Mac)
    requires room { HasRoom out.old BCAST_SIZE }
    ensures parts { (told : ℕ) → PutsParts out.old (header_of (Bcast ttl seq orig) told) out.new }
    ensures len { vec_len out.new ≡ vec_len out.old + BCAST_SIZE }
{
    put_u8(out, BCAST);
    put_u8(out, VERSION);
    put_u8(out, ttl);
    put_reserved(out, 1);
    put_u32(out, seq);
    put_mac(out, orig);
}

fn put_elp(out: &mut Vec<u8>, orig: Mac, seq: u32, interval: u32)
    requires room { HasRoom out.old ELP_SIZE }
    ensures parts { (told : ℕ) →
        PutsParts out.old (header_of (Elp orig seq interval) told) out.new }
    ensures len { vec_len out.new ≡ vec_len out.old + ELP_SIZE }
{
    put_u8(out, ELP);
    put_u8(out, VERSION);
    put_mac(out, orig);
    put_u32(out, seq);
    put_u32(out, interval);
}

fn put_ogm2(out: &mut Vec<u8>, ttl: u8, flags: u8, seq: u32, orig: Mac, told: u16, throughput: u32)
    requires room { HasRoom out.old OGM2_SIZE }
    ensures parts { PutsParts out.old
        (header_of (Ogm2 ttl flags seq orig throughput) told) out.new }
    ensures len { vec_len out.new ≡ vec_len out.old + OGM2_SIZE }
{
    put_u8(out, OGM2);
    put_u8(out, VERSION);
    put_u8(out, ttl);
    put_u8(out, flags);
    put_u32(out, seq);
    put_mac(out, orig);
    put_u16(out, told);
    put_u32(out, throughput);
}

fn put_unicast(out: &mut Vec<u8>, ttl: u8, ttvn: u8, dst: Mac)
    requires room { HasRoom out.old UNICAST_SIZE }
    ensures parts { (told : ℕ) → PutsParts out.old (header_of (Unicast ttl ttvn dst) told) out.new }
    ensures len { vec_len out.new ≡ vec_len out.old + UNICAST_SIZE }
{
    put_u8(out, UNICAST);
    put_u8(out, VERSION);
    put_u8(out, ttl);
    put_u8(out, ttvn);
    put_mac(out, dst);
}

fn put_frag(
    out: &mut Vec<u8>,
    ttl: u8,
    number: u8,
    priority: u8,
    dst: Mac,
    orig: Mac,
    seq: u16,
    total: u16,
)
    requires fits { FitsFragmentByte number priority }
    requires room { HasRoom out.old FRAG_SIZE }
    ensures parts { (told : ℕ) →
        PutsParts out.old (header_of (Frag ttl number priority dst orig seq total) told) out.new }
    ensures len { vec_len out.new ≡ vec_len out.old + FRAG_SIZE }
{
    put_u8(out, FRAG);
    put_u8(out, VERSION);
    put_u8(out, ttl);
    put_fragment(out, number, priority);
    put_mac(out, dst);
    put_mac(out, orig);
    put_u16(out, seq);
    put_u16(out, total);
}

fn put_unicast4(out: &mut Vec<u8>, ttl: u8, ttvn: u8, dst: Mac, src: Mac, subtype: u8)
    requires room { HasRoom out.old UNICAST4_SIZE }
    ensures parts { (told : ℕ) →
        PutsParts out.old (header_of (Unicast4 ttl ttvn dst src subtype) told) out.new }
    ensures len { vec_len out.new ≡ vec_len out.old + UNICAST4_SIZE }
{
    put_u8(out, UNICAST4);
    put_u8(out, VERSION);
    put_u8(out, ttl);
    put_u8(out, ttvn);
    put_mac(out, dst);
    put_mac(out, src);
    put_u8(out, subtype);
    put_reserved(out, 1);
}

fn put_icmp(out: &mut Vec<u8>, ttl: u8, msg: u8, dst: Mac, orig: Mac, uid: u8, seq: u16)
    requires room { HasRoom out.old ICMP_SIZE }
    ensures parts { (told : ℕ) →
        PutsParts out.old (header_of (Icmp ttl msg dst orig uid seq) told) out.new }
    ensures len { vec_len out.new ≡ vec_len out.old + ICMP_SIZE }
{
    put_u8(out, ICMP);
    put_u8(out, VERSION);
    put_u8(out, ttl);
    put_u8(out, msg);
    put_mac(out, dst);
    put_mac(out, orig);
    put_u8(out, uid);
    put_reserved(out, 1);
    put_u16(out, seq);
}

fn put_utvlv(out: &mut Vec<u8>, ttl: u8, dst: Mac, src: Mac, told: u16)
    requires room { HasRoom out.old UTVLV_SIZE }
    ensures parts { PutsParts out.old (header_of (Utvlv ttl dst src) told) out.new }
    ensures len { vec_len out.new ≡ vec_len out.old + UTVLV_SIZE }
{
    put_u8(out, UTVLV);
    put_u8(out, VERSION);
    put_u8(out, ttl);
    put_reserved(out, 1);
    put_mac(out, dst);
    put_mac(out, src);
    put_u16(out, told);
    put_reserved(out, 2);
}

/// The header of a head, whose tail has this length.
pub fn put_header(out: &mut Vec<u8>, head: &Head, tail_len: usize)
    requires fits { FitsFragment head.now }
    requires told { CanTell head.now tail_len }
    requires room { HasRoom out.old LONGEST_HEADER }
    ensures parts { PutsHeader out.old (header_of head.now tail_len) out.new }
    ensures len { vec_len out.new ≤ vec_len out.old + LONGEST_HEADER }
{
    match *head {
        Head::IvOgm {
            ttl,
            flags,
            seq,
            orig,
            prev,
            tq,
        } => put_iv_ogm(out, ttl, flags, seq, orig, prev, tq, tail_len as u16),
        Head::Bcast { ttl, seq, orig } => put_bcast(out, ttl, seq, orig),
        Head::Elp {
            orig,
            seq,
            interval,
        } => put_elp(out, orig, seq, interval),
        Head::Ogm2 {
            ttl,
            flags,
            seq,
            orig,
            throughput,
        } => put_ogm2(out, ttl, flags, seq, orig, tail_len as u16, throughput),
        Head::Unicast { ttl, ttvn, dst } => put_unicast(out, ttl, ttvn, dst),
        Head::Frag {
            ttl,
            number,
            priority,
            dst,
            orig,
            seq,
            total,
        } => put_frag(out, ttl, number, priority, dst, orig, seq, total),
        Head::Unicast4 {
            ttl,
            ttvn,
            dst,
            src,
            subtype,
        } => put_unicast4(out, ttl, ttvn, dst, src, subtype),
        Head::Icmp {
            ttl,
            msg,
            dst,
            orig,
            uid,
            seq,
        } => put_icmp(out, ttl, msg, dst, orig, uid, seq),
        Head::Utvlv { ttl, dst, src } => put_utvlv(out, ttl, dst, src, tail_len as u16),
    }
}
