//! The headers of the nine kinds: each reader takes the bytes after type and version.

ghost use Rattle.std.specs.Prelude.{◌≡◌, ◌≤◌, ◌+◌, ◌∷◌, length, sum_by, Err, IfOk, IfErr};
ghost use Rattle.mesh_model.specs.Packets.Shapes.{field_size, iv_ogm, bcast, elp, ogm2, unicast, frag, unicast4, icmp, utvlv};
ghost use Rattle.mesh_codec.specs.Inner.Reading.{HasRead};

use crate::cursor::Cursor;
use mesh_model::Head;

/// How far the tail of a packet goes.
#[derive(Clone, Copy)]
pub enum Extent {
    /// So many bytes of containers.
    Told(u16),
    /// All the rest of the bytes.
    Rest,
    /// No tail.
    Nothing,
}

/// A header that was read, and the bytes after it.
#[derive(Clone, Copy)]
pub struct Header<'a> {
    pub head: Head,
    pub extent: Extent,
    pub rest: &'a [u8],
}

pub fn iv_ogm(fields: &[u8]) -> Header<'_>
    requires { sum_by field_size iv_ogm.fields ≤ length fields.now }
    ensures { HasRead iv_ogm fields.now result }
{
    let mut fields = Cursor::new(fields);
    let ttl = fields.u8();
    let flags = fields.u8();
    let seq = fields.u32();
    let orig = fields.mac();
    let prev = fields.mac();
    fields.skip(1);
    let tq = fields.u8();
    let told = fields.u16();
    let head = Head::IvOgm {
        ttl,
        flags,
        seq,
        orig,
        prev,
        tq,
    };
    Header {
        head,
        extent: Extent::Told(told),
        rest: fields.left(),
    }
}

pub fn bcast(fields: &[u8]) -> Header<'_>
    requires { sum_by field_size bcast.fields ≤ length fields.now }
    ensures { HasRead bcast fields.now result }
{
    let mut fields = Cursor::new(fields);
    let ttl = fields.u8();
    fields.skip(1);
    let seq = fields.u32();
    let orig = fields.mac();
    let head = Head::Bcast { ttl, seq, orig };
    Header {
        head,
        extent: Extent::Rest,
        rest: fields.left(),
    }
}

pub fn elp(fields: &[u8]) -> Header<'_>
    requires { sum_by field_size elp.fields ≤ length fields.now }
    ensures { HasRead elp fields.now result }
{
    let mut fields = Cursor::new(fields);
    let orig = fields.mac();
    let seq = fields.u32();
    let interval = fields.u32();
    let head = Head::Elp {
        orig,
        seq,
        interval,
    };
    Header {
        head,
        extent: Extent::Nothing,
        rest: fields.left(),
    }
}

pub fn ogm2(fields: &[u8]) -> Header<'_>
    requires { sum_by field_size ogm2.fields ≤ length fields.now }
    ensures { HasRead ogm2 fields.now result }
{
    let mut fields = Cursor::new(fields);
    let ttl = fields.u8();
    let flags = fields.u8();
    let seq = fields.u32();
    let orig = fields.mac();
    let told = fields.u16();
    let throughput = fields.u32();
    let head = Head::Ogm2 {
        ttl,
        flags,
        seq,
        orig,
        throughput,
    };
    Header {
        head,
        extent: Extent::Told(told),
        rest: fields.left(),
    }
}

pub fn unicast(fields: &[u8]) -> Header<'_>
    requires { sum_by field_size unicast.fields ≤ length fields.now }
    ensures { HasRead unicast fields.now result }
{
    let mut fields = Cursor::new(fields);
    let ttl = fields.u8();
    let ttvn = fields.u8();
    let dst = fields.mac();
    let head = Head::Unicast { ttl, ttvn, dst };
    Header {
        head,
        extent: Extent::Rest,
        rest: fields.left(),
    }
}

pub fn frag(fields: &[u8]) -> Header<'_>
    requires { sum_by field_size frag.fields ≤ length fields.now }
    ensures { HasRead frag fields.now result }
{
    let mut fields = Cursor::new(fields);
    let ttl = fields.u8();
    let fragment = fields.u8();
    let dst = fields.mac();
    let orig = fields.mac();
    let seq = fields.u16();
    let total = fields.u16();
    let head = Head::Frag {
        ttl,
        number: fragment >> 4,
        priority: (fragment >> 1) & 7,
        dst,
        orig,
        seq,
        total,
    };
    Header {
        head,
        extent: Extent::Rest,
        rest: fields.left(),
    }
}

pub fn unicast4(fields: &[u8]) -> Header<'_>
    requires { sum_by field_size unicast4.fields ≤ length fields.now }
    ensures { HasRead unicast4 fields.now result }
{
    let mut fields = Cursor::new(fields);
    let ttl = fields.u8();
    let ttvn = fields.u8();
    let dst = fields.mac();
    let src = fields.mac();
    let subtype = fields.u8();
    fields.skip(1);
    let head = Head::Unicast4 {
        ttl,
        ttvn,
        dst,
        src,
        subtype,
    };
    Header {
        head,
        extent: Extent::Rest,
        rest: fields.left(),
    }
}

pub fn icmp(fields: &[u8]) -> Header<'_>
    requires { sum_by field_size icmp.fields ≤ length fields.now }
    ensures { HasRead icmp fields.now result }
{
    let mut fields = Cursor::new(fields);
    let ttl = fields.u8();
    let msg = fields.u8();
    let dst = fields.mac();
    let orig = fields.mac();
    let uid = fields.u8();
    fields.skip(1);
    let seq = fields.u16();
    let head = Head::Icmp {
        ttl,
        msg,
        dst,
        orig,
        uid,
        seq,
    };
    Header {
        head,
        extent: Extent::Nothing,
        rest: fields.left(),
    }
}

pub fn utvlv(fields: &[u8]) -> Header<'_>
    requires { sum_by field_size utvlv.fields ≤ length fields.now }
    ensures { HasRead utvlv fields.now result }
{
    let mut fields = Cursor::new(fields);
    let ttl = fields.u8();
    fields.skip(1);
    let dst = fields.mac();
    let src = fields.mac();
    let told = fields.u16();
    fields.skip(2);
    let head = Head::Utvlv { ttl, dst, src };
    Header {
        head,
        extent: Extent::Told(told),
        rest: fields.left(),
    }
}
