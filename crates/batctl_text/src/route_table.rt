//! The originators and the neighbours of a node.

ghost use Rattle.std.specs.Prelude.{◌≡◌, ◌++◌, codes, OnOk, OnErr};
ghost use Rattle.mesh_model.specs.declared.route.LinkRow.TheVariants.{Iv as IvLink, V as VLink};
ghost use Rattle.mesh_model.specs.Text.Tables.{algorithm_word, neighbor_line, orig_line, route_header};

use crate::part::Part::{Address, Hop, Number, Text};
use crate::whole_line::put_line;
use mesh_base::{Mac, Millis, NoMemory};
use mesh_model::Algorithm;

// The word of an algorithm.
fn algorithm_word(algorithm: Algorithm) -> &'static [u8]
    ensures { result.now ≡ algorithm_word algorithm }
{
    match algorithm {
        Algorithm::Iv => b"iv",
        Algorithm::V => b"v",
    }
}

// Appends the first line of a table with this letter.
#[tactic(auto, unfolding(mesh_model::specs::Text::Tables::route_header))]
fn route_header<'a>(
    out: &mut Vec<u8>,
    letter: &'a [u8],
    name: &'a [u8],
    algorithm: Algorithm,
    count: usize,
) -> Result<(), NoMemory>
    ensures ok { OnOk result (out.new.items
        ≡ out.old.items ++ route_header letter.now name.now algorithm count) }
    ensures err { OnErr result (out.new.items ≡ out.old.items) }
{
    put_line(
        out,
        &[
            Text(letter),
            Text(b" "),
            Text(name),
            Text(b" algo="),
            Text(algorithm_word(algorithm)),
            Number(b" count=", count as u64),
        ],
    )
}

/// Appends the first line of a table of originators: the node's name, its algorithm, and how many
/// originators follow.
pub fn orig_header(
    out: &mut Vec<u8>,
    name: &[u8],
    algorithm: Algorithm,
    count: usize,
) -> Result<(), NoMemory>
    ensures ok { OnOk result (out.new.items
        ≡ out.old.items ++ route_header (codes "o") name.now algorithm count) }
    ensures err { OnErr result (out.new.items ≡ out.old.items) }
{
    route_header(out, b"o", name, algorithm, count)
}

/// Appends the line of a live originator: its address, its newest number, the milliseconds since it
/// was last heard, the best neighbour to it, if there is a route, and that neighbour's metric.
#[tactic(auto, unfolding(mesh_model::specs::Text::Tables::orig_line))]
pub fn orig_line(
    out: &mut Vec<u8>,
    orig: Mac,
    seq: u32,
    seen: Millis,
    next: Option<Mac>,
    metric: u32,
) -> Result<(), NoMemory>
    ensures ok { OnOk result (out.new.items ≡ out.old.items ++ orig_line (record {
      orig = orig;
      seq = seq;
      seen = seen;
      next = next;
      metric = metric;
    })) }
    ensures err { OnErr result (out.new.items ≡ out.old.items) }
{
    put_line(
        out,
        &[
            Address(b"o ", orig),
            Number(b" seq=", u64::from(seq)),
            Number(b" seen=", seen),
            Text(b" next="),
            Hop(next),
            Number(b" metric=", u64::from(metric)),
        ],
    )
}

/// Appends the first line of a table of neighbours: the node's name, its algorithm, and how many
/// neighbours follow.
pub fn link_header(
    out: &mut Vec<u8>,
    name: &[u8],
    algorithm: Algorithm,
    count: usize,
) -> Result<(), NoMemory>
    ensures ok { OnOk result (out.new.items
        ≡ out.old.items ++ route_header (codes "n") name.now algorithm count) }
    ensures err { OnErr result (out.new.items ≡ out.old.items) }
{
    route_header(out, b"n", name, algorithm, count)
}

/// Appends the line of a neighbour under algorithm IV: its address, how many of its numbers were
/// received, and how many own ones came back.
#[tactic(auto, unfolding(mesh_model::specs::Text::Tables::neighbor_line))]
pub fn iv_link_line(out: &mut Vec<u8>, neigh: Mac, rq: u32, eq: u32) -> Result<(), NoMemory>
    ensures ok { OnOk result (out.new.items ≡ out.old.items ++ neighbor_line (IvLink neigh rq eq)) }
    ensures err { OnErr result (out.new.items ≡ out.old.items) }
{
    put_line(
        out,
        &[
            Address(b"n ", neigh),
            Number(b" rq=", u64::from(rq)),
            Number(b" eq=", u64::from(eq)),
        ],
    )
}

/// Appends the line of a neighbour under algorithm V: its address, the throughput to it, and the
/// milliseconds since its last ELP.
#[tactic(auto, unfolding(mesh_model::specs::Text::Tables::neighbor_line))]
pub fn v_link_line(out: &mut Vec<u8>, neigh: Mac, tp: u32, seen: Millis) -> Result<(), NoMemory>
    ensures ok { OnOk result (out.new.items
        ≡ out.old.items ++ neighbor_line (VLink neigh tp seen)) }
    ensures err { OnErr result (out.new.items ≡ out.old.items) }
{
    put_line(
        out,
        &[
            Address(b"n ", neigh),
            Number(b" tp=", u64::from(tp)),
            Number(b" seen=", seen),
        ],
    )
}
