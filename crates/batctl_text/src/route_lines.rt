//! The lines of routes over time: a route that came or was lost, and loops that are new or gone.

ghost use Rattle.std.specs.Prelude.{◌≡◌, ◌++◌, OnOk, OnErr, codes, take};
ghost use Rattle.mesh_model.specs.Loops.Reports.{clear_line, line_on, loop_line, nodes_text};
ghost use Rattle.mesh_model.specs.Text.Routes.{next_text, route_text};
ghost use Rattle.batctl_text.specs.Inner.Parts.{part_text};

use crate::line_text::LineText;
use crate::part::Part::{self, Address, Number, Text};
use crate::part::put_part;
use crate::whole_line::put_line;
use mesh_base::{Mac, Millis, NoMemory};
use mesh_model::{Loop, RouteLine};

// A next node, or that there is none.
fn next_part(next: Option<Mac>) -> Part<'static>
    ensures { part_text result ≡ next_text next }
{
    match next {
        None => Text(b" -"),
        Some(next) => Address(b" ", next),
    }
}

/// Appends the line of a route.
#[tactic(auto, unfolding(mesh_model::specs::Text::Routes::route_text))]
pub fn route_line(out: &mut Vec<u8>, line: RouteLine) -> Result<(), NoMemory>
    ensures ok { OnOk result (out.new.items ≡ out.old.items ++ route_text line) }
    ensures err { OnErr result (out.new.items ≡ out.old.items) }
{
    put_line(
        out,
        &[
            Number(b"route ", line.moment),
            Address(b" ", line.node),
            Address(b" ", line.orig),
            next_part(line.next),
        ],
    )
}

// Appends nodes, each behind a space.
fn put_nodes(line: &mut LineText, nodes: &[Mac]) -> Result<(), NoMemory>
    ensures { OnOk result (line.new ≡ line.old ++ nodes_text nodes.now) }
{
    for node in nodes {
        put_part(line, &Address(b" ", *node))?;
    }
    Ok(())
}

// Appends the line on a loop that names these of its nodes.
fn put_line_on(
    out: &mut Vec<u8>,
    word: &[u8],
    moment: Millis,
    orig: Mac,
    nodes: &[Mac],
) -> Result<(), NoMemory>
    ensures ok { OnOk result (out.new.items
        ≡ out.old.items ++ line_on word.now moment orig nodes.now) }
    ensures err { OnErr result (out.new.items ≡ out.old.items) }
{
    let mut line = LineText::new(*out.allocator());
    put_part(&mut line, &Number(word, moment))?;
    put_part(&mut line, &Address(b" ", orig))?;
    put_nodes(&mut line, nodes)?;
    line.end(out)?;
    Ok(())
}

// The first node, or none.
fn first_of(nodes: &[Mac]) -> &[Mac]
    ensures { result.now ≡ take 1 nodes.now }
{
    match nodes {
        [] => nodes,
        [..] => &nodes[..1],
    }
}

/// Appends the line of a loop that is gone, with its least node.
#[tactic(auto, unfolding(mesh_model::specs::Loops::Reports::clear_line))]
pub fn clear_line(out: &mut Vec<u8>, moment: Millis, route_loop: &Loop) -> Result<(), NoMemory>
    ensures ok { OnOk result (out.new.items
        ≡ out.old.items ++ clear_line moment route_loop.now) }
    ensures err { OnErr result (out.new.items ≡ out.old.items) }
{
    let nodes = first_of(route_loop.nodes.as_slice());
    put_line_on(out, b"clear ", moment, route_loop.orig, nodes)
}

/// Appends the line of a loop that is new, with all its nodes.
#[tactic(auto, unfolding(mesh_model::specs::Loops::Reports::loop_line))]
pub fn loop_line(out: &mut Vec<u8>, moment: Millis, route_loop: &Loop) -> Result<(), NoMemory>
    ensures ok { OnOk result (out.new.items
        ≡ out.old.items ++ loop_line moment route_loop.now) }
    ensures err { OnErr result (out.new.items ≡ out.old.items) }
{
    let nodes = route_loop.nodes.as_slice();
    put_line_on(out, b"loop ", moment, route_loop.orig, nodes)
}
