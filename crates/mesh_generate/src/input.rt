ghost use Rattle.std.specs.Prelude.{◌≡◌, ◌<◌, ◌≤◌, ◌++◌, IfOk, OnOk};
ghost use Rattle.mesh_model.specs.Run.CommandLine.{most_nodes};
ghost use Rattle.mesh_model.specs.Run.Generated.{generated_input, next_drawn, node_lines, ring_lines, second_lines, traffic_lines};

use crate::drawing::{SERIES_END, draw, next_drawn};
use crate::lines::{put_frame_line, put_link_line, put_node_line};
use mesh_base::NoMemory;
use std::alloc::Global;

/// How many seconds are generated.
const SECONDS: u8 = 60;

/// Appends the lines of the nodes.
fn put_nodes(out: &mut Vec<u8>, nodes: u8) -> Result<(), NoMemory>
    ensures { OnOk result (out.new.items ≡ out.old.items ++ node_lines nodes) }
{
    for place in 0..nodes {
        put_node_line(out, place)?;
    }
    Ok(())
}

/// Appends the links between each node of the ring and the next.
fn put_ring(out: &mut Vec<u8>, nodes: u8) -> Result<(), NoMemory>
    ensures { OnOk result (out.new.items ≡ out.old.items ++ ring_lines nodes nodes) }
{
    for place in 0..nodes {
        let next = (place + 1) % nodes;
        put_link_line(out, place, next)?;
        put_link_line(out, next, place)?;
    }
    Ok(())
}

/// Appends the lines of a second of this number, before which the series stood at `x`. Answers
/// where it stands behind them.
#[tactic(auto, unfolding(mesh_model::specs::Run::Generated::second_lines))]
fn put_second(out: &mut Vec<u8>, nodes: u8, second: u8, x: u64) -> Result<u64, NoMemory>
    requires some { 0 < nodes }
    requires few { nodes ≤ most_nodes }
    requires within { x < SERIES_END }
    ensures lines { OnOk result (out.new.items
        ≡ out.old.items ++ second_lines nodes second x) }
    ensures x { IfOk result (λ behind. behind ≡ next_drawn (next_drawn x)) }
    ensures within { IfOk result (λ behind. behind < SERIES_END) }
{
    let first = next_drawn(x);
    let client = draw(4 * u64::from(nodes), first);
    let behind = next_drawn(first);
    let place = draw(u64::from(nodes), behind);
    put_frame_line(out, client, place, second)?;
    out.extend_from_slice(b"run 1000\n")?;
    Ok(behind)
}

/// Appends the lines of the first seconds, so many.
fn put_traffic(out: &mut Vec<u8>, nodes: u8, seconds: u8) -> Result<(), NoMemory>
    requires some { 0 < nodes }
    requires few { nodes ≤ most_nodes }
    ensures { OnOk result (out.new.items ≡ out.old.items ++ traffic_lines nodes seconds) }
{
    let mut x = u64::from(nodes);
    for second in 0..seconds {
        x = put_second(out, nodes, second + 1, x)?;
    }
    Ok(())
}

/// The lines of a mesh of so many nodes, 1 to 64.
#[tactic(auto, unfolding(mesh_model::specs::Run::Generated::generated_input))]
pub fn generated_input(alloc: Global, nodes: u8) -> Result<Vec<u8>, NoMemory>
    requires some { 0 < nodes }
    requires few { nodes ≤ most_nodes }
    ensures { IfOk result (λ lines. lines.items ≡ generated_input nodes) }
{
    let mut lines = Vec::new(alloc);
    lines.extend_from_slice(b"algo iv\n")?;
    put_nodes(&mut lines, nodes)?;
    put_ring(&mut lines, nodes)?;
    put_traffic(&mut lines, nodes, SECONDS)?;
    Ok(lines)
}
