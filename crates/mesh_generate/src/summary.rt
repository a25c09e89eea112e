ghost use Rattle.std.specs.Prelude.{◌≡◌, ◌<◌, IfOk};
ghost use Rattle.mesh_model.specs.Run.Generated.{is_received, received_lines, summary_line};

use crate::terms::put_named_number;
use mesh_base::NoMemory;
use std::alloc::Global;

/// Whether a line is that of a frame that reached clients.
fn is_received(line: &[u8]) -> bool
    ensures { result ≡ is_received line.now }
{
    line.starts_with(b"recv ")
}

/// How many lines of frames that reached clients a text has.
#[tactic(auto, unfolding(mesh_model::specs::Run::Generated::received_lines))]
pub fn received_lines(text: &[u8]) -> usize
    ensures { result ≡ received_lines text.now }
{
    text.split(|byte| *byte == b'\n')
        .filter(|line| is_received(line))
        .count()
}

/// The counts of a mesh.
#[derive(Clone, Copy, Debug, PartialEq, Eq)]
pub struct Counts {
    pub nodes: u8,
    /// Link frames.
    pub frames: u32,
    /// Lines of frames that reached clients.
    pub received: usize,
    /// The commits with number 1 or more, over all nodes.
    pub commits: u128,
    /// The ordered pairs of nodes where the first counts the table of the second as ok.
    pub ok: u128,
}

/// The line of these counts.
#[tactic(auto, unfolding(mesh_model::specs::Run::Generated::summary_line))]
pub fn summary_line(alloc: Global, counts: Counts) -> Result<Vec<u8>, NoMemory>
    requires { 0 < counts.nodes }
    ensures { IfOk result (λ line. line.items
        ≡ summary_line counts.nodes counts.frames counts.received counts.commits counts.ok) }
{
    let mut line = Vec::new(alloc);
    let nodes = u128::from(counts.nodes);
    put_named_number(&mut line, b"generated nodes=", nodes)?;
    put_named_number(&mut line, b" frames=", u128::from(counts.frames))?;
    put_named_number(&mut line, b" recv=", counts.received as u128)?;
    put_named_number(&mut line, b" commits=", counts.commits)?;
    put_named_number(&mut line, b" ok=", counts.ok)?;
    put_named_number(&mut line, b" of=", nodes * (nodes - 1))?;
    line.extend_from_slice(b"\n")?;
    Ok(line)
}
