//! The run of generated lines: nothing of what they print is printed, but their counts.

ghost use Rattle.std.specs.Prelude.{◌≡◌, ◌<◌, ◌≤◌, IfOk, OnOk, IfErr};
ghost use Rattle.mesh_model.specs.Run.CommandLine.{most_nodes};
ghost use Rattle.mesh_run.specs.Inner.Generation.{GenerationFails, HasGeneratedCause, PrintsCounts, Summarizes, kept_fault};
ghost use Rattle.mesh_run.specs.Inner.Lines.{CountsWrites};

use crate::fault::Fault;
use crate::input::new_runner;
use crate::kept_text::KeptText;
use crate::output::put_text;
use mesh_base::{Failed, Sink};
use mesh_generate::{generated_input, summary_line};
use mesh_model::{FrameChoice, InputKind};
use std::alloc::Global;

/// A fault of a run whose output is kept: its writes fail for want of memory.
fn kept_fault(fault: Fault) -> Fault
    ensures { result ≡ kept_fault fault }
{
    match fault {
        Fault::Halted { line, stop } => Fault::Halted { line, stop },
        Fault::Read => Fault::Read,
        Fault::Write | Fault::Memory => Fault::Memory,
    }
}

/// Carries out the lines of a mesh of so many nodes, 1 to 64, and answers the line of their counts.
fn summary_of(alloc: Global, nodes: u8) -> Result<Vec<u8>, Fault>
    requires some { 0 < nodes }
    requires few { nodes ≤ most_nodes }
    ensures summary { IfOk result (λ line. Summarizes nodes line.items) }
    ensures failed { IfErr result (HasGeneratedCause nodes) }
{
    let lines = generated_input(alloc, nodes)?;
    let mut runner = new_runner(alloc, InputKind::Scenario(FrameChoice::Hidden));
    let mut kept = KeptText::new(alloc);
    if let Err(fault) = runner.take_piece(&mut kept, lines.as_slice()) {
        return Err(kept_fault(fault));
    }
    let counts = runner.carrier.counts(nodes, kept.text.as_slice())?;
    let line = summary_line(alloc, counts)?;
    Ok(line)
}

/// Carries out the lines of a mesh of so many nodes, 1 to 64, and writes the line of their counts.
pub fn run_generated<K: Sink>(alloc: Global, nodes: u8, out: &mut K) -> Result<(), Fault>
    requires some { 0 < nodes }
    requires few { nodes ≤ most_nodes }
    ensures finished { OnOk result (PrintsCounts nodes (K.taken out.old) (K.taken out.new)) }
    ensures failed { IfErr result
        (GenerationFails nodes (K.taken out.old) (K.taken out.new)) }
    ensures faults { CountsWrites (K.faults out.old) (K.faults out.new) result }
{
    let line = summary_of(alloc, nodes)?;
    if let Err(Failed) = put_text(out, line.as_slice()) {
        return Err(Fault::Write);
    }
    Ok(())
}
