//! The text of a report.

ghost use Rattle.std.specs.Prelude.{◌≡◌, ◌++◌, OnOk, OnErr, flat_map};
ghost use Rattle.mesh_model.specs.Loops.Reports.{clear_line, loop_line};

use batctl_text::{clear_line, loop_line};
use mesh_base::{Millis, NoMemory};
use mesh_loops::{LoopList, LoopReport};

// Appends the lines of loops that are gone.
fn put_gone(out: &mut Vec<u8>, moment: Millis, loops: &LoopList) -> Result<(), NoMemory>
    ensures { OnOk result (out.new.items ≡ out.old.items ++ flat_map (clear_line moment) loops.now) }
{
    for route_loop in loops.as_slice() {
        clear_line(out, moment, route_loop)?;
    }
    Ok(())
}

// Appends the lines of loops that are new.
fn put_new(out: &mut Vec<u8>, moment: Millis, loops: &LoopList) -> Result<(), NoMemory>
    ensures { OnOk result (out.new.items ≡ out.old.items ++ flat_map (loop_line moment) loops.now) }
{
    for route_loop in loops.as_slice() {
        loop_line(out, moment, route_loop)?;
    }
    Ok(())
}

/// Appends the text of a report, of a moment.
pub fn put_report(out: &mut Vec<u8>, moment: Millis, report: &LoopReport) -> Result<(), NoMemory>
    ensures { OnOk result (out.new.items ≡ out.old.items ++ (flat_map (clear_line moment) report.now.gone
        ++ flat_map (loop_line moment) report.now.fresh)) }
{
    put_gone(out, moment, &report.gone)?;
    put_new(out, moment, &report.fresh)?;
    Ok(())
}

/// Appends text.
pub fn put_text(out: &mut Vec<u8>, text: &[u8]) -> Result<(), NoMemory>
    ensures ok { OnOk result (out.new.items ≡ out.old.items ++ text.now) }
    ensures err { OnErr result (out.new.items ≡ out.old.items) }
{
    out.extend_from_slice(text)?;
    Ok(())
}
