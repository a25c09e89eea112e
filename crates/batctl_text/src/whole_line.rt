//! A line, whole or not at all.

ghost use Rattle.std.specs.Prelude.{◌≡◌, ◌++◌, OnOk, OnErr, flat_map};
ghost use Rattle.batctl_text.specs.Inner.Parts.{part_text, parts_line};

use crate::line_text::LineText;
use crate::part::{Part, put_part};
use mesh_base::NoMemory;

// Appends parts.
fn put_parts(line: &mut LineText, parts: &[Part<'_>]) -> Result<(), NoMemory>
    ensures { OnOk result (line.new ≡ line.old ++ flat_map part_text parts.now) }
{
    for part in parts {
        put_part(line, part)?;
    }
    Ok(())
}

/// Appends the line of these parts.
pub fn put_line(out: &mut Vec<u8>, parts: &[Part<'_>]) -> Result<(), NoMemory>
    ensures ok { OnOk result (out.new.items ≡ out.old.items ++ parts_line parts.now) }
    ensures err { OnErr result (out.new.items ≡ out.old.items) }
{
    let mut line = LineText::new(*out.allocator());
    put_parts(&mut line, parts)?;
    line.end(out)?;
    Ok(())
}
