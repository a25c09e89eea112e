//! One generated line each.

ghost use Rattle.std.specs.Prelude.{◌≡◌, ◌++◌, OnOk};
ghost use Rattle.mesh_model.specs.Run.Generated.{frame_line, link_line, node_line};

use crate::terms::{put_hex, put_name, put_named_number};
use mesh_base::NoMemory;

/// Appends the line of the node at a place.
#[tactic(auto, unfolding(mesh_model::specs::Run::Generated::node_line))]
pub fn put_node_line(out: &mut Vec<u8>, place: u8) -> Result<(), NoMemory>
    ensures { OnOk result (out.new.items ≡ out.old.items ++ node_line place) }
{
    out.extend_from_slice(b"node ")?;
    put_name(out, place)?;
    out.extend_from_slice(b" 02:00:00:00:00:")?;
    put_hex(out, place)?;
    out.extend_from_slice(b"\n")?;
    Ok(())
}

/// Appends the line of a link between two places.
#[tactic(auto, unfolding(mesh_model::specs::Run::Generated::link_line))]
pub fn put_link_line(out: &mut Vec<u8>, from: u8, to: u8) -> Result<(), NoMemory>
    ensures { OnOk result (out.new.items ≡ out.old.items ++ link_line from to) }
{
    out.extend_from_slice(b"link ")?;
    put_name(out, from)?;
    out.extend_from_slice(b" ")?;
    put_name(out, to)?;
    out.extend_from_slice(b" pattern=.........x\n")?;
    Ok(())
}

/// Appends the line of a client's frame at a place, in the second of this number.
#[tactic(auto, unfolding(mesh_model::specs::Run::Generated::frame_line))]
pub fn put_frame_line(out: &mut Vec<u8>, client: u8, place: u8, second: u8) -> Result<(), NoMemory>
    ensures { OnOk result (out.new.items ≡ out.old.items ++ frame_line client place second) }
{
    out.extend_from_slice(b"frame ")?;
    put_name(out, place)?;
    out.extend_from_slice(b" 02:00:00:00:01:")?;
    put_hex(out, client)?;
    put_named_number(out, b" ff:ff:ff:ff:ff:ff - g", u128::from(second))?;
    out.extend_from_slice(b"\n")?;
    Ok(())
}
