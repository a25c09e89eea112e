//! The table of a node's own clients: the sums of its last commit, and who is present.

ghost use Rattle.std.specs.Prelude.{◌≡◌, ◌++◌, flat_map, OnOk};
ghost use Rattle.mesh_model.specs.Net.Mesh.{NodeLog};
ghost use Rattle.mesh_model.specs.Run.Shown.{local_table};
ghost use Rattle.mesh_model.specs.Text.Tables.{local_line, table_text, vlan_line};
ghost use Rattle.mesh_show.specs.Shown.{IsNodeAt};
ghost use Rattle.tt_table.specs.Sums.{named_sums};

use crate::choosable::Choosable;
use crate::rows::put_lines;
use crate::seen::Seen;
use batctl_text::{local_header, local_line, vlan_line};
use mesh_base::NoMemory;
use mesh_model::LocalRow;
use tt_table::Sums;

/// Appends a line for each VLAN of a commit.
fn put_vlans(out: &mut Vec<u8>, sums: &Sums) -> Result<(), NoMemory>
    ensures ok { OnOk result (out.new.items
        ≡ out.old.items ++ flat_map vlan_line (named_sums sums.now)) }
{
    for place in 0..sums.len() {
        let Some((vid, sum)) = sums.at(place) else {
            unreachable!()
        };
        vlan_line(out, vid, sum)?;
    }
    Ok(())
}

/// Appends the line of a present client.
fn put_client(out: &mut Vec<u8>, row: LocalRow) -> Result<(), NoMemory>
    ensures ok { OnOk result (out.new.items ≡ out.old.items ++ local_line row) }
{
    let key = row.entry.key;
    local_line(out, key.mac, key.vid, row.entry.flags, row.age)?;
    Ok(())
}

impl<A: Choosable> Seen<'_, A> {
    /// Appends the local table of the node: the byte and the sums of its last commit, and the
    /// clients that are present.
    pub fn show_locals(&self, out: &mut Vec<u8>) -> Result<(), NoMemory>
        ensures { (row : NodeLog) →
            IsNodeAt A.queries A.stands self.now.node.now self.now.name.now self.now.moment row →
            OnOk result (out.new.items ≡ out.old.items
            ++ table_text (local_table self.now.moment row)) }
    {
        let locals = self.node.locals();
        let rows = locals.rows(self.alloc, self.moment)?;
        local_header(out, self.name, locals.last_byte(), rows.len())?;
        put_vlans(out, locals.last_sums())?;
        put_lines(out, rows.as_slice(), put_client)
    }
}
