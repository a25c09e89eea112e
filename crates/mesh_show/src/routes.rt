//! The tables of the originators and of the neighbours of a node.

ghost use Rattle.std.specs.Prelude.{◌≡◌, ◌++◌, OnOk};
ghost use Rattle.mesh_model.specs.Net.Mesh.{NodeLog};
ghost use Rattle.mesh_model.specs.Run.Shown.{link_table, orig_table};
ghost use Rattle.mesh_model.specs.Text.Tables.{link_table_text, neighbor_line, orig_table_text};
ghost use Rattle.mesh_show.specs.Shown.{IsNodeAt};

use crate::choosable::Choosable;
use crate::rows::{put_lines, rows_of};
use crate::seen::Seen;
use batctl_text::{iv_link_line, link_header, orig_header, orig_line, v_link_line};
use mesh_base::NoMemory;
use mesh_model::LinkRow;

/// Appends the line of a neighbour.
fn put_neighbor(out: &mut Vec<u8>, row: LinkRow) -> Result<(), NoMemory>
    ensures ok { OnOk result (out.new.items ≡ out.old.items ++ neighbor_line row) }
{
    match row {
        LinkRow::Iv { neigh, rq, eq } => iv_link_line(out, neigh, rq, eq)?,
        LinkRow::V { neigh, tp, seen } => v_link_line(out, neigh, tp, seen)?,
    }
    Ok(())
}

impl<A: Choosable> Seen<'_, A> {
    /// Appends the originators that are live at the node.
    pub fn show_originators(&self, out: &mut Vec<u8>) -> Result<(), NoMemory>
        ensures { (row : NodeLog) →
            IsNodeAt A.queries A.stands self.now.node.now self.now.name.now self.now.moment row →
            OnOk result (out.new.items ≡ out.old.items
            ++ orig_table_text (orig_table A.algorithm self.now.moment row)) }
    {
        let rows = self.node.algo().originators(self.alloc, self.moment)?;
        orig_header(out, self.name, A::algorithm(), rows.len())?;
        put_lines(out, rows.as_slice(), |out, row| {
            orig_line(out, row.orig, row.seq, row.seen, row.next, row.metric)
        })
    }

    /// Appends the neighbours of the node.
    pub fn show_neighbors(&self, out: &mut Vec<u8>) -> Result<(), NoMemory>
        ensures { (row : NodeLog) →
            IsNodeAt A.queries A.stands self.now.node.now self.now.name.now self.now.moment row →
            OnOk result (out.new.items ≡ out.old.items
            ++ link_table_text (link_table A.algorithm self.now.moment row)) }
    {
        let algo = self.node.algo();
        let rows = rows_of(self.alloc, |place| algo.link_at(self.moment, place))?;
        link_header(out, self.name, A::algorithm(), rows.len())?;
        put_lines(out, rows.as_slice(), put_neighbor)
    }
}
