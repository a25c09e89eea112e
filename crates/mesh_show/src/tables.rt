//! A table of a node, whichever it is.

ghost use Rattle.std.specs.Prelude.{◌≡◌, OnOk, OnErr};
ghost use Rattle.mesh_model.specs.Net.Mesh.{NodeLog};
ghost use Rattle.mesh_model.specs.Run.State.{State};
ghost use Rattle.mesh_show.specs.Shown.{AppendsTable, IsNodeAt, IsSeenAt};

use crate::choosable::Choosable;
use crate::seen::Seen;
use mesh_base::{Millis, Names, NoMemory};
use mesh_model::Table;
use mesh_node::Node;
use std::alloc::Global;

impl<A: Choosable> Seen<'_, A> {
    /// Appends a table of the node, line by line. LANs have their names of `names`.
    fn show(&self, names: &Names, table: Table, out: &mut Vec<u8>) -> Result<(), NoMemory>
        ensures ok { (state : State) (row : NodeLog) →
            IsSeenAt A.algorithm names.now self.now.moment state →
            IsNodeAt A.queries A.stands self.now.node.now self.now.name.now self.now.moment row →
            OnOk result (AppendsTable state table row out.old.items out.new.items) }
    {
        match table {
            Table::Locals => self.show_locals(out)?,
            Table::Globals => self.show_globals(out)?,
            Table::Originators => self.show_originators(out)?,
            Table::Neighbors => self.show_neighbors(out)?,
            Table::Claims => self.show_claims(names, out)?,
            Table::Gateways => self.show_gateways(out)?,
            Table::Groups => self.show_groups(out)?,
            Table::Addresses => self.show_addresses(out)?,
            Table::Facts => self.show_facts(out)?,
            Table::Pictures => self.show_pictures(out)?,
        }
        Ok(())
    }
}

/// Appends a table of a node of this name, the whole of it or nothing. LANs have their names of
/// `names`.
pub fn show_table<A: Choosable>(
    alloc: Global,
    node: &Node<A>,
    names: &Names,
    name: &[u8],
    table: Table,
    now: Millis,
    out: &mut Vec<u8>,
) -> Result<(), NoMemory>
    ensures ok { (state : State) (row : NodeLog) → IsSeenAt A.algorithm names.now now state →
        IsNodeAt A.queries A.stands node.now name.now now row →
        OnOk result (AppendsTable state table row out.old.items out.new.items) }
    ensures err { OnErr result (out.new.items ≡ out.old.items) }
{
    let seen = Seen {
        alloc,
        node,
        name,
        moment: now,
    };
    let mut text = Vec::new(alloc);
    seen.show(names, table, &mut text)?;
    out.extend_from_slice(text.as_slice())?;
    Ok(())
}
