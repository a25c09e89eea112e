//! The table of the claims on a gateway's LAN.

ghost use Rattle.std.specs.Prelude.{◌≡◌, ◌++◌, option_and_then, option_map, slice_get, OnOk};
ghost use Rattle.mesh_base.specs.declared.address.Mac.{Mac};
ghost use Rattle.mesh_base.specs.Names.{lan_name};
ghost use Rattle.mesh_model.specs.Bridges.Claims.{claims_at};
ghost use Rattle.mesh_model.specs.Clients.Lans.{bridge};
ghost use Rattle.mesh_model.specs.Clients.Log.{Log};
ghost use Rattle.mesh_model.specs.Net.Mesh.{NodeLog};
ghost use Rattle.mesh_model.specs.Run.Shown.{claim_table};
ghost use Rattle.mesh_model.specs.Text.Claims.{claim_table_text};
ghost use Rattle.mesh_node.specs.NodeStands.{NodeStands};
ghost use Rattle.mesh_show.specs.Shown.{IsNodeAt};

use crate::choosable::Choosable;
use crate::rows::{put_lines, rows_of};
use crate::seen::Seen;
use batctl_text::{claim_header, claim_line};
use mesh_base::{Names, NoMemory};
use mesh_model::ClaimRow;

/// The name of a node's LAN, by its number, where it is a gateway.
fn name_of(names: &Names, lan: Option<u16>) -> Option<&[u8]>
    ensures { option_map (λ name. name.now) result
        ≡ option_and_then (lan_name names.now.lans) lan }
{
    names.lan_name(u32::from(lan?))
}

impl<A: Choosable> Seen<'_, A> {
    /// The claim that stands at this place in key order, from 0.
    fn claim_at(&self, place: usize) -> Option<ClaimRow>
        ensures { (me : Mac) (log : Log) →
            NodeStands A.stands A.queries self.now.node.now me log →
            result ≡ slice_get (claims_at (bridge log).claims self.now.moment) place }
    {
        self.node.claims().row_at(self.moment, place)
    }

    /// Appends the claims that stand on the LAN of the node, by these names.
    pub fn show_claims(&self, names: &Names, out: &mut Vec<u8>) -> Result<(), NoMemory>
        ensures { (row : NodeLog) →
            IsNodeAt A.queries A.stands self.now.node.now self.now.name.now self.now.moment row →
            OnOk result (out.new.items ≡ out.old.items
            ++ claim_table_text (claim_table names.now self.now.moment row)) }
    {
        let rows = rows_of(self.alloc, |place| self.claim_at(place))?;
        claim_header(out, self.name, name_of(names, self.node.lan()), rows.len())?;
        put_lines(out, rows.as_slice(), |out, row| {
            claim_line(out, row.key, row.holder, row.age)
        })
    }
}
