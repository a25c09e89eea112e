//! The tables of the services of a node: the gateways and the groups that it knows, its pairs of
//! the distributed ARP table, the facts that it keeps, and the network that they show.

ghost use Rattle.std.specs.Prelude.{◌≡◌, ◌++◌, ◌≤◌, ℕ, List, filter, is_none, map, slice_get};
ghost use Rattle.std.specs.Prelude.{IfOk, OnOk};
ghost use Rattle.mesh_base.specs.declared.address.Mac.{Mac};
ghost use Rattle.mesh_model.specs.Clients.Log.{Log};
ghost use Rattle.mesh_model.specs.Clients.Mentions.{Mention};
ghost use Rattle.mesh_model.specs.Clients.Present.{present_clients};
ghost use Rattle.mesh_model.specs.Commits.History.{History};
ghost use Rattle.mesh_model.specs.Knowledge.Offers.{group_rows};
ghost use Rattle.mesh_model.specs.Knowledge.Steps.{knowledge};
ghost use Rattle.mesh_model.specs.Net.Mesh.{NodeLog};
ghost use Rattle.mesh_model.specs.Run.Shown.{address_table, fact_table, gateway_table};
ghost use Rattle.mesh_model.specs.Run.Shown.{group_table, picture_table};
ghost use Rattle.mesh_model.specs.Text.Services.{address_table_text, fact_table_text};
ghost use Rattle.mesh_model.specs.Text.Services.{gateway_table_text, group_table_text};
ghost use Rattle.mesh_model.specs.Text.Services.{picture_table_text};
ghost use Rattle.mesh_node.specs.NodeStands.{NodeStands};
ghost use Rattle.mesh_show.specs.Shown.{IsNodeAt};
ghost use Rattle.tt_local.specs.Locals.{LocalsStand};

use crate::choosable::Choosable;
use crate::rows::{put_lines, rows_of};
use crate::seen::Seen;
use batctl_text::{
    address_header, address_line, fact_header, fact_line, gateway_header, gateway_line,
    group_header, groups_line, joined_line,
};
use mesh_base::{Key, Millis, NoMemory};
use mesh_model::LocalRow;
use mesh_model::service::GroupRow;
use mesh_vis::put_network;
use std::alloc::Global;
use tt_local::Locals;

/// The groups among some present clients: those without an age.
fn groups_of(alloc: Global, rows: &[LocalRow]) -> Result<Vec<Key>, NoMemory>
    ensures { IfOk result (λ joined. joined.items
        ≡ map (λ row. row.entry.key) (filter (λ row. is_none row.age) rows.now)) }
{
    let joined = rows
        .iter()
        .filter(|row| row.age.is_none())
        .map(|row| row.entry.key)
        .collect(alloc)?;
    Ok(joined)
}

/// The groups that are joined, in key order.
fn joined_groups(alloc: Global, locals: &Locals, now: Millis) -> Result<Vec<Key>, NoMemory>
    ensures { IfOk result (λ joined. (mentions : List Mention) (history : History) (since : ℕ) →
        LocalsStand locals.now mentions history since → since ≤ now →
        joined.items ≡ map (λ row. row.entry.key)
        (filter (λ row. is_none row.age) (present_clients mentions now))) }
{
    let rows = locals.rows(alloc, now)?;
    groups_of(alloc, rows.as_slice())
}

impl<A: Choosable> Seen<'_, A> {
    /// Appends the gateways that the node knows, by address.
    pub fn show_gateways(&self, out: &mut Vec<u8>) -> Result<(), NoMemory>
        ensures { (row : NodeLog) →
            IsNodeAt A.queries A.stands self.now.node.now self.now.name.now self.now.moment row →
            OnOk result (out.new.items ≡ out.old.items
            ++ gateway_table_text (gateway_table A.algorithm self.now.moment row)) }
    {
        let rows = rows_of(self.alloc, |place| self.node.gw_at(self.moment, place))?;
        gateway_header(out, self.name, self.node.gw_mode(), self.node.chosen())?;
        put_lines(out, rows.as_slice(), |out, row| gateway_line(out, row))
    }

    /// The originator that tells multicast flags at this place in the order of addresses, from 0.
    fn group_at(&self, place: usize) -> Option<GroupRow>
        ensures { (me : Mac) (log : Log) →
            NodeStands A.stands A.queries self.now.node.now me log →
            let known = knowledge (A.queries me) me log in
            result ≡ slice_get (group_rows (A.queries me) known self.now.moment) place }
    {
        let (orig, flags) = self.node.mc_at(self.moment, place)?;
        Some(GroupRow { orig, flags })
    }

    /// Appends the groups that are joined at the node, in key order, and the originators that tell
    /// multicast flags, by address.
    pub fn show_groups(&self, out: &mut Vec<u8>) -> Result<(), NoMemory>
        ensures { (row : NodeLog) →
            IsNodeAt A.queries A.stands self.now.node.now self.now.name.now self.now.moment row →
            OnOk result (out.new.items ≡ out.old.items
            ++ group_table_text (group_table A.algorithm self.now.moment row)) }
    {
        let joined = joined_groups(self.alloc, self.node.locals(), self.moment)?;
        let rows = rows_of(self.alloc, |place| self.group_at(place))?;
        group_header(out, self.name, joined.len() + rows.len())?;
        put_lines(out, joined.as_slice(), |out, key| joined_line(out, key))?;
        put_lines(out, rows.as_slice(), |out, row| groups_line(out, row))
    }

    /// Appends the pairs of the distributed ARP table that the node knows, in their order.
    pub fn show_addresses(&self, out: &mut Vec<u8>) -> Result<(), NoMemory>
        ensures { (row : NodeLog) →
            IsNodeAt A.queries A.stands self.now.node.now self.now.name.now self.now.moment row →
            OnOk result (out.new.items ≡ out.old.items
            ++ address_table_text (address_table A.algorithm self.now.moment row)) }
    {
        let rows = rows_of(self.alloc, |place| self.node.dat_at(self.moment, place))?;
        address_header(out, self.name, rows.len())?;
        put_lines(out, rows.as_slice(), |out, row| address_line(out, row))
    }

    /// Appends the facts that the node keeps.
    pub fn show_facts(&self, out: &mut Vec<u8>) -> Result<(), NoMemory>
        ensures { (row : NodeLog) →
            IsNodeAt A.queries A.stands self.now.node.now self.now.name.now self.now.moment row →
            OnOk result (out.new.items ≡ out.old.items
            ++ fact_table_text (fact_table A.algorithm self.now.moment row)) }
    {
        let rows = self.node.facts(self.moment)?;
        fact_header(out, self.name, self.node.alfred_mode(), rows.len())?;
        put_lines(
            out,
            rows.as_slice(),
            |out, kept| fact_line(out, self.moment, kept),
        )
    }

    /// Appends the network as the facts that the node keeps tell of it.
    pub fn show_pictures(&self, out: &mut Vec<u8>) -> Result<(), NoMemory>
        ensures { (row : NodeLog) →
            IsNodeAt A.queries A.stands self.now.node.now self.now.name.now self.now.moment row →
            OnOk result (out.new.items ≡ out.old.items
            ++ picture_table_text (picture_table A.algorithm self.now.moment row)) }
    {
        let facts = self.node.facts(self.moment)?;
        out.extend_from_slice(b"vis ")?;
        out.extend_from_slice(self.name)?;
        out.extend_from_slice(b" ")?;
        put_network(self.alloc, out, facts.as_slice())?;
        out.push(b'\n')?;
        Ok(())
    }
}
