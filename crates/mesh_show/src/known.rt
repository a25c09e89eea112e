//! The table of what a node knows of the others' clients, and how many of them agree.

ghost use Rattle.std.specs.Prelude.{◌≡◌, ◌++◌, filter_map, option_and_then, slice_get, IfOk, OnOk};
ghost use Rattle.std.specs.List.{count_by};
ghost use Rattle.mesh_base.specs.declared.address.Mac.{Mac};
ghost use Rattle.mesh_model.specs.Clients.Log.{Log};
ghost use Rattle.mesh_model.specs.Knowledge.Known.{Knowledge};
ghost use Rattle.mesh_model.specs.Knowledge.Steps.{knowledge};
ghost use Rattle.mesh_model.specs.Net.Mesh.{NodeLog};
ghost use Rattle.mesh_model.specs.Run.KnownTables.{held_entries, parts_at};
ghost use Rattle.mesh_model.specs.Run.Shown.{global_table};
ghost use Rattle.mesh_model.specs.Tables.Known.{TableCalls, known_by, originators_by};
ghost use Rattle.mesh_model.specs.Text.GlobalTables.{global_table_text, part_text};
ghost use Rattle.mesh_node.specs.NodeStands.{NodeStands};
ghost use Rattle.mesh_show.specs.Inner.Parts.{held_part, live_row};
ghost use Rattle.mesh_show.specs.Shown.{IsNodeAt};
ghost use Rattle.tt_global.specs.Globals.{GlobalsStand};

use crate::choosable::Choosable;
use crate::rows::{put_lines, rows_of};
use crate::seen::Seen;
use batctl_text::{entry_line, global_header, global_line, mark_line};
use mesh_algo::Algo;
use mesh_base::{Entry, Mac, Millis, NoMemory};
use mesh_model::GlobalRow;
use mesh_node::Node;
use std::alloc::Global;
use tt_global::Globals;

/// Of the originators that announced something, the row of the one at a place, where it is live.
fn live_row_at<A: Algo>(algo: &A, globals: &Globals, now: Millis, place: usize) -> Option<GlobalRow>
    ensures { (me : Mac) (known : Knowledge) →
        A.stands algo.now me known.routes → GlobalsStand globals.now known.tables →
        result ≡ option_and_then (live_row (A.queries me) known now)
        (slice_get (originators_by known.tables) place) }
{
    let row = globals.row_at(place)?;
    algo.live(now, row.orig).then_some(row)
}

/// The rows of the live originators that announced something.
fn live_rows<A: Algo>(
    alloc: Global,
    algo: &A,
    globals: &Globals,
    now: Millis,
) -> Result<Vec<GlobalRow>, NoMemory>
    ensures { IfOk result (λ rows. (me : Mac) (known : Knowledge) →
        A.stands algo.now me known.routes → GlobalsStand globals.now known.tables →
        rows.items ≡ filter_map (live_row (A.queries me) known now)
        (originators_by known.tables)) }
{
    let mut rows = Vec::new(alloc);
    for place in 0..globals.len() {
        if let Some(row) = live_row_at(algo, globals, now, place) {
            rows.push(row)?;
        }
    }
    Ok(rows)
}

/// How many tables of live originators are held in agreement.
pub fn ok_count<A: Algo>(alloc: Global, node: &Node<A>, now: Millis) -> Result<usize, NoMemory>
    ensures { (me : Mac) (log : Log) → NodeStands A.stands A.queries node.now me log →
        IfOk result (λ count. count ≡ count_by (λ part. part.row.ok)
        (parts_at (A.queries me) (knowledge (A.queries me) me log) now)) }
{
    let rows = live_rows(alloc, node.algo(), node.globals(), now)?;
    Ok(rows.iter().filter(|row| row.ok).count())
}

/// The entries that are held of an originator's table.
fn entries_of(globals: &Globals, orig: Mac) -> &[Entry]
    ensures { (calls : TableCalls) → GlobalsStand globals.now calls →
        result.now ≡ held_entries (known_by calls orig).held }
{
    match globals.held(orig) {
        Some((_byte, table)) => table.as_slice(),
        None => &[],
    }
}

/// Appends an originator's line and those of the entries that are held.
fn put_part(out: &mut Vec<u8>, globals: &Globals, row: GlobalRow) -> Result<(), NoMemory>
    ensures ok { (calls : TableCalls) → GlobalsStand globals.now calls →
        OnOk result (out.new.items ≡ out.old.items ++ part_text (held_part calls row)) }
{
    let entries = entries_of(globals, row.orig);
    global_line(out, row.orig, row.held, row.told, row.ok, entries.len())?;
    put_lines(out, entries, |out, entry| {
        entry_line(out, entry.key.mac, entry.key.vid, entry.flags)
    })
}

impl<A: Choosable> Seen<'_, A> {
    /// Appends what the node knows of the others' clients: the part of each originator, and the
    /// clients whose marks stand, each with the node that its mark names.
    pub fn show_globals(&self, out: &mut Vec<u8>) -> Result<(), NoMemory>
        ensures { (row : NodeLog) →
            IsNodeAt A.queries A.stands self.now.node.now self.now.name.now self.now.moment row →
            OnOk result (out.new.items ≡ out.old.items
            ++ global_table_text (global_table A.algorithm self.now.moment row)) }
    {
        let globals = self.node.globals();
        let rows = live_rows(self.alloc, self.node.algo(), globals, self.moment)?;
        let sync = self.node.sync();
        let marks = rows_of(self.alloc, |place| sync.mark_at(self.moment, place))?;
        global_header(out, self.name, rows.len())?;
        put_lines(out, rows.as_slice(), |out, row| put_part(out, globals, row))?;
        put_lines(out, marks.as_slice(), |out, (key, target)| {
            mark_line(out, key.mac, key.vid, target)
        })
    }
}
