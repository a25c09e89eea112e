//! The routes of one node that were told.

ghost use Rattle.std.specs.Prelude.{◌≡◌, ◌++◌, ◌∷◌, List, [], find, length, map, slice_get, IsTrue, Option, OnOk, option_map};
ghost use Rattle.mesh_base.specs.declared.address.Mac.{Mac};
ghost use Rattle.mesh_model.specs.declared.route.OrigRow.{OrigRow};
ghost use Rattle.mesh_model.specs.declared.route_line.RouteLine.{RouteLine};
ghost use Rattle.mesh_model.specs.Net.Watching.{is_row_of, lines_due, next_by, route_event, told_with};
ghost use Rattle.mesh_told.specs.Told.{Grows, HasMet, Table, TableStands, entries_told, events_for, line_for, lines_in, seen_of};

use indexmap::IndexMap;
use mesh_algo::table::put;
use mesh_base::{Event, Events, Mac, Millis, NoMemory};
use mesh_model::{OrigRow, RouteLine};
use std::alloc::Global;

/// A live originator, and the next node on the way to it.
#[derive(Clone, Copy, Debug)]
pub(crate) struct Seen {
    orig: Mac,
    next: Option<Mac>,
}

/// The routes of one node that were told.
#[derive(Debug, Drop)]
pub(crate) struct NodeRoutes {
    /// The next node on the way to each originator of which a line told, by address.
    pub(crate) next: IndexMap<Mac, Option<Mac>>,
    /// The live originators by which lines were told last.
    pub(crate) seen: Vec<Seen>,
}

/// The first row of an originator.
fn row_of(rows: &[OrigRow], orig: Mac) -> Option<&OrigRow>
    ensures { option_map (λ row. row.now) result ≡ find (is_row_of orig) rows.now }
{
    rows.iter().find(|row| row.orig == orig)
}

/// The next node on the way to an originator, by the rows of the live ones.
fn next_by(rows: &[OrigRow], orig: Mac) -> Option<Mac>
    ensures { result ≡ next_by rows.now orig }
{
    match row_of(rows, orig) {
        Some(row) => row.next,
        None => None,
    }
}

/// The line of an originator's route, unless the last one told the same.
fn line_for(
    now: Millis,
    node: Mac,
    rows: &[OrigRow],
    orig: Mac,
    told: Option<Mac>,
) -> Option<RouteLine>
    ensures { result ≡ line_for now node rows.now orig told }
{
    let next = next_by(rows, orig);
    if next == told {
        return None;
    }
    Some(RouteLine {
        moment: now,
        node,
        orig,
        next,
    })
}

/// The event of a line.
fn route_event(line: RouteLine) -> Event
    ensures { result ≡ route_event line }
{
    Event::Route {
        at: line.moment,
        node: line.node,
        orig: line.orig,
        next: line.next,
    }
}

impl NodeRoutes {
    /// Nothing was told.
    pub(crate) fn new(alloc: Global) -> NodeRoutes
        ensures next { result.next.entries ≡ [] }
        ensures seen { result.seen.items ≡ [] }
    {
        NodeRoutes {
            next: IndexMap::new(alloc),
            seen: Vec::new(alloc),
        }
    }

    /// Tells the lines that are due at a node with these rows.
    pub(crate) fn tell(
        &mut self,
        now: Millis,
        node: Mac,
        rows: &[OrigRow],
        log: &mut Events,
    ) -> Result<(), NoMemory>
        ensures ok { (told : List RouteLine) →
            TableStands node self.old.next.entries self.old.seen.items told →
            OnOk result (TableStands node self.new.next.entries self.new.seen.items
            (told_with told (lines_due now node rows.now told))) }
        ensures told { (told : List RouteLine) →
            TableStands node self.old.next.entries self.old.seen.items told →
            OnOk result (log.new ≡ log.old ++ map route_event (lines_due now node rows.now told)) }
        ensures grew { Grows log.old log.new }
    {
        if self.is_seen(rows) {
            return Ok(());
        }
        self.meet(rows)?;
        self.tell_all(now, node, rows, log)?;
        self.see(rows)?;
        Ok(())
    }

    // Whether the live originators and their next nodes are those of the last lines: then no line
    // is due.
    fn is_seen(&self, rows: &[OrigRow]) -> bool
        ensures { IsTrue result → self.now.seen.items ≡ map seen_of rows.now }
    {
        if self.seen.len() != rows.len() {
            return false;
        }
        for place in 0..rows.len() {
            if !self.is_seen_at(place, rows) {
                return false;
            }
        }
        true
    }

    // The same at one place.
    fn is_seen_at(&self, place: usize, rows: &[OrigRow]) -> bool
        ensures { IsTrue result → slice_get self.now.seen.items place
            ≡ option_map seen_of (slice_get rows.now place) }
    {
        match (self.seen.get(place), rows.get(place)) {
            (Some(seen), Some(row)) => seen.orig == row.orig && seen.next == row.next,
            _ => false,
        }
    }

    // Keeps the live originators by which lines are told.
    fn see(&mut self, rows: &[OrigRow]) -> Result<(), NoMemory>
        ensures seen { OnOk result (self.new.seen.items ≡ map seen_of rows.now) }
        ensures kept { self.new.next ≡ self.old.next }
    {
        self.seen.clear();
        for row in rows {
            self.seen.push(Seen {
                orig: row.orig,
                next: row.next,
            })?;
        }
        Ok(())
    }

    // Gives each originator a place to which there is a route.
    fn meet(&mut self, rows: &[OrigRow]) -> Result<(), NoMemory>
        ensures { OnOk result (HasMet rows.now self.old.next.entries self.new.next.entries) }
    {
        for row in rows {
            self.meet_row(row)?;
        }
        Ok(())
    }

    // Gives an originator a place if there is a route to it.
    fn meet_row(&mut self, row: &OrigRow) -> Result<(), NoMemory>
        ensures { (rows : List OrigRow) (old : Table) → HasMet rows old self.old.next.entries →
            OnOk result (HasMet (rows ++ row.now ∷ []) old self.new.next.entries) }
    {
        if row.next.is_none() {
            return Ok(());
        }
        if self.next.contains_key(&row.orig) {
            return Ok(());
        }
        put(&mut self.next, row.orig, None)?;
        Ok(())
    }

    // Tells the lines of all originators that have a place.
    fn tell_all(
        &mut self,
        now: Millis,
        node: Mac,
        rows: &[OrigRow],
        log: &mut Events,
    ) -> Result<(), NoMemory>
        ensures set { OnOk result (self.new.next.entries
            ≡ entries_told rows.now self.old.next.entries) }
        ensures told { OnOk result (log.new
            ≡ log.old ++ map route_event (lines_in now node rows.now self.old.next.entries)) }
        ensures grew { Grows log.old log.new }
    {
        for place in 0..self.next.len() {
            self.tell_at(place, now, node, rows, log)?;
        }
        Ok(())
    }

    // Tells the line of the originator at a place.
    fn tell_at(
        &mut self,
        place: usize,
        now: Millis,
        node: Mac,
        rows: &[OrigRow],
        log: &mut Events,
    ) -> Result<(), NoMemory>
        ensures set { (front back : Table) (orig : Mac) (told : Option Mac) →
            self.old.next.entries ≡ front ++ (orig, told) ∷ back → length front ≡ place →
            OnOk result (self.new.next.entries ≡ front ++ (orig, next_by rows.now orig) ∷ back) }
        ensures told { (front back : Table) (orig : Mac) (told : Option Mac) →
            self.old.next.entries ≡ front ++ (orig, told) ∷ back → length front ≡ place →
            OnOk result (log.new ≡ log.old ++ events_for now node rows.now orig told) }
        ensures grew { Grows log.old log.new }
    {
        let Some((orig, told)) = self.next.get_index(place) else {
            return Ok(());
        };
        let Some(line) = line_for(now, node, rows, *orig, *told) else {
            return Ok(());
        };
        log.push(route_event(line))?;
        if let Some(told) = self.next.get_index_mut(place) {
            *told = line.next;
        }
        Ok(())
    }
}
