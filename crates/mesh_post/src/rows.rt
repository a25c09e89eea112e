ghost use Rattle.std.specs.Prelude.{◌≡◌, [], ◌∷◌, ◌++◌, find, length, option_map, slice_get, slice_set, OnOk, OnErr};
ghost use Rattle.mesh_post.specs.Inner.Links.{back_over, between, noted, throughput_of};

use crate::row::Row;
use mesh_base::NoMemory;
use std::alloc::Global;
use std::marker::Model;

/// The rows of links, in the order of the links, and beside each row the throughput of the link
/// back.
#[derive(Debug, Drop)]
pub struct Rows {
    rows: Vec<Row>,
    backs: Vec<u32>,
}

impl Model for Rows {
    ghost use Rattle.std.specs.Prelude.{◌≡◌, List};
    ghost use Rattle.mesh_post.specs.declared.row.Row.{Row};
    ghost use Rattle.mesh_post.specs.Inner.Links.{backs_of};

    ghost Value = { List Row };

    ghost view = { λ r. r.rows.items };

    ghost invariant = { λ r. r.backs.items ≡ backs_of r.rows.items };
}

impl Rows {
    /// There is no link.
    pub fn new(alloc: Global) -> Rows
        ensures { result ≡ [] }
    {
        Rows {
            rows: Vec::new(alloc),
            backs: Vec::new(alloc),
        }
    }

    /// How many links there are.
    pub fn len(&self) -> usize
        ensures { result ≡ length self.now }
    {
        self.rows.len()
    }

    /// The row of the link at a place.
    pub fn get(&self, place: u32) -> Option<&Row>
        ensures { option_map (λ row. row.now) result ≡ slice_get self.now place }
    {
        self.rows.get(place as usize)
    }

    /// The throughput of the link back from the end of the one at a place, or 0 where there is
    /// none.
    pub fn back(&self, place: u32) -> u32
        ensures { result ≡ back_over self.now place }
    {
        match self.backs.get(place as usize) {
            Some(tp) => *tp,
            None => 0,
        }
    }

    /// A link joins behind the others.
    pub fn push(&mut self, row: Row) -> Result<(), NoMemory>
        ensures ok { OnOk result (self.new ≡ self.old ++ row ∷ []) }
        ensures err { OnErr result (self.new ≡ self.old) }
    {
        self.rows.reserve(1)?;
        self.backs.reserve(1)?;
        let from = row.from;
        let to = row.to;
        self.rows.push_reserved(row);
        let rows = self.rows.as_slice();
        self.backs.push_reserved(throughput(rows, to, from));
        note(&mut self.backs, rows, to, from, throughput(rows, from, to));
        Ok(())
    }
}

// The first link from one node to another.
fn first(rows: &[Row], from: u32, to: u32) -> Option<&Row>
    ensures { option_map (λ row. row.now) result ≡ find (between from to) rows.now }
{
    rows.iter().find(|row| row.leads(from, to))
}

// Its throughput, or 0 where there is none.
fn throughput(rows: &[Row], from: u32, to: u32) -> u32
    ensures { result ≡ throughput_of from to rows.now }
{
    match first(rows, from, to) {
        Some(row) => row.tp,
        None => 0,
    }
}

// Notes a throughput beside each link from one node to another.
fn note(backs: &mut Vec<u32>, rows: &[Row], from: u32, to: u32, tp: u32)
    ensures { backs.new.items ≡ noted (between from to) tp rows.now backs.old.items }
{
    for place in 0..rows.len() {
        if rows[place].leads(from, to) {
            set_back(backs, place, tp);
        }
    }
}

// Sets the throughput of the link back at a place.
fn set_back(backs: &mut Vec<u32>, place: usize, tp: u32)
    ensures { backs.new.items ≡ slice_set backs.old.items place tp }
{
    if let Some(back) = backs.get_mut(place) {
        *back = tp;
    }
}
