ghost use Rattle.std.specs.Prelude.{◌≡◌, ◌↔◌, ◌≤◌, [], length, slice_get, option_map, IfErr, IfOk, IsNone, OnErr, OnOk};
ghost use Rattle.std.specs.Ordering.{nat_cmp};
ghost use Rattle.mesh_model.specs.Tables.Sums.{sum_at, with_sum};
ghost use Rattle.tt_table.specs.Places.{IsGap, IsThere};
ghost use Rattle.tt_table.specs.Sums.{named_sums, row_key};

use crate::vlan_total::VlanTotal;
use mesh_base::{NoMemory, Vid};
use std::alloc::Global;
use std::marker::Model;

/// Checksums of VLANs, by wire number.
#[derive(Debug, Drop)]
pub struct Sums {
    pub(crate) rows: Vec<VlanTotal>,
}

impl Model for Sums {
    ghost use Rattle.std.specs.Prelude.{vec_capacity};
    ghost use Rattle.tt_table.specs.Sums.{AreByVlan, SumsView};

    ghost Value = { SumsView };

    ghost view = { λ s. record { rows = s.rows.items; capacity = vec_capacity s.rows } };

    ghost invariant = { λ s. AreByVlan s.rows.items };
}

impl Sums {
    /// No VLANs.
    pub fn new(alloc: Global) -> Sums
        ensures { named_sums result ≡ [] }
    {
        Sums {
            rows: Vec::new(alloc),
        }
    }

    /// The same sums once more.
    pub fn copy(&self) -> Result<Sums, NoMemory>
        ensures named { IfOk result (λ copy. named_sums copy ≡ named_sums self.now) }
        ensures rows { IfOk result (λ copy. copy.rows ≡ self.now.rows) }
    {
        let rows = self.rows.clone()?;
        Ok(Sums { rows })
    }

    /// Names a VLAN with its checksum, also where that is 0.
    pub fn set(&mut self, vid: Vid, sum: u32) -> Result<(), NoMemory>
        ensures ok { OnOk result (named_sums self.new
            ≡ with_sum (record { vid = vid; sum = sum }) (named_sums self.old)) }
        ensures err { OnErr result (named_sums self.new ≡ named_sums self.old) }
    {
        match self.search(vid) {
            Ok(place) => self.rows[place].sum = sum,
            Err(place) => {
                self.rows.insert(place, VlanTotal::new(vid, sum))?;
            }
        }
        Ok(())
    }

    /// The checksum of a VLAN, 0 where it isn't named.
    pub fn get(&self, vid: Vid) -> u32
        ensures { result ≡ sum_at (named_sums self.now) vid }
    {
        match self.search(vid) {
            Ok(place) => self.rows[place].sum,
            Err(_) => 0,
        }
    }

    /// The VLAN that is named at a place, from 0, with its checksum, or `None` past the last.
    pub fn at(&self, i: usize) -> Option<(Vid, u32)>
        ensures at_place { result
            ≡ option_map (λ named. (named.vid, named.sum)) (slice_get (named_sums self.now) i) }
        ensures past_end { IsNone result ↔ (length (named_sums self.now) ≤ i) }
    {
        self.rows.get(i).map(|row| (row.vid, row.sum))
    }

    /// How many VLANs are named.
    pub fn len(&self) -> usize
        ensures { result ≡ length (named_sums self.now) }
    {
        self.rows.len()
    }

    // Where a VLAN stands, or where it would.
    pub(crate) fn search(&self, vid: Vid) -> Result<usize, usize>
        ensures there { IfOk result (λ i. IsThere nat_cmp row_key vid.0 self.now.rows i) }
        ensures gap { IfErr result (λ i. IsGap nat_cmp row_key vid.0 self.now.rows i) }
    {
        self.rows.binary_search_by_key(&vid, |row| row.vid)
    }
}
