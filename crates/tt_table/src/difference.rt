ghost use Rattle.std.specs.Prelude.{◌≡◌, ◌↔◌, IsTrue};
ghost use Rattle.mesh_model.specs.Tables.Differences.{differ_at, first_difference, least_passing, lesser, named_vlans};
ghost use Rattle.tt_table.specs.Sums.{named_sums};

use crate::sums::Sums;
use mesh_base::Vid;
use mesh_model::Difference;

impl Sums {
    /// The least VLAN whose checksum isn't the same in these sums, which are kept, and in told
    /// ones, or `None` where there is none.
    pub fn first_difference(&self, told: &Sums) -> Option<Difference>
        ensures { result ≡ first_difference (named_sums self.now) (named_sums told.now) }
    {
        let vid = lesser(self.first_other(told), told.first_other(self))?;
        Some(Difference {
            vid,
            kept: self.get(vid),
            told: told.get(vid),
        })
    }

    /// Whether these sums name the same VLANs as others, with the same checksums.
    pub fn is_same(&self, others: &Sums) -> bool
        ensures { IsTrue result ↔ (named_sums self.now ≡ named_sums others.now) }
    {
        if self.rows.len() != others.rows.len() {
            return false;
        }
        for (place, row) in self.rows.iter().enumerate() {
            let other = &others.rows[place];
            if row.vid != other.vid || row.sum != other.sum {
                return false;
            }
        }
        true
    }

    // The first VLAN that these sums name whose checksum isn't the same in others.
    fn first_other(&self, others: &Sums) -> Option<Vid>
        ensures { result ≡ least_passing (differ_at (named_sums self.now) (named_sums others.now))
            (named_vlans (named_sums self.now)) }
    {
        self.tell_order();
        for row in &self.rows {
            if self.get(row.vid) != others.get(row.vid) {
                return Some(row.vid);
            }
        }
        None
    }
}

// The lesser of two VLANs by wire number, where both are there; else the one that is.
fn lesser(one: Option<Vid>, other: Option<Vid>) -> Option<Vid>
    ensures { result ≡ lesser one other }
{
    match (one, other) {
        (None, other) => other,
        (one, None) => one,
        (Some(one), Some(other)) => Some(if other < one { other } else { one }),
    }
}
