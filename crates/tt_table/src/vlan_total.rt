ghost use Rattle.std.specs.Prelude.{◌≡◌, ◌+◌, ◌<◌, ◌^◌, false};
ghost use Rattle.tt_table.specs.Sums.{row_after};

use mesh_base::Vid;

/// The checksum of a VLAN, and how many entries of a table it is made of: none where it was told.
#[derive(Clone, Copy, Debug)]
pub(crate) struct VlanTotal {
    pub(crate) vid: Vid,
    pub(crate) sum: u32,
    pub(crate) entries: usize,
}

impl VlanTotal {
    /// A VLAN with this checksum, of no entries.
    pub(crate) fn new(vid: Vid, sum: u32) -> VlanTotal
        ensures { result ≡ record { vid = vid; sum = sum; entries = 0 } }
    {
        VlanTotal {
            vid,
            sum,
            entries: 0,
        }
    }

    /// Goes along with a change of an entry that has this sum.
    pub(crate) fn follow(&mut self, sum: u32, del: bool)
        requires few { del ≡ false → self.old.entries + 1 < 2 ^ 64 }
        ensures { self.new ≡ row_after sum del self.old }
    {
        self.sum ^= sum;
        self.entries = if del {
            self.entries.saturating_sub(1)
        } else {
            self.entries + 1
        };
    }
}
