use mesh_base::{Entry, Vid};

/// A VLAN at which two lists of checksums differ, with its checksum in each.
#[derive(Clone, Copy, Debug, PartialEq, Eq)]
pub struct Difference {
    pub vid: Vid,
    pub kept: u32,
    pub told: u32,
}

/// What an announcement makes of the table that is held of an originator.
#[derive(Clone, Copy, Debug, PartialEq, Eq)]
pub enum Heard {
    /// No VLAN is announced: the empty table is held.
    Emptied,
    /// Nothing is held.
    Unheld { told: u8 },
    /// The held table has the announced byte and sums.
    Same,
    /// The held table, or that to which the changes lead, has another sum in this VLAN.
    SumDiffers { vid: Vid, kept: u32, told: u32 },
    /// The announced byte isn't the next after the held one.
    Gap { held: u8, told: u8 },
    /// The announced byte is the next after the held one, and no changes came with it.
    Bare { held: u8, told: u8 },
    /// The changes don't apply strictly: this is the entry of the first that fails.
    Clash { entry: Entry },
    /// The changes were applied.
    Applied,
}

/// What an answer makes of the table that is held of an originator.
#[derive(Clone, Copy, Debug, PartialEq, Eq)]
pub enum Taken {
    /// A part came whose count is 0 or above 4, or whose number isn't below its count.
    BadPart { number: u16, count: u16 },
    /// The answer's byte isn't the one that was announced, or none was.
    NotTold { told: u8, wanted: Option<u8> },
    /// The announced sum and the carried one, or that of the result and the announced one, differ
    /// in this VLAN.
    SumDiffers { vid: Vid, kept: u32, told: u32 },
    /// A part came, so many are there with it, and this is the least number that is missing.
    Part { have: u16, want: u16 },
    /// Changes came, and nothing is held.
    Unheld,
    /// Changes came, and their byte isn't the next after the held one.
    Gap { held: u8, told: u8 },
    /// The records don't apply strictly: this is the entry of the first that fails.
    Clash { entry: Entry },
    /// The table to which the answer leads is held.
    Taken,
}

/// What a request asks of an originator's table.
#[derive(Clone, Copy, Debug, PartialEq, Eq)]
pub enum Request {
    /// The whole table.
    Full,
    /// The last commit's changes, if they will do.
    Changes,
}
