//! What the tenth node tells of its table. The calls here have no clauses, so that the check of
//! what makes them often stays short.

use mesh_base::{Entry, Key, Mac, NoMemory, Steps, Vid};
use std::alloc::Global;
use std::sync::ledger::Ledger;
use tt_global::{Globals, Heard, Taken};
use tt_table::{Announcement, Change, Changes, Sums};

/// The checksum of the first client's entry.
pub const FIRST_SUM: u32 = 0x81a0_d314;
/// The checksum of the first client and the second, as another program computed it.
pub const TWO_SUM: u32 = 0x1350_f3f4;

/// The originator.
pub const TENTH: Mac = Mac([2, 0, 0, 0, 0, 10]);

/// An untagged client without flags.
pub fn client(last: u8) -> Entry {
    let key = Key {
        mac: Mac([2, 0, 0, 0, 1, last]),
        vid: Vid::UNTAGGED,
    };
    Entry { key, flags: 0 }
}

/// The sums that name the untagged VLAN alone.
fn untagged(alloc: Global, sum: u32) -> Result<Sums, NoMemory> {
    let mut sums = Sums::new(alloc);
    sums.set(Vid::UNTAGGED, sum)?;
    Ok(sums)
}

/// The additions of clients, or their removals, by the last bytes of their addresses.
fn changes_of(alloc: Global, clients: &[u8], del: bool) -> Result<Changes, NoMemory> {
    let mut changes = Changes::new(alloc);
    for last in clients {
        let entry = client(*last);
        changes.push(Change { entry, del })?;
    }
    Ok(changes)
}

/// What a table is told under: a byte, and the sum of the untagged VLAN.
#[derive(Clone, Copy)]
pub struct Told {
    pub byte: u8,
    pub sum: u32,
}

/// Takes an announcement of the empty table under byte 0.
pub fn hear_empty<L: Ledger>(
    alloc: Global,
    globals: &mut Globals,
    steps: &mut Steps<L>,
) -> Result<Heard, NoMemory> {
    let announced = Announcement {
        byte: 0,
        sums: Sums::new(alloc),
        changes: Changes::new(alloc),
    };
    globals.announce(TENTH, &announced, steps)
}

/// Takes an announcement that adds these clients.
pub fn hear<L: Ledger>(
    alloc: Global,
    globals: &mut Globals,
    told: Told,
    clients: &[u8],
    steps: &mut Steps<L>,
) -> Result<Heard, NoMemory> {
    let announced = Announcement {
        byte: told.byte,
        sums: untagged(alloc, told.sum)?,
        changes: changes_of(alloc, clients, false)?,
    };
    globals.announce(TENTH, &announced, steps)
}

/// Takes an answer with a whole table, of these clients.
pub fn take_full<L: Ledger>(
    alloc: Global,
    globals: &mut Globals,
    told: Told,
    clients: &[u8],
    steps: &mut Steps<L>,
) -> Result<Taken, NoMemory> {
    let sums = untagged(alloc, told.sum)?;
    let records = changes_of(alloc, clients, false)?;
    globals.take_full(TENTH, told.byte, &sums, &records, steps)
}

/// Takes an answer with changes, which adds these clients or removes them.
pub fn take_changes<L: Ledger>(
    alloc: Global,
    globals: &mut Globals,
    told: Told,
    clients: &[u8],
    del: bool,
    steps: &mut Steps<L>,
) -> Result<Taken, NoMemory> {
    let sums = untagged(alloc, told.sum)?;
    let records = changes_of(alloc, clients, del)?;
    globals.take_changes(TENTH, told.byte, &sums, &records, steps)
}

/// Takes one of two parts of an answer with a whole table, which has these clients.
pub fn take_part<L: Ledger>(
    alloc: Global,
    globals: &mut Globals,
    told: Told,
    number: u16,
    clients: &[u8],
    steps: &mut Steps<L>,
) -> Result<Taken, NoMemory> {
    let sums = untagged(alloc, told.sum)?;
    let records = changes_of(alloc, clients, false)?;
    globals.take_part(TENTH, told.byte, &sums, number, 2, &records, steps)
}
