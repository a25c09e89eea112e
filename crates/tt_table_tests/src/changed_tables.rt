ghost use Rattle.std.specs.Prelude.{◌≡◌, ◌+◌, ◌<◌, ◌≤◌, length};

use mesh_base::{Entry, Key, Mac, NoMemory, Steps, Vid};
use std::alloc::Global;
use std::marker::Brand;
use std::sync::ledger::{Blank, Ledger};
use std::test::Fail;
use tt_table::{ApplyErr, Change, Changes, Table};

/// An untagged client without flags, by the last bytes of its address.
fn client(high: u8, low: u8) -> Entry {
    let key = Key {
        mac: Mac([2, 0, 0, 0, high, low]),
        vid: Vid::UNTAGGED,
    };
    Entry { key, flags: 0 }
}

/// The one change of an entry.
fn one(alloc: Global, entry: Entry, del: bool) -> Result<Changes, NoMemory> {
    let mut changes = Changes::new(alloc);
    changes.push(Change { entry, del })?;
    Ok(changes)
}

// A deletion and two additions of one client, one after another, on a table without clients: their
// outcomes, and the table then.
fn outcomes<L: Ledger>(
    alloc: Global,
    blank: Blank,
    entry: Entry,
) -> Result<([Result<(), ApplyErr>; 3], Table), NoMemory>
    requires name { blank.name ≡ L.name }
    requires parts { blank.parts ≡ L.parts }
    requires some { 0 < blank.parts }
{
    let mut steps = Steps::<L>::new(blank);
    let mut table = Table::new(alloc);
    let deletion = one(alloc, entry, true)?;
    let addition = one(alloc, entry, false)?;
    let missing = table.apply(&deletion, &mut steps);
    let added = table.apply(&addition, &mut steps);
    let present = table.apply(&addition, &mut steps);
    Ok(([missing, added, present], table))
}

#[test]
fn changes_apply_strictly_or_not_at_all(rt: HostRuntime) -> Result<(), Fail> {
    let entry = client(1, 1);
    let (outcomes, table) = outcomes::<Brand>(rt.alloc(), Blank::new(1), entry)?;
    let missing = Err(ApplyErr::Missing { entry });
    let present = Err(ApplyErr::Present { key: entry.key });
    assert_eq!(rt; outcomes, [missing, Ok(()), present]);
    assert_eq!(rt; (table.entry_at(0), table.entry_at(1)), (Some(entry), None));
    Ok(())
}

// One change of a table, at one step and with what was reserved.
fn change_once<L: Ledger>(
    table: &mut Table,
    changes: &Changes,
    steps: &mut Steps<L>,
) -> Result<(), ApplyErr>
    requires one { length changes.now ≤ 1 }
    ensures step { steps.new ≤ steps.old + 1 }
{
    table.apply(changes, steps)
}

// A table with these clients and one more, which is added in one step.
fn one_more<L: Ledger>(alloc: Global, blank: Blank, many: &Changes) -> Result<Table, Fail>
    requires name { blank.name ≡ L.name }
    requires parts { blank.parts ≡ L.parts }
    requires some { 0 < blank.parts }
{
    let mut steps = Steps::<L>::new(blank);
    let mut table = Table::new(alloc);
    let mut addition = Changes::new(alloc);
    let entry = client(0xff, 1);
    addition.push(Change { entry, del: false })?;
    table.apply(many, &mut steps)?;
    table.reserve(1)?;
    change_once(&mut table, &addition, &mut steps)?;
    Ok(table)
}

#[test]
fn one_change_of_a_thousand_clients_takes_one_step(rt: HostRuntime) -> Result<(), Fail> {
    let mut many = Changes::new(rt.alloc());
    for number in 0..1000_u16 {
        let [high, low] = number.to_be_bytes();
        let entry = client(high, low);
        many.push(Change { entry, del: false })?;
    }
    let table = one_more::<Brand>(rt.alloc(), Blank::new(1), &many)?;
    let last = (table.entry_at(1000), table.entry_at(1001));
    assert_eq!(rt; last, (Some(client(0xff, 1)), None));
    Ok(())
}
