ghost use Rattle.std.specs.Prelude.{◌≡◌, ◌<◌};

use super::telling::{TENTH, TWO_SUM, Told, hear, hear_empty, take_part};
use mesh_base::{NoMemory, Steps};
use std::alloc::Global;
use std::marker::Brand;
use std::sync::ledger::{Blank, Ledger};
use tt_global::{Globals, Taken};

/// The outcomes of the parts of a table with the first client and the second, the later one first
/// and twice, behind one with a bad number; and whether the tables agree then.
fn exchange<L: Ledger>(alloc: Global, blank: Blank) -> Result<([Taken; 4], bool), NoMemory>
    requires name { blank.name ≡ L.name }
    requires parts { blank.parts ≡ L.parts }
    requires some { 0 < blank.parts }
{
    let mut steps = Steps::<L>::new(blank);
    let mut globals = Globals::new(alloc);
    let told = Told {
        byte: 3,
        sum: TWO_SUM,
    };
    hear_empty(alloc, &mut globals, &mut steps)?;
    hear(alloc, &mut globals, told, &[], &mut steps)?;
    let taken = [
        take_part(alloc, &mut globals, told, 2, &[], &mut steps)?,
        take_part(alloc, &mut globals, told, 1, &[2], &mut steps)?,
        take_part(alloc, &mut globals, told, 1, &[1], &mut steps)?,
        take_part(alloc, &mut globals, told, 0, &[1], &mut steps)?,
    ];
    Ok((taken, globals.is_ok(TENTH)))
}

#[test]
fn parts_make_the_table_that_was_told(rt: HostRuntime) -> Result<(), NoMemory> {
    let (taken, ok) = exchange::<Brand>(rt.alloc(), Blank::new(1))?;
    let bad = Taken::BadPart {
        number: 2,
        count: 2,
    };
    let waits = Taken::Part { have: 1, want: 0 };
    assert_eq!(rt; taken, [bad, waits, waits, Taken::Taken]);
    assert!(rt; ok);
    Ok(())
}
