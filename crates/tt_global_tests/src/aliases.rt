ghost use Rattle.std.specs.Prelude.{◌≡◌, ◌<◌};

use super::telling::{TENTH, TWO_SUM, Told, client, hear, hear_empty};
use mesh_base::{NoMemory, Steps};
use std::alloc::Global;
use std::marker::Brand;
use std::sync::ledger::{Blank, Ledger};
use tt_global::{Globals, Heard};

/// The table of the first client and the second, and that of the fifth and the sixth, which has the
/// same checksum: 1 xor 2 is 5 xor 6.
const BOTH: Told = Told {
    byte: 1,
    sum: TWO_SUM,
};

/// The outcomes of announcements, of which the last two are of different tables under one byte and
/// one checksum, and what is known then.
fn alias_announced<L: Ledger>(
    alloc: Global,
    blank: Blank,
) -> Result<([Heard; 3], Globals), NoMemory>
    requires name { blank.name ≡ L.name }
    requires parts { blank.parts ≡ L.parts }
    requires some { 0 < blank.parts }
{
    let mut steps = Steps::<L>::new(blank);
    let mut globals = Globals::new(alloc);
    let heard = [
        hear_empty(alloc, &mut globals, &mut steps)?,
        hear(alloc, &mut globals, BOTH, &[1, 2], &mut steps)?,
        hear(alloc, &mut globals, BOTH, &[], &mut steps)?,
    ];
    Ok((heard, globals))
}

#[test]
fn an_alias_is_taken_for_the_held_table(rt: HostRuntime) -> Result<(), NoMemory> {
    let (heard, globals) = alias_announced::<Brand>(rt.alloc(), Blank::new(1))?;
    assert_eq!(rt; heard, [Heard::Emptied, Heard::Applied, Heard::Same]);
    assert_eq!(rt; globals.is_ok(TENTH), true);
    assert_eq!(rt; globals.agreed_byte(TENTH), Some(1));
    for (last, holder) in [(1, Some(TENTH)), (2, Some(TENTH)), (5, None), (6, None)] {
        assert_eq!(rt;
            globals.holder(client(last).key, 0),
            holder,
            "client {last}"
        );
    }
    Ok(())
}
