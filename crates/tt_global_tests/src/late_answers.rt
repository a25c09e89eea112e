ghost use Rattle.std.specs.Prelude.{◌≡◌, ◌<◌};

use super::telling::{FIRST_SUM, TENTH, TWO_SUM, Told, hear, hear_empty, take_changes, take_full};
use mesh_base::{NoMemory, Steps};
use std::alloc::Global;
use std::marker::Brand;
use std::sync::ledger::{Blank, Ledger};
use tt_global::{Globals, Heard, Taken};

/// The table of the first client.
const ONE: Told = Told {
    byte: 1,
    sum: FIRST_SUM,
};

/// The table of the first two clients.
const TWO: Told = Told {
    byte: 2,
    sum: TWO_SUM,
};

/// The table of the first three clients.
const THREE: Told = Told {
    byte: 3,
    sum: 0x73cb_5017,
};

/// The outcomes of announcements of one, two and three clients, of which the first brings changes.
fn announce_three<L: Ledger>(
    alloc: Global,
    globals: &mut Globals,
    steps: &mut Steps<L>,
) -> Result<[Heard; 3], NoMemory> {
    hear_empty(alloc, globals, steps)?;
    Ok([
        hear(alloc, globals, ONE, &[1], steps)?,
        hear(alloc, globals, TWO, &[], steps)?,
        hear(alloc, globals, THREE, &[], steps)?,
    ])
}

/// The byte of the held table.
fn held_byte(globals: &Globals) -> Option<u8> {
    let (byte, _table) = globals.held(TENTH)?;
    Some(byte)
}

/// The outcome of the changes to two clients, which come late, and the byte that is held then; and
/// that of the whole table of three.
fn answer_late<L: Ledger>(
    alloc: Global,
    globals: &mut Globals,
    steps: &mut Steps<L>,
) -> Result<(Taken, Option<u8>, Taken), NoMemory> {
    let late = take_changes(alloc, globals, TWO, &[2], false, steps)?;
    let kept = held_byte(globals);
    let full = take_full(alloc, globals, THREE, &[1, 2, 3], steps)?;
    Ok((late, kept, full))
}

/// Announcements and a late answer, and what is known then.
fn late_answer<L: Ledger>(
    alloc: Global,
    blank: Blank,
) -> Result<([Heard; 3], (Taken, Option<u8>, Taken), Globals), NoMemory>
    requires name { blank.name ≡ L.name }
    requires parts { blank.parts ≡ L.parts }
    requires some { 0 < blank.parts }
{
    let mut steps = Steps::<L>::new(blank);
    let mut globals = Globals::new(alloc);
    let heard = announce_three(alloc, &mut globals, &mut steps)?;
    let taken = answer_late(alloc, &mut globals, &mut steps)?;
    Ok((heard, taken, globals))
}

#[test]
fn an_answer_that_comes_late_changes_nothing(rt: HostRuntime) -> Result<(), NoMemory> {
    let (heard, taken, globals) = late_answer::<Brand>(rt.alloc(), Blank::new(1))?;
    let bare = Heard::Bare { held: 1, told: 2 };
    let gap = Heard::Gap { held: 1, told: 3 };
    assert_eq!(rt; heard, [Heard::Applied, bare, gap]);
    let late = Taken::NotTold {
        told: 2,
        wanted: Some(3),
    };
    assert_eq!(rt; taken, (late, Some(1), Taken::Taken));
    assert_eq!(rt; globals.is_ok(TENTH), true);
    Ok(())
}
