ghost use Rattle.std.specs.Prelude.{◌≡◌, ◌<◌};

use super::telling::{
    FIRST_SUM, TENTH, TWO_SUM, Told, client, hear, hear_empty, take_changes, take_full,
};
use mesh_base::{NoMemory, Steps, Vid};
use std::alloc::Global;
use std::marker::Brand;
use std::sync::ledger::{Blank, Ledger};
use tt_global::{GlobalRow, Globals, Heard, Taken};

/// The table of the first client, under this byte.
fn first_under(byte: u8) -> Told {
    Told {
        byte,
        sum: FIRST_SUM,
    }
}

/// The outcomes of announcements, one after another.
fn announce_all<L: Ledger>(
    alloc: Global,
    globals: &mut Globals,
    steps: &mut Steps<L>,
) -> Result<[Heard; 6], NoMemory> {
    let other = Told {
        byte: 1,
        sum: TWO_SUM,
    };
    Ok([
        hear_empty(alloc, globals, steps)?,
        hear(alloc, globals, first_under(1), &[1], steps)?,
        hear(alloc, globals, other, &[], steps)?,
        hear(alloc, globals, first_under(2), &[1], steps)?,
        hear(alloc, globals, first_under(2), &[], steps)?,
        hear(alloc, globals, first_under(5), &[], steps)?,
    ])
}

/// The byte that was told last, where the held table has it and the sums.
fn settled_byte(globals: &Globals) -> Option<u8> {
    let (byte, _sums) = globals.settled(TENTH)?;
    Some(byte)
}

/// The outcomes of answers, one after another, and whether the second made the tables agree, so
/// that what was told would change nothing.
fn answer_all<L: Ledger>(
    alloc: Global,
    globals: &mut Globals,
    steps: &mut Steps<L>,
) -> Result<([Taken; 3], bool), NoMemory> {
    let early = take_full(alloc, globals, first_under(2), &[1], steps)?;
    let full = take_full(alloc, globals, first_under(5), &[1], steps)?;
    let ok = globals.is_ok(TENTH) && settled_byte(globals) == Some(5);
    let next = first_under(6);
    hear(alloc, globals, next, &[], steps)?;
    let changes = take_changes(alloc, globals, next, &[9], true, steps)?;
    Ok(([early, full, changes], ok))
}

/// Announcements and then answers, and what is known then.
fn exchange<L: Ledger>(
    alloc: Global,
    blank: Blank,
) -> Result<([Heard; 6], ([Taken; 3], bool), Globals), NoMemory>
    requires name { blank.name ≡ L.name }
    requires parts { blank.parts ≡ L.parts }
    requires some { 0 < blank.parts }
{
    let mut steps = Steps::<L>::new(blank);
    let mut globals = Globals::new(alloc);
    let heard = announce_all(alloc, &mut globals, &mut steps)?;
    let taken = answer_all(alloc, &mut globals, &mut steps)?;
    Ok((heard, taken, globals))
}

/// The outcomes of the announcements.
fn heard_outcomes() -> [Heard; 6] {
    let differs = Heard::SumDiffers {
        vid: Vid::UNTAGGED,
        kept: FIRST_SUM,
        told: TWO_SUM,
    };
    [
        Heard::Emptied,
        Heard::Applied,
        differs,
        Heard::Clash { entry: client(1) },
        Heard::Bare { held: 1, told: 2 },
        Heard::Gap { held: 1, told: 5 },
    ]
}

/// The outcomes of the answers.
fn taken_outcomes() -> [Taken; 3] {
    let early = Taken::NotTold {
        told: 2,
        wanted: Some(5),
    };
    [early, Taken::Taken, Taken::Clash { entry: client(9) }]
}

#[test]
fn announcements_and_answers_have_their_outcomes(rt: HostRuntime) -> Result<(), NoMemory> {
    let (heard, taken, mut globals) = exchange::<Brand>(rt.alloc(), Blank::new(1))?;
    assert_eq!(rt; heard, heard_outcomes());
    assert_eq!(rt; taken, (taken_outcomes(), true));
    let row = GlobalRow {
        orig: TENTH,
        held: Some(5),
        told: 6,
        ok: false,
    };
    assert_eq!(rt; globals.row_at(0), Some(row));
    assert_eq!(rt; globals.agreed_byte(TENTH), None);
    assert_eq!(rt; globals.holder(client(1).key, 0), Some(TENTH));
    globals.drop_orig(TENTH);
    assert_eq!(rt; globals.holder(client(1).key, 0), None);
    Ok(())
}
