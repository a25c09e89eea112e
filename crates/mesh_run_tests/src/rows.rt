ghost use Rattle.std.specs.Prelude.{◌<◌};

use super::ended::{ROOM, SHOWN_TWICE, TABLE, TABLE_TWICE, UNKNOWN_AT_7, leaves};
use mesh_base::{MemIntake, MemSink};
use mesh_run::{FINISHED, REFUSED};
use std::alloc::Global;
use std::test::Fail;

/// An input, the status of its run, and what the run writes to out and to err.
type Row<'a> = (&'a [u8], u8, &'a [u8], &'a [u8]);

/// Whether an input that is carried out in pieces of a size leaves what its row says.
fn is_carried_out(alloc: Global, row: &Row<'_>, piece: usize) -> Result<bool, Fail>
    requires { 0 < piece }
{
    let (input, status, printed, told) = row;
    let intake = MemIntake::new(alloc, *input, piece, &[])?;
    let out = MemSink::new(alloc, ROOM, piece, &[])?;
    let err = MemSink::new(alloc, ROOM, piece, &[])?;
    Ok(leaves(alloc, intake, out, err, *status, *printed, *told))
}

#[test]
fn local_tables_are_printed(rt: HostRuntime) -> Result<(), Fail> {
    let rows: [Row<'_>; 4] = [
        (
            b"node A 02:00:00:00:00:0a\n\
            frame A 02:00:00:00:01:01 ff:ff:ff:ff:ff:ff - hi\n\
            show A tl\n",
            FINISHED,
            TABLE,
            b"",
        ),
        (b"", FINISHED, b"", b""),
        // A last line needs no newline.
        (
            b"node A 02:00:00:00:00:0a\n\
            frame A 02:00:00:00:01:01 ff:ff:ff:ff:ff:ff - hi\n\
            show A tl",
            FINISHED,
            TABLE,
            b"",
        ),
        (SHOWN_TWICE, REFUSED, TABLE_TWICE, UNKNOWN_AT_7),
    ];
    for row in &rows {
        for piece in [1, 3, 7, 5000] {
            assert!(rt;
                is_carried_out(rt.alloc(), row, piece)?,
                "in pieces of {piece}"
            );
        }
    }
    Ok(())
}
