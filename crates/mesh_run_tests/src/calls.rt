use super::ended::{ROOM, owned};
use mesh_base::{MemIntake, MemSink};
use mesh_run::{FINISHED, USAGE, batmesh};
use std::alloc::Global;
use std::test::Fail;

/// One node, and its local table.
const SHOWN: &[u8] = b"node A 02:00:00:00:00:0a\nshow A tl\n";

/// The words of a call, the status, what is written to out and to err, and whether the intake is
/// opened.
type Row<'a> = (&'a [&'a str], u8, &'a [u8], &'a [u8], bool);

/// Whether the program, called with the words of a row, leaves what the row says. The intake fails
/// at its first call where it isn't to be opened.
fn is_answered(alloc: Global, row: &Row<'_>) -> Result<bool, Fail> {
    let (words, status, printed, told, opened) = row;
    let words = owned(alloc, *words)?;
    let fails: &[u64] = if *opened { &[] } else { &[1] };
    let mut intake = MemIntake::new(alloc, SHOWN, 40, fails)?;
    let mut out = MemSink::new(alloc, ROOM, ROOM, &[])?;
    let mut err = MemSink::new(alloc, ROOM, ROOM, &[])?;
    let ended = batmesh(alloc, words.as_slice(), &mut intake, &mut out, &mut err);
    Ok(ended == *status && intake.faults() == 0 && out.taken() == *printed && err.taken() == *told)
}

#[test]
fn words_name_the_lines(rt: HostRuntime) -> Result<(), Fail> {
    let table = b"tl A version=0 clients=0\n".as_slice();
    let usage = b"batmesh: usage\n".as_slice();
    let rows: [Row<'_>; 4] = [
        (&["x.scn"], FINISHED, table, b"", true),
        (&["--frames", "all", "none"], FINISHED, table, b"", true),
        (&["--generate", "3", "x"], USAGE, b"", usage, false),
        (&["--generate", "65"], USAGE, b"", usage, false),
    ];
    for row in &rows {
        assert!(rt; is_answered(rt.alloc(), row)?);
    }
    Ok(())
}
