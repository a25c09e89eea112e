use super::ended::{ROOM, SHOWN_TWICE, TABLE_TWICE, UNKNOWN_AT_7, leaves, owned, run_over};
use mesh_base::{MemIntake, MemSink};
use mesh_run::{LIMITED, READ_FAULT, REFUSED, USAGE, WRITE_FAULT, batmesh};
use std::alloc::Global;
use std::test::Fail;

// Whether an output with room for so many bytes holds as many of what is printed, and the end tells
// whether that was all.
fn is_filled(alloc: Global, room: usize) -> Result<bool, Fail> {
    let (status, told) = if room < TABLE_TWICE.len() {
        (WRITE_FAULT, b"batmesh: write fault\n".as_slice())
    } else {
        (REFUSED, UNKNOWN_AT_7)
    };
    let printed = TABLE_TWICE.get(..room).unwrap_or(TABLE_TWICE);
    let intake = MemIntake::new(alloc, SHOWN_TWICE, 40, &[])?;
    let out = MemSink::new(alloc, room, 7, &[])?;
    let err = MemSink::new(alloc, ROOM, ROOM, &[])?;
    Ok(leaves(alloc, intake, out, err, status, printed, told))
}

#[test]
fn an_output_that_is_full_holds_the_front_that_fits(rt: HostRuntime) -> Result<(), Fail> {
    for room in 0..=TABLE_TWICE.len() {
        assert!(rt; is_filled(rt.alloc(), room)?, "with room for {room}");
    }
    Ok(())
}

/// An input, the calls of it that fail, the room of the output, and the status.
type Row<'a> = (&'a [u8], &'a [u64], usize, u8);

// Whether the status is that of the row over an error output with so much room whose writes of
// these numbers fail, which tells of one fault and takes nothing.
fn is_untold(alloc: Global, row: Row<'_>, room: usize, writes: &[u64]) -> Result<bool, Fail> {
    let (input, reads, printable, status) = row;
    let intake = MemIntake::new(alloc, input, 40, reads)?;
    let out = MemSink::new(alloc, printable, ROOM, &[])?;
    let err = MemSink::new(alloc, room, ROOM, writes)?;
    let ended = run_over(alloc, intake, out, err);
    Ok(ended.status == status && ended.err.faults() == 1 && ended.err.taken().is_empty())
}

#[test]
fn a_failing_error_output_changes_no_status(rt: HostRuntime) -> Result<(), Fail> {
    // The second call of the input is its first read.
    let rows: [Row<'_>; 4] = [
        (SHOWN_TWICE, &[], ROOM, REFUSED),
        (SHOWN_TWICE, &[2], ROOM, READ_FAULT),
        (SHOWN_TWICE, &[], 0, WRITE_FAULT),
        (&[b'#'; 4097], &[], ROOM, LIMITED),
    ];
    for row in rows {
        assert!(rt; is_untold(rt.alloc(), row, 0, &[])?);
        assert!(rt; is_untold(rt.alloc(), row, ROOM, &[1])?);
    }
    Ok(())
}

// Whether words that aren't taken touch neither input nor output, over an error output with so much
// room, which takes this text.
fn is_untouched(alloc: Global, room: usize, told: &[u8]) -> Result<bool, Fail> {
    // The first call of the input or the output would be counted as a fault.
    let mut intake = MemIntake::new(alloc, SHOWN_TWICE, 40, &[1])?;
    let mut out = MemSink::new(alloc, ROOM, ROOM, &[1])?;
    let mut err = MemSink::new(alloc, room, ROOM, &[])?;
    let words = owned(alloc, &["--frames", "some"])?;
    let status = batmesh(alloc, words.as_slice(), &mut intake, &mut out, &mut err);
    Ok(status == USAGE && intake.faults() == 0 && out.faults() == 0 && err.taken() == told)
}

#[test]
fn words_that_are_not_taken_touch_nothing(rt: HostRuntime) -> Result<(), Fail> {
    assert!(rt; is_untouched(rt.alloc(), ROOM, b"batmesh: usage\n")?);
    assert!(rt; is_untouched(rt.alloc(), 0, b"")?);
    Ok(())
}
