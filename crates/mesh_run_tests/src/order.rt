ghost use Rattle.std.specs.Prelude.{◌≡◌, ◌<◌, ◌≤◌, length, None};

use super::ended::ROOM;
use mesh_base::{Failed, Intake, MemSink, OpenErr, Sink};
use mesh_run::{FINISHED, batmesh};
use std::cell::Cell;
use std::test::Fail;

/// A line, and what it prints.
const SHORT: &[u8] = b"decode 00\n";

const SHORT_PRINTED: &[u8] = b"bad short have=1 need=2\n";

/// How many bytes 2,000 such lines have.
const GIVEN: usize = 20_000;

/// An intake of such lines that sees at each read whether those that it gave are printed.
#[derive(Drop)]
struct Watching<'a> {
    written: &'a Cell<usize>,
    given: usize,
    is_late: bool,
}

impl<'a> Intake for Watching<'a> {
    ghost left = { λ _. None };

    ghost named = { λ _ _. None };

    ghost faults = { λ _. 0 };

    fn open(&mut self, _name: Option<&str>) -> Result<(), OpenErr> {
        Ok(())
    }

    fn read(&mut self, buf: &mut [u8]) -> Result<usize, Failed> {
        let lines = self.given / SHORT.len();
        if self.written.get() != lines.saturating_mul(SHORT_PRINTED.len()) {
            self.is_late = true;
        }
        let count = buf.len().min(GIVEN.saturating_sub(self.given));
        let mut offset = self.given;
        for place in buf[..count].iter_mut() {
            *place = SHORT[offset % SHORT.len()];
            offset = offset.wrapping_add(1);
        }
        self.given = offset;
        Ok(count)
    }
}

/// A sink that counts the bytes that it takes.
#[derive(Drop)]
struct Watched<'a> {
    written: &'a Cell<usize>,
}

impl<'a> Sink for Watched<'a> {
    ghost taken = { λ _. None };

    ghost faults = { λ _. 0 };

    fn write(&mut self, buf: &[u8]) -> Result<usize, Failed> {
        self.written
            .set(self.written.get().saturating_add(buf.len()));
        Ok(buf.len())
    }
}

#[test]
fn each_line_is_printed_before_the_next_read(rt: HostRuntime) -> Result<(), Fail> {
    let written = Cell::new(0);
    let mut intake = Watching {
        written: &written,
        given: 0,
        is_late: false,
    };
    let mut out = Watched { written: &written };
    let mut err = MemSink::new(rt.alloc(), ROOM, ROOM, &[])?;
    let status = batmesh(rt.alloc(), &[], &mut intake, &mut out, &mut err);
    assert_eq!(rt;
        (status, intake.given, intake.is_late),
        (FINISHED, GIVEN, false)
    );
    assert_eq!(rt; written.get(), 48_000);
    Ok(())
}
