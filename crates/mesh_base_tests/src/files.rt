use mesh_base::{Intake, OpenErr, RealIntake, RealSink, Sink, write_all};
use std::fs;
use std::io::{self, BufWriter, ErrorKind, Write};
use std::test::Fail;

#[test]
fn a_file_gives_what_was_written_to_it(rt: HostRuntime) -> Result<(), Fail> {
    let name = "a_file_gives_what_was_written_to_it.txt";
    write_all(&mut RealSink::new(fs::create(&rt, name)?), b"a text")?;
    let mut intake = RealIntake::new(&rt);
    let mut buf = [0; 16];
    assert_eq!(rt; intake.open(Some("no such file")), Err(OpenErr::Failed));
    assert_eq!(rt; intake.read(&mut buf), Ok(0));
    assert_eq!(rt; intake.open(Some(name)), Ok(()));
    assert_eq!(rt; intake.read(&mut buf), Ok(6));
    assert_eq!(rt; &buf[..6], b"a text".as_slice());
    assert_eq!(rt; intake.read(&mut buf), Ok(0));
    fs::remove_file(&rt, name)?;
    Ok(())
}

/// A writer that takes all, and whose flushes fail.
#[derive(Drop)]
struct StuckWriter;

impl Write for StuckWriter {
    fn write(&mut self, buf: &[u8]) -> io::Result<usize> {
        Ok(buf.len())
    }

    fn flush(&mut self) -> io::Result<()> {
        Err(io::Error::from(ErrorKind::Other))
    }
}

#[test]
fn a_flush_that_fails_is_a_fault(rt: HostRuntime) {
    let mut sink = RealSink::new(StuckWriter);
    assert_eq!(rt; sink.write(b"a").is_err(), true);
}

#[test]
fn a_write_reaches_the_file_before_the_next(rt: HostRuntime) -> Result<(), Fail> {
    let name = "a_write_reaches_the_file_before_the_next.txt";
    let mut sink = RealSink::new(BufWriter::new(rt.alloc(), fs::create(&rt, name)?)?);
    assert_eq!(rt; sink.write(b"a"), Ok(1));
    let mut intake = RealIntake::new(&rt);
    let mut buf = [0; 16];
    assert_eq!(rt; intake.open(Some(name)), Ok(()));
    assert_eq!(rt; intake.read(&mut buf), Ok(1));
    fs::remove_file(&rt, name)?;
    Ok(())
}
