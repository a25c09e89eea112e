ghost use Rattle.std.specs.Prelude.{◌≡◌, ◌<◌, ◌≤◌, length, take, IfSome, OnOk, IfOk, OnErr, IfErr, is_err};
ghost use Rattle.std.specs.Option.{option_copied};
ghost use Rattle.std.specs.Io.{ReadsAtMost, WritesAtMost};
ghost use Rattle.std.specs.Io.KnownBytes.{Appends, ReadConsumes};
ghost use Rattle.mesh_base.specs.Faults.{Rose, HasOpenCause, CountsFault, CountsOpen};
ghost use Rattle.mesh_base.specs.Inner.Real.{source_left, IsOpenAt};

use crate::failure::{Failed, OpenErr};
use crate::fault_count::FaultCount;
use crate::outside::{Intake, PIECE_LIMIT, Sink};
use std::fs;
use std::fs::Files;
use std::io::{ErrorKind, Input, Read, Write};

/// What is read from at present.
#[derive(Drop)]
enum Source<I, F> {
    Nothing,
    Standard(I),
    File(F),
}

/// The files and the standard input of a runtime. It tells no bytes. Before it is opened, nothing
/// is left. A read that the system interrupted is a fault like any other.
#[derive(Drop)]
pub struct RealIntake<R: Files + Input> {
    runtime: R,
    source: Source<R::Reader, R::File>,
    faults: FaultCount,
}

impl<R: Files + Input + Drop> RealIntake<R> {
    /// No input opened yet. The runtime may be a reference to one.
    pub fn new(runtime: R) -> RealIntake<R>
        ensures faults { ⟦<RealIntake<R> as Intake>⟧.faults result ≡ 0 }
    {
        RealIntake {
            runtime,
            source: Source::Nothing,
            faults: FaultCount(0),
        }
    }
}

impl<R: Files + Input + Drop> Intake for RealIntake<R> {
    ghost use Rattle.std.specs.Prelude.{None};

    ghost left = { λ _. None };

    ghost named = { λ _ _. None };

    ghost faults = { λ intake. intake.faults.0 };

    fn open(&mut self, name: Option<&str>) -> Result<(), OpenErr>
        ensures cause { IfErr result (HasOpenCause self.old.faults.0 self.new.faults.0) }
        ensures count { self.old.faults.0 ≤ self.new.faults.0 }
        ensures source { OnOk result (IsOpenAt (option_copied name.entry) self.new.source) }
        ensures stays { OnErr result (self.new.source ≡ self.old.source) }

        // A fault counts one more, and nothing else does.
        ensures counted { IfErr result (CountsOpen self.old.faults.0 self.new.faults.0) }
        ensures calm { OnOk result (self.new.faults.0 ≡ self.old.faults.0) }
    {
        let Some(name) = name else {
            self.source = Source::Standard(self.runtime.reader());
            return Ok(());
        };
        match fs::open(&self.runtime, name) {
            Ok(file) => {
                self.source = Source::File(file);
                Ok(())
            }
            Err(error) if error.kind() == ErrorKind::OutOfMemory => Err(OpenErr::Memory),
            Err(_) => Err(OpenErr::from(self.faults.raise())),
        }
    }

    fn read(&mut self, buf: &mut [u8]) -> Result<usize, Failed>
        requires some { 0 < length buf.old }
        requires piece { length buf.old ≤ PIECE_LIMIT }
        ensures bound { ReadsAtMost result buf.new }
        ensures cause { OnErr result (Rose self.old.faults.0 self.new.faults.0) }
        ensures count { self.old.faults.0 ≤ self.new.faults.0 }
        ensures passes { ReadConsumes
            (source_left R.Reader.remaining R.File.remaining self.old.source)
            (source_left R.Reader.remaining R.File.remaining self.new.source) result buf.new }

        // A fault counts one more, and nothing else does.
        ensures counted { CountsFault (is_err result) self.old.faults.0 self.new.faults.0 }
    {
        let answer = match &mut self.source {
            Source::Nothing => Ok(0),
            Source::Standard(input) => input.read(buf),
            Source::File(file) => file.read(buf),
        };
        match answer {
            Ok(count) => Ok(count),
            Err(_) => Err(self.faults.raise()),
        }
    }
}

/// A writer, flushed in each write. It tells no bytes. A flush that fails is a fault, and so is a
/// write that took none of some bytes or that the system interrupted.
#[derive(Drop)]
pub struct RealSink<W> {
    writer: W,
    faults: FaultCount,
}

impl<W: Write> RealSink<W> {
    /// An output to this writer.
    pub fn new(writer: W) -> RealSink<W>
        ensures faults { ⟦<RealSink<W> as Sink>⟧.faults result ≡ 0 }
    {
        RealSink {
            writer,
            faults: FaultCount(0),
        }
    }
}

impl<W: Write> Sink for RealSink<W> {
    ghost use Rattle.std.specs.Prelude.{None};

    ghost taken = { λ _. None };

    ghost faults = { λ sink. sink.faults.0 };

    fn write(&mut self, buf: &[u8]) -> Result<usize, Failed>
        ensures bound { WritesAtMost result buf.now }
        ensures some { IfOk result (λ count. 0 < length buf.now → 0 < count) }
        ensures cause { OnErr result (Rose self.old.faults.0 self.new.faults.0) }
        ensures count { self.old.faults.0 ≤ self.new.faults.0 }
        ensures passes { IfOk result (λ count. Appends
            (W.contents self.old.writer) (W.contents self.new.writer) (take count buf.now)) }

        // A fault counts one more, and nothing else does.
        ensures counted { CountsFault (is_err result) self.old.faults.0 self.new.faults.0 }
    {
        match self.writer.write(buf) {
            Ok(count) if (count > 0 || buf.is_empty()) && self.writer.flush().is_ok() => Ok(count),
            _ => Err(self.faults.raise()),
        }
    }
}
