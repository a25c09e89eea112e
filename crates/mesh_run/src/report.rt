//! What the error output is told of a fault.

ghost use Rattle.std.specs.Prelude.{◌≡◌, ◌≤◌, OnOk, OnErr};
ghost use Rattle.std.specs.Io.KnownBytes.{Appends};
ghost use Rattle.mesh_base.specs.Faults.{Rose};
ghost use Rattle.mesh_run.specs.Inner.Reading.{fault_text};
ghost use Rattle.mesh_model.specs.Text.Messages.{halt_text, limit_words, refusal_words, stop_words};

use crate::fault::Fault;
use mesh_base::{Failed, Sink, write_all};
use mesh_model::{LimitName, Refusal, Stop};

/// The words of a refusal.
fn refusal_words(refusal: Refusal) -> &'static [u8]
    ensures { result.now ≡ refusal_words refusal }
{
    match refusal {
        Refusal::BadUtf8 => b"bad utf-8",
        Refusal::UnknownCommand => b"unknown command",
        Refusal::MissingWord => b"missing word",
        Refusal::BadName => b"bad name",
        Refusal::BadMac => b"bad mac",
        Refusal::BadNumber => b"bad number",
        Refusal::OutOfRange => b"out of range",
        Refusal::ExtraWord => b"extra word",
        Refusal::UnknownName => b"unknown name",
        Refusal::WrongKind => b"wrong kind",
        Refusal::NameTaken => b"name taken",
        Refusal::AddressTaken => b"address taken",
        Refusal::SameNode => b"same node",
        Refusal::LinkTaken => b"link taken",
        Refusal::AlgoAfterNode => b"algo after node",
        Refusal::NoSuchFrame => b"no such frame",
        Refusal::Attached => b"attached",
        Refusal::BadRoute => b"bad route",
        Refusal::TimeBack => b"time back",
    }
}

/// The name of a limit.
fn limit_words(name: LimitName) -> &'static [u8]
    ensures { result.now ≡ limit_words name }
{
    match name {
        LimitName::Line => b"line",
        LimitName::Input => b"input",
        LimitName::Nodes => b"nodes",
        LimitName::Links => b"links",
        LimitName::Lans => b"lans",
        LimitName::Clients => b"clients",
        LimitName::Vlans => b"vlans",
        LimitName::Frames => b"frames",
        LimitName::FrameBytes => b"frame-bytes",
        LimitName::Cuts => b"cuts",
        LimitName::Clock => b"clock",
        LimitName::Pairs => b"pairs",
    }
}

/// Writes the words of a stop.
fn tell_stop<E: Sink>(err: &mut E, stop: Stop) -> Result<(), Failed>
    ensures told { OnOk result (Appends (E.taken err.old) (E.taken err.new) (stop_words stop)) }
    ensures cause { OnErr result (Rose (E.faults err.old) (E.faults err.new)) }
    ensures count { E.faults err.old ≤ E.faults err.new }
{
    match stop {
        Stop::Refused(refusal) => write_all(err, refusal_words(refusal))?,
        Stop::Limit(name) => {
            write_all(err, b"limit ")?;
            write_all(err, limit_words(name))?;
        }
    }
    Ok(())
}

/// Writes where and why a run halted, as a line. It takes no memory.
#[tactic(auto, unfolding(mesh_model::specs::Text::Messages::halt_text))]
pub fn tell_halt<E: Sink>(err: &mut E, line: u64, stop: Stop) -> Result<(), Failed>
    ensures told { OnOk result (Appends (E.taken err.old) (E.taken err.new)
        (halt_text (record { line = line; stop = stop }))) }
    ensures cause { OnErr result (Rose (E.faults err.old) (E.faults err.new)) }
    ensures count { E.faults err.old ≤ E.faults err.new }
{
    let mut digits = itoa::Buffer::new();
    write_all(err, b"batmesh: line ")?;
    write_all(err, digits.format(line).as_bytes())?;
    write_all(err, b": ")?;
    tell_stop(err, stop)?;
    write_all(err, b"\n")?;
    Ok(())
}

/// Writes the text of a fault. It takes no memory.
pub fn tell_fault<E: Sink>(err: &mut E, fault: Fault) -> Result<(), Failed>
    ensures told { OnOk result (Appends (E.taken err.old) (E.taken err.new) (fault_text fault)) }
    ensures cause { OnErr result (Rose (E.faults err.old) (E.faults err.new)) }
    ensures count { E.faults err.old ≤ E.faults err.new }
{
    match fault {
        Fault::Halted { line, stop } => tell_halt(err, line, stop)?,
        Fault::Read => write_all(err, b"batmesh: read fault\n")?,
        Fault::Write => write_all(err, b"batmesh: write fault\n")?,
        Fault::Memory => write_all(err, b"batmesh: out of memory\n")?,
    }
    Ok(())
}
