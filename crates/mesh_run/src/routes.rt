//! A line of routes: it is taken, and the report of the moment that it ends is written.

ghost use Rattle.std.specs.Prelude.{◌≡◌, ℕ, List, Option, OnOk, IfErr};
ghost use Rattle.std.specs.Io.KnownBytes.{Appends};
ghost use Rattle.mesh_bisect.specs.Bisect.{BisectStands};
ghost use Rattle.mesh_model.specs.Loops.RouteLines.{route_of_line};
ghost use Rattle.mesh_model.specs.Run.InputRun.{loop_text};
ghost use Rattle.mesh_model.specs.Run.LoopRun.{LoopState, after_route_reading, at_end};
ghost use Rattle.mesh_run.specs.Inner.Faults.{route_fault};
ghost use Rattle.mesh_run.specs.Inner.Kinds.{RoutesStand};
ghost use Rattle.mesh_run.specs.Inner.Lines.{CarriesLine, CountsWrites, EndFails, StandsAt};

use crate::fault::Fault;
use crate::output::put_text;
use mesh_base::{Failed, Sink};
use mesh_bisect::{Bisect, BisectErr};
use mesh_model::{LimitName, Refusal, Stop};
use mesh_scene::{LineFault, refused};

/// The fault of a line that isn't taken.
fn route_fault(error: BisectErr) -> LineFault
    ensures { result ≡ route_fault error }
{
    match error {
        BisectErr::BadRoute => refused(Refusal::BadRoute),
        BisectErr::TimeBack => refused(Refusal::TimeBack),
        BisectErr::Pairs => LineFault::Stopped(Stop::Limit(LimitName::Pairs)),
        BisectErr::Memory => LineFault::Memory,
    }
}

/// Takes the line of this number and writes what it prints, by way of `text`.
pub fn take_route<K: Sink>(
    bisect: &mut Bisect,
    text: &mut Vec<u8>,
    out: &mut K,
    line: &[u8],
    number: u64,
) -> Result<(), Fault>
    ensures line { CarriesLine loop_text RoutesStand (K.taken out.old) (K.taken out.new)
        bisect.old bisect.new (λ state. after_route_reading state (route_of_line line.now)) number
        result }
    ensures faults { CountsWrites (K.faults out.old) (K.faults out.new) result }
{
    text.clear();
    match bisect.take(line, text) {
        Ok(()) => {}
        Err(error) => return Err(Fault::at(number, route_fault(error))),
    }
    if let Err(Failed) = put_text(out, text.as_slice()) {
        return Err(Fault::Write);
    }
    Ok(())
}

/// Ends the moment under way and writes its report, by way of `text`.
pub fn end_routes<K: Sink>(
    bisect: &mut Bisect,
    text: &mut Vec<u8>,
    out: &mut K,
) -> Result<(), Fault>
    ensures ok { (base : Option (List ℕ)) (state : LoopState) →
        StandsAt loop_text RoutesStand base (K.taken out.old) bisect.old state →
        OnOk result (Appends base (K.taken out.new) (at_end state).printed) }
    ensures failed { (base : Option (List ℕ)) (state : LoopState) →
        StandsAt loop_text RoutesStand base (K.taken out.old) bisect.old state →
        IfErr result (EndFails base (K.taken out.new) (at_end state).printed) }
    ensures faults { CountsWrites (K.faults out.old) (K.faults out.new) result }
{
    text.clear();
    bisect.end(text)?;
    if let Err(Failed) = put_text(out, text.as_slice()) {
        return Err(Fault::Write);
    }
    Ok(())
}
