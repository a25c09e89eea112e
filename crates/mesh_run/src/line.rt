//! A line: it is read and carried out, and what it prints is written.

ghost use Rattle.std.specs.Prelude.{◌≡◌, ℕ, List, Option, true, OnOk};
ghost use Rattle.mesh_laws.specs.LineLaws.{IsInRange};
ghost use Rattle.mesh_model.specs.Scenario.Commands.{command_of_line};
ghost use Rattle.mesh_model.specs.declared.line_form.Command.TheVariants as command;
ghost use Rattle.mesh_model.specs.Run.PlainRun.{after_reading};
ghost use Rattle.mesh_model.specs.Run.State.{text_of};
ghost use Rattle.mesh_model.specs.Scenario.Readings.{Reading};
ghost use Rattle.mesh_scenario.specs.LineErr.{Refuses};
ghost use Rattle.mesh_run.specs.Inner.Faults.{HasReadingCause};
ghost use Rattle.mesh_run.specs.Inner.Lines.{CarriesLine, CountsWrites};
ghost use Rattle.mesh_scene.specs.AnswersCommand.{HasGateways, is_for_scene, outcome_under};
ghost use Rattle.mesh_scene.specs.SceneStands.{IsSomewhere, SceneStands};
ghost use Rattle.mesh_scene.specs.StageStands.{IsOnStage, StageStands, outcome_on_stage};

use crate::fault::Fault;
use crate::output::put_text;
use crate::time::run;
use mesh_base::{Failed, Millis, Sink};
use mesh_model::{Algorithm, Command, LimitName, Refusal, Stop};
use mesh_scenario::{LineErr, read_line};
use mesh_scene::{LineFault, Scene, Stage, refused};
use mesh_show::Choosable;

/// The fault of a line that isn't read.
fn reading_fault(error: LineErr) -> LineFault
    ensures cause { (reading : Reading) → Refuses reading error → HasReadingCause reading result }
    ensures memory { result ≡ LineFault.Memory → error ≡ LineErr.Memory }
{
    match error {
        LineErr::TooLong => LineFault::Stopped(Stop::Limit(LimitName::Line)),
        LineErr::BadUtf8 => refused(Refusal::BadUtf8),
        LineErr::UnknownCommand => refused(Refusal::UnknownCommand),
        LineErr::MissingWord => refused(Refusal::MissingWord),
        LineErr::BadName => refused(Refusal::BadName),
        LineErr::BadMac => refused(Refusal::BadMac),
        LineErr::BadNumber => refused(Refusal::BadNumber),
        LineErr::OutOfRange => refused(Refusal::OutOfRange),
        LineErr::ExtraWord => refused(Refusal::ExtraWord),
        LineErr::Memory => LineFault::Memory,
    }
}

/// Carries out a command that is one for a scene, and writes what it prints, by way of `text`.
fn carry_whole<A: Choosable + Drop, K: Sink>(
    scene: &mut Scene<A>,
    text: &mut Vec<u8>,
    out: &mut K,
    command: Command,
    number: u64,
) -> Result<(), Fault>
    requires somewhere { IsSomewhere A.algorithm A.queries A.stands scene.old }
    requires ranges { IsInRange command }
    requires gateways { HasGateways command }
    requires other { is_for_scene command ≡ true }
    ensures line { CarriesLine text_of (SceneStands A.algorithm A.queries A.stands)
        (K.taken out.old) (K.taken out.new) scene.old scene.new
        (outcome_under A.queries command) number result }
    ensures faults { CountsWrites (K.faults out.old) (K.faults out.new) result }
    ensures somewhere { OnOk result (IsSomewhere A.algorithm A.queries A.stands scene.new) }
{
    text.clear();
    if let Err(fault) = scene.carry_out(command, text) {
        return Err(Fault::at(number, fault));
    }
    if let Err(Failed) = put_text(out, text.as_slice()) {
        return Err(Fault::Write);
    }
    Ok(())
}

/// Carries out a command that is one for a scene, under the algorithm that is chosen.
fn carry_on_stage<K: Sink>(
    stage: &mut Stage,
    text: &mut Vec<u8>,
    out: &mut K,
    command: Command,
    number: u64,
) -> Result<(), Fault>
    requires somewhere { IsOnStage stage.old }
    requires ranges { IsInRange command }
    requires gateways { HasGateways command }
    requires other { is_for_scene command ≡ true }
    ensures line { CarriesLine text_of StageStands (K.taken out.old) (K.taken out.new)
        stage.old stage.new (outcome_on_stage command) number result }
    ensures faults { CountsWrites (K.faults out.old) (K.faults out.new) result }
    ensures somewhere { OnOk result (IsOnStage stage.new) }
{
    match stage {
        Stage::Iv(scene) => carry_whole(scene, text, out, command, number),
        Stage::V(scene) => carry_whole(scene, text, out, command, number),
    }
}

/// `run MS`, under the algorithm that is chosen
fn run_on_stage<K: Sink>(
    stage: &mut Stage,
    text: &mut Vec<u8>,
    out: &mut K,
    time: Millis,
    number: u64,
) -> Result<(), Fault>
    requires somewhere { IsOnStage stage.old }
    ensures line { CarriesLine text_of StageStands (K.taken out.old) (K.taken out.new)
        stage.old stage.new (outcome_on_stage (command.Run time)) number result }
    ensures faults { CountsWrites (K.faults out.old) (K.faults out.new) result }
    ensures somewhere { OnOk result (IsOnStage stage.new) }
{
    match stage {
        Stage::Iv(scene) => run(scene, text, out, time, number),
        Stage::V(scene) => run(scene, text, out, time, number),
    }
}

/// `algo A`
fn choose(stage: &mut Stage, algorithm: Algorithm, number: u64) -> Result<(), Fault>
    requires somewhere { IsOnStage stage.old }
    ensures line { (taken : Option (List ℕ)) → CarriesLine text_of StageStands taken taken
        stage.old stage.new (outcome_on_stage (command.Algo algorithm)) number result }
    ensures faults { (count : ℕ) → CountsWrites count count result }
    ensures somewhere { OnOk result (IsOnStage stage.new) }
{
    if let Err(fault) = stage.choose(algorithm) {
        return Err(Fault::at(number, fault));
    }
    Ok(())
}

/// Carries the line of a scenario of this number out and writes what it prints, by way of `text`.
pub fn carry_scenario<K: Sink>(
    stage: &mut Stage,
    text: &mut Vec<u8>,
    out: &mut K,
    line: &[u8],
    number: u64,
) -> Result<(), Fault>
    requires somewhere { IsOnStage stage.old }
    ensures line { CarriesLine text_of StageStands (K.taken out.old) (K.taken out.new)
        stage.old stage.new (λ state. after_reading state (command_of_line line.now)) number
        result }
    ensures faults { CountsWrites (K.faults out.old) (K.faults out.new) result }
    ensures somewhere { OnOk result (IsOnStage stage.new) }
{
    match read_line(stage.alloc(), line) {
        Ok(Command::Algo(algorithm)) => choose(stage, algorithm, number),
        Ok(Command::Run { time }) => run_on_stage(stage, text, out, time, number),
        Ok(command) => carry_on_stage(stage, text, out, command, number),
        Err(error) => Err(Fault::at(number, reading_fault(error))),
    }
}
