//! `run`: time passes slice by slice, and the text of each is written before the next begins.

ghost use Rattle.std.specs.Prelude.{◌≡◌, ◌+◌, ◌<◌, ◌≤◌, true, IfSome, IsNone, Ok, OnOk};
ghost use Rattle.mesh_model.specs.Net.Limits.{clock_limit, scenario_setup};
ghost use Rattle.mesh_model.specs.Run.Passing.{run_until};
ghost use Rattle.mesh_model.specs.Run.State.{text_of};
ghost use Rattle.mesh_model.specs.declared.line_form.Command.TheVariants as command;
ghost use Rattle.mesh_run.specs.Inner.Lines.{CarriesLine, CarriesSlice, CountsWrites};
ghost use Rattle.mesh_scene.specs.AnswersCommand.{outcome_under};
ghost use Rattle.mesh_scene.specs.Slices.{HasAdvanced};
ghost use Rattle.mesh_scene.specs.SceneStands.{IsSomewhere, SceneStands};

use crate::fault::Fault;
use crate::output::put_text;
use mesh_base::{Failed, Millis, Sink};
use mesh_model::{LimitName, Stop};
use mesh_net::CLOCK_LIMIT;
use mesh_scene::{Passage, Scene};
use mesh_show::Choosable;

/// Carries out a slice of a run until a moment and writes what it prints, by way of `text`.
/// Answers whether more is to come.
fn run_slice<A: Choosable + Drop, K: Sink>(
    scene: &mut Scene<A>,
    text: &mut Vec<u8>,
    out: &mut K,
    end: Millis,
    number: u64,
) -> Result<bool, Fault>
    requires somewhere { IsSomewhere A.algorithm A.queries A.stands scene.old }
    requires later { scene.old.net.clock ≤ end }
    requires within { end ≤ clock_limit }
    ensures slice { CarriesSlice (SceneStands A.algorithm A.queries A.stands)
        (scenario_setup A.queries) (K.taken out.old) (K.taken out.new) scene.old scene.new end
        number result }
    ensures faults { CountsWrites (K.faults out.old) (K.faults out.new) result }
    ensures advances { result ≡ Ok true → HasAdvanced end scene.old.net scene.new.net }
    ensures somewhere { OnOk result (IsSomewhere A.algorithm A.queries A.stands scene.new) }
{
    text.clear();
    let passage = scene.pass(end, text)?;
    if let Err(Failed) = put_text(out, text.as_slice()) {
        return Err(Fault::Write);
    }
    match passage {
        Passage::Going => Ok(true),
        Passage::Ended => Ok(false),
        Passage::Stopped(name) => Err(Fault::Halted {
            line: number,
            stop: Stop::Limit(name),
        }),
    }
}

/// Lets time pass until a moment, slice by slice.
fn run_until<A: Choosable + Drop, K: Sink>(
    scene: &mut Scene<A>,
    text: &mut Vec<u8>,
    out: &mut K,
    end: Millis,
    number: u64,
) -> Result<(), Fault>
    requires somewhere { IsSomewhere A.algorithm A.queries A.stands scene.old }
    requires later { scene.old.net.clock ≤ end }
    requires within { end ≤ clock_limit }
    ensures line { CarriesLine text_of (SceneStands A.algorithm A.queries A.stands)
        (K.taken out.old) (K.taken out.new) scene.old scene.new
        (run_until (scenario_setup A.queries) end) number result }
    ensures faults { CountsWrites (K.faults out.old) (K.faults out.new) result }
    ensures somewhere { OnOk result (IsSomewhere A.algorithm A.queries A.stands scene.new) }
{
    'slices: loop {
        let more = run_slice(scene, text, out, end, number)?;
        if !more {
            break 'slices;
        }
    }
    Ok(())
}

/// The end of a run that begins at a moment, or `None` past the last moment.
fn end_of(now: Millis, time: Millis) -> Option<Millis>
    ensures some { IfSome result (λ end. (end ≡ now + time) × (end ≤ clock_limit)) }
    ensures none { IsNone result → clock_limit < now + time }
{
    let end = now.checked_add(time)?;
    if end > CLOCK_LIMIT {
        return None;
    }
    Some(end)
}

/// `run MS`
pub fn run<A: Choosable + Drop, K: Sink>(
    scene: &mut Scene<A>,
    text: &mut Vec<u8>,
    out: &mut K,
    time: Millis,
    number: u64,
) -> Result<(), Fault>
    requires somewhere { IsSomewhere A.algorithm A.queries A.stands scene.old }
    ensures line { CarriesLine text_of (SceneStands A.algorithm A.queries A.stands)
        (K.taken out.old) (K.taken out.new) scene.old scene.new
        (outcome_under A.queries (command.Run time)) number result }
    ensures faults { CountsWrites (K.faults out.old) (K.faults out.new) result }
    ensures somewhere { OnOk result (IsSomewhere A.algorithm A.queries A.stands scene.new) }
{
    let Some(end) = end_of(scene.net.now(), time) else {
        return Err(Fault::Halted {
            line: number,
            stop: Stop::Limit(LimitName::Clock),
        });
    };
    run_until(scene, text, out, end, number)
}
