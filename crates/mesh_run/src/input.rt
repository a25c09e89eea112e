//! The input of a run: it is opened, and read piece by piece to its end.

ghost use Rattle.std.specs.Prelude.{◌≡◌, ℕ, List, [], Option, IfSome, OnOk, IfErr};
ghost use Rattle.std.specs.Option.{option_copied};
ghost use Rattle.std.specs.Io.KnownBytes.{IsAtEnd};
ghost use Rattle.mesh_model.specs.declared.input_kind.InputKind.{InputKind};
ghost use Rattle.mesh_run.specs.Inner.Kinds.{IsReady};
ghost use Rattle.mesh_run.specs.Inner.Progress.{Stands};
ghost use Rattle.mesh_run.specs.Inner.Reading.{CountsFaults, ReadFails, ReadsAll, RunFails};
ghost use Rattle.mesh_run.specs.Outcome.{Finishes};

use crate::carrier::Carrier;
use crate::fault::Fault;
use crate::runner::Runner;
use mesh_base::{Failed, Intake, OpenErr, PIECE_LIMIT, Sink};
use mesh_model::InputKind;
use std::alloc::Global;

/// A run before its first line.
pub fn new_runner(alloc: Global, kind: InputKind) -> Runner
    ensures stands { (base : Option (List ℕ)) → Stands kind base base result [] }
    ensures ready { IsReady result.carrier }
{
    Runner {
        carrier: Carrier::new(alloc, kind),
        line: Vec::new(alloc),
        text: Vec::new(alloc),
        lines: 0,
        taken: 0,
    }
}

/// Reads an open intake to its end, and carries each line out before the next read.
pub fn read_all<I: Intake, K: Sink>(
    intake: &mut I,
    out: &mut K,
    mut runner: Runner,
) -> Result<(), Fault>
    requires ready { IsReady runner.carrier }
    ensures ok { (kind : InputKind) (base : Option (List ℕ)) →
        Stands kind base (K.taken out.old) runner [] → OnOk result
        (ReadsAll kind (I.left intake.old) (I.left intake.new) base (K.taken out.new)) }
    ensures failed { (kind : InputKind) (base : Option (List ℕ)) →
        Stands kind base (K.taken out.old) runner [] → IfErr result
        (ReadFails kind (I.left intake.old) (I.left intake.new) base (K.taken out.new)) }
    ensures faults { CountsFaults (I.faults intake.old) (I.faults intake.new)
        (K.faults out.old) (K.faults out.new) result }
{
    let mut buffer = [0; PIECE_LIMIT];
    'pieces: loop {
        let count = match intake.read(&mut buffer) {
            Ok(count) => count,
            Err(Failed) => return Err(Fault::Read),
        };
        if count == 0 {
            break 'pieces;
        }
        runner.take_piece(out, &buffer[..count])?;
    }
    runner.finish(out)?;
    Ok(())
}

/// Opens the input of this name, or standard input, and carries its lines out, by what
/// they are.
pub fn run_input<I: Intake, K: Sink>(
    alloc: Global,
    kind: InputKind,
    name: Option<&str>,
    intake: &mut I,
    out: &mut K,
) -> Result<(), Fault>
    ensures finished { OnOk result (IfSome (I.named intake.old (option_copied name.entry))
        (Finishes kind (K.taken out.old) (K.taken out.new))) }
    ensures at_end { OnOk result (IsAtEnd (I.left intake.new)) }
    ensures failed { IfErr result (λ fault. IfSome (I.named intake.old (option_copied name.entry))
        (RunFails kind (K.taken out.old) (K.taken out.new)
        (I.left intake.old) (I.left intake.new) fault)) }
    ensures faults { CountsFaults (I.faults intake.old) (I.faults intake.new)
        (K.faults out.old) (K.faults out.new) result }
{
    match intake.open(name) {
        Ok(()) => {}
        Err(OpenErr::Failed) => return Err(Fault::Read),
        Err(OpenErr::Memory) => return Err(Fault::Memory),
    }
    read_all(intake, out, new_runner(alloc, kind))?;
    Ok(())
}
