//! The program: the words of the call, the lines that they ask for, and the status at its end.

ghost use Rattle.std.specs.Prelude.{◌≡◌, ◌≢◌, ◌<◌, ◌≤◌, ◌⊎◌, None, Some, IfNone, IfSome, IsSome};
ghost use Rattle.std.specs.Io.KnownBytes.{Appends, IsAtEnd};
ghost use Rattle.std.specs.Option.{option_copied};
ghost use Rattle.mesh_base.specs.Faults.{Rose};
ghost use Rattle.mesh_model.specs.declared.frame_choice.FrameChoice.TheVariants.{Hidden};
ghost use Rattle.mesh_model.specs.declared.input_kind.InputKind.TheVariants.{Scenario};
ghost use Rattle.mesh_model.specs.Run.CommandLine.{kind_of, most_nodes, words_of};
ghost use Rattle.mesh_model.specs.Run.Generated.{generated_input, generated_run};
ghost use Rattle.mesh_model.specs.Run.InputRun.{run_of};
ghost use Rattle.mesh_model.specs.Run.Statuses.{IsStatus, finished_status, limited_status, memory_status, plain_status, read_fault_status, refused_status, usage_status, write_fault_status};
ghost use Rattle.mesh_run.specs.Inner.Reading.{fault_status, fault_text};
ghost use Rattle.mesh_run.specs.Outcome.{Finishes, IsLimited, IsRefused, IsStatusOr, PrintsFrontOf, PrintsLessOf, PrintsRightly, PrintsSummary, PrintsTaken, TellsStatus, nodes_asked, read_input, told_input};
ghost use Rattle.mesh_words.specs.Words.{texts};

use crate::fault::Fault;
use crate::generated::run_generated;
use crate::input::run_input;
use crate::report::tell_fault;
use mesh_base::{Failed, Intake, Sink, write_all};
use mesh_model::{InputKind, Stop};
use mesh_words::{Source, WordsErr, read_words};
use std::alloc::Global;

/// The input was read to its end, every line was accepted, and all was written.
pub const FINISHED: u8 = 0;
/// A line was refused.
pub const REFUSED: u8 = 1;
/// The words weren't taken.
pub const USAGE: u8 = 2;
/// The input failed.
pub const READ_FAULT: u8 = 3;
/// The output failed.
pub const WRITE_FAULT: u8 = 4;
/// Memory ran out.
pub const OUT_OF_MEMORY: u8 = 5;
/// A quantity would have passed its limit.
pub const LIMITED: u8 = 6;

/// The status of a fault.
fn status_of(fault: Fault) -> u8
    ensures { result ≡ fault_status fault }
{
    match fault {
        Fault::Halted { line: _, stop } => match stop {
            Stop::Refused(_refusal) => REFUSED,
            Stop::Limit(_name) => LIMITED,
        },
        Fault::Read => READ_FAULT,
        Fault::Write => WRITE_FAULT,
        Fault::Memory => OUT_OF_MEMORY,
    }
}

/// Writes the text of a fault, and answers its status.
fn tell_status<E: Sink>(err: &mut E, fault: Fault) -> u8
    ensures status { result ≡ fault_status fault }
    ensures told { (Rose (E.faults err.old) (E.faults err.new) → ⊥) →
        Appends (E.taken err.old) (E.taken err.new) (fault_text fault) }
{
    match tell_fault(err, fault) {
        Ok(()) | Err(Failed) => status_of(fault),
    }
}

/// Carries out the lines that the intake gives under this name, or as standard input, and answers
/// the status with which the program ends.
fn carry_input<I: Intake, K: Sink, E: Sink>(
    alloc: Global,
    kind: InputKind,
    name: Option<&str>,
    intake: &mut I,
    out: &mut K,
    err: &mut E,
) -> u8
    ensures status { IsStatus result }
    ensures usage { result ≢ usage_status }
    ensures finished { result ≡ finished_status →
        IfSome (I.named intake.old (option_copied name.entry))
        (Finishes kind (K.taken out.old) (K.taken out.new)) }
    ensures at_end { result ≡ finished_status → IsAtEnd (I.left intake.new) }
    ensures refused { result ≡ refused_status →
        IfSome (I.named intake.old (option_copied name.entry))
        (IsRefused kind (K.taken out.old) (K.taken out.new) (I.left intake.new)) }
    ensures limited { result ≡ limited_status →
        IfSome (I.named intake.old (option_copied name.entry))
        (IsLimited kind (K.taken out.old) (K.taken out.new) (I.left intake.new)) }
    ensures read_fault { result ≡ read_fault_status →
        Rose (I.faults intake.old) (I.faults intake.new) }
    ensures taken { result ≡ read_fault_status →
        IfSome (I.named intake.old (option_copied name.entry))
        (PrintsTaken kind (K.taken out.old) (K.taken out.new)
        (I.left intake.old) (I.left intake.new)) }
    ensures write_fault { result ≡ write_fault_status →
        Rose (K.faults out.old) (K.faults out.new) }
    ensures less { result ≡ write_fault_status →
        IfSome (I.named intake.old (option_copied name.entry))
        (PrintsLessOf kind (K.taken out.old) (K.taken out.new)) }
    ensures front { result ≡ memory_status →
        IfSome (I.named intake.old (option_copied name.entry))
        (PrintsFrontOf kind (K.taken out.old) (K.taken out.new)) }
    ensures complete { IfSome (I.named intake.old (option_copied name.entry))
        (λ input. IsStatusOr result (plain_status (run_of kind input).halt)) }
    ensures told { (Rose (E.faults err.old) (E.faults err.new) → ⊥) →
        TellsStatus kind result (I.named intake.old (option_copied name.entry))
        (E.taken err.old) (E.taken err.new) }
    ensures right { IfSome (I.named intake.old (option_copied name.entry))
        (PrintsRightly kind (K.taken out.old) (K.taken out.new)) }
    ensures silent { result ≡ finished_status → err.new ≡ err.old }
{
    let fault = match run_input(alloc, kind, name, intake, out) {
        Ok(()) => return FINISHED,
        Err(fault) => fault,
    };
    tell_status(err, fault)
}

/// Carries out the lines of a generated mesh of so many nodes, 1 to 64, and answers the status with
/// which the program ends.
fn carry_generated<K: Sink, E: Sink>(alloc: Global, nodes: u8, out: &mut K, err: &mut E) -> u8
    requires some { 0 < nodes }
    requires few { nodes ≤ most_nodes }
    ensures status { IsStatus result }
    ensures other { (result ≢ usage_status) × (result ≢ read_fault_status) }
    ensures printed { PrintsSummary result (K.taken out.old) (K.taken out.new) nodes }
    ensures write_fault { result ≡ write_fault_status →
        Rose (K.faults out.old) (K.faults out.new) }
    ensures complete { IsStatusOr result (plain_status (generated_run nodes).halt) }
    ensures told { (Rose (E.faults err.old) (E.faults err.new) → ⊥) →
        TellsStatus (Scenario Hidden) result (Some (generated_input nodes))
        (E.taken err.old) (E.taken err.new) }
    ensures silent { result ≡ finished_status → err.new ≡ err.old }
{
    let fault = match run_generated(alloc, nodes, out) {
        Ok(()) => return FINISHED,
        Err(stopped) => stopped,
    };
    tell_status(err, fault)
}

/// Carries out the lines that words ask for, and answers the status with which the program ends.
///
/// `words` are the command words after the program's name: `--frames` and which link frames are
/// printed, `none`, `all`, `client` or `ogm`, or `route`, by which routes are told as they change; or
/// `--bisect`, by which the lines are those of routes; and FILE, or `--generate` and a number of
/// nodes. Without both the lines come from standard input. `out` takes what they print, or of a
/// generated mesh the line of its counts, `err` one line for each status other than `FINISHED`.
pub fn batmesh<I: Intake, K: Sink, E: Sink>(
    alloc: Global,
    words: &[String],
    intake: &mut I,
    out: &mut K,
    err: &mut E,
) -> u8
    ensures status { IsStatus result }

    // Where the input is told, out took the whole text of its plain run.
    ensures finished { result ≡ finished_status →
        IfSome (read_input (I.named intake.old) (words_of (texts words.now)))
        (Finishes (kind_of (texts words.now)) (K.taken out.old) (K.taken out.new)) }
    ensures at_end { result ≡ finished_status → IfNone (nodes_asked (words_of (texts words.now)))
        (IsAtEnd (I.left intake.new)) }

    // The plain run halts at a line, out took what it prints up to there, and reading stopped near
    // it.
    ensures refused { result ≡ refused_status →
        IfSome (read_input (I.named intake.old) (words_of (texts words.now)))
        (IsRefused (kind_of (texts words.now)) (K.taken out.old) (K.taken out.new)
        (I.left intake.new)) }
    ensures limited { result ≡ limited_status →
        IfSome (read_input (I.named intake.old) (words_of (texts words.now)))
        (IsLimited (kind_of (texts words.now)) (K.taken out.old) (K.taken out.new)
        (I.left intake.new)) }

    // Of the plain run of generated lines out took the line of its counts, and the intake isn't
    // touched.
    ensures generated { IfSome (nodes_asked (words_of (texts words.now)))
        (PrintsSummary result (K.taken out.old) (K.taken out.new)) }
    ensures unread { IsSome (nodes_asked (words_of (texts words.now))) → intake.new ≡ intake.old }

    // Other words aren't taken. Memory may be wanting to tell so. Nothing is opened then,
    // nothing is read, and nothing is written to out.
    ensures usage { result ≡ usage_status → words_of (texts words.now) ≡ None }
    ensures not_taken { words_of (texts words.now) ≡ None →
        (result ≡ usage_status) ⊎ (result ≡ memory_status) }
    ensures untouched { words_of (texts words.now) ≡ None →
        (intake.new ≡ intake.old) × (out.new ≡ out.old) }

    // A fault is blamed only on a count that rose. Where a read failed, the lines that had come
    // were printed and the run was still going; where a write did, less than the whole was taken.
    ensures read_fault { result ≡ read_fault_status →
        Rose (I.faults intake.old) (I.faults intake.new) }
    ensures taken { result ≡ read_fault_status →
        IfSome (read_input (I.named intake.old) (words_of (texts words.now)))
        (PrintsTaken (kind_of (texts words.now)) (K.taken out.old) (K.taken out.new)
        (I.left intake.old) (I.left intake.new)) }
    ensures write_fault { result ≡ write_fault_status →
        Rose (K.faults out.old) (K.faults out.new) }
    ensures less { result ≡ write_fault_status →
        IfSome (read_input (I.named intake.old) (words_of (texts words.now)))
        (PrintsLessOf (kind_of (texts words.now)) (K.taken out.old) (K.taken out.new)) }
    ensures front { result ≡ memory_status →
        IfSome (read_input (I.named intake.old) (words_of (texts words.now)))
        (PrintsFrontOf (kind_of (texts words.now)) (K.taken out.old) (K.taken out.new)) }

    // Faults and want of memory aside, the status is that of the plain run.
    ensures complete { IfSome (told_input (I.named intake.old) (words_of (texts words.now)))
        (λ input. IsStatusOr result
        (plain_status (run_of (kind_of (texts words.now)) input).halt)) }

    // A fault of err changes no status.
    ensures told { (Rose (E.faults err.old) (E.faults err.new) → ⊥) →
        TellsStatus (kind_of (texts words.now)) result
        (told_input (I.named intake.old) (words_of (texts words.now)))
        (E.taken err.old) (E.taken err.new) }
    ensures silent { result ≡ finished_status → err.new ≡ err.old }

    // Whatever the status, out took of a scenario what its first lines print, or a front of that. A
    // whole line in it of an originator in agreement, `t ORIG held=B told=B state=ok entries=N`, is
    // that of the commit that the originator made for the message that the shown node accepted
    // last, and the lines of its entries follow, as far as they were taken. A whole line of a link
    // frame with `by=table` is of bytes that the node of that name sent then, for a client that the
    // addressed node's commit names, as the sender was told last. Each of these unless a line
    // before it tells of an alias of that node. A whole line `alias NAME K J` stands exactly where
    // the node of that name made commit K, whose alias is J. Where a tick made it, that is behind
    // the lines of the tick's ELP, where there is one, and before those of its originator message;
    // where a reboot did, it tells the only event of the input's line that reboots the node. Each
    // packet that a node put together by then is one that the originator of its fragments cut under
    // their number, whatever links lost or repeated. And each picture that a node has at a line, of
    // which a line `vis NAME ..` tells, is that of its source at one of its rounds before.
    ensures right { IfSome (read_input (I.named intake.old) (words_of (texts words.now)))
        (PrintsRightly (kind_of (texts words.now)) (K.taken out.old) (K.taken out.new)) }
{
    let call = match read_words(alloc, words) {
        Ok(call) => call,
        Err(WordsErr::Usage) => {
            return match write_all(err, b"batmesh: usage\n") {
                Ok(()) | Err(Failed) => USAGE,
            };
        }
        Err(WordsErr::Memory) => return tell_status(err, Fault::Memory),
    };
    match call.source {
        Source::Input => carry_input(alloc, call.kind, None, intake, out, err),
        Source::File(name) => carry_input(alloc, call.kind, Some(name), intake, out, err),
        Source::Generated(nodes) => carry_generated(alloc, nodes, out, err),
    }
}
