//! The output: a text is written whole, or less than all of it where a write fails.

ghost use Rattle.std.specs.Prelude.{◌≤◌, OnOk, OnErr};
ghost use Rattle.std.specs.Io.KnownBytes.{Appends};
ghost use Rattle.mesh_base.specs.Faults.{Rose};
ghost use Rattle.mesh_run.specs.Outcome.{AppendsLess};

use mesh_base::{Failed, Sink};

/// Writes a text, in as many writes as the sink needs. Where one fails, less than all was taken.
pub fn put_text<K: Sink>(sink: &mut K, text: &[u8]) -> Result<(), Failed>
    ensures whole { OnOk result (Appends (K.taken sink.old) (K.taken sink.new) text.now) }
    ensures less { OnErr result (AppendsLess (K.taken sink.old) (K.taken sink.new) text.now) }
    ensures cause { OnErr result (Rose (K.faults sink.old) (K.faults sink.new)) }
    ensures count { K.faults sink.old ≤ K.faults sink.new }
{
    let mut done = 0;
    while done < text.len() {
        done += sink.write(&text[done..])?;
    }
    Ok(())
}
