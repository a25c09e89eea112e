//! An output that is kept in memory.

ghost use Rattle.std.specs.Prelude.{◌≡◌, ◌≤◌, [], Some};

use mesh_base::{Failed, Sink};
use std::alloc::Global;

/// A sink that keeps what it takes. A write fails where memory runs out.
#[derive(Drop)]
pub struct KeptText {
    pub text: Vec<u8>,
    /// How many writes failed, as far as it can be counted.
    pub failed: u64,
}

impl KeptText {
    /// No text.
    pub fn new(alloc: Global) -> KeptText
        ensures { result.text.items ≡ [] }
    {
        KeptText {
            text: Vec::new(alloc),
            failed: 0,
        }
    }
}

impl Sink for KeptText {
    ghost use Rattle.std.specs.Prelude.{◌<◌, length, IfOk, OnErr, Some};
    ghost use Rattle.std.specs.Io.{WritesAtMost};
    ghost use Rattle.std.specs.Io.KnownBytes.{WriteAppends};
    ghost use Rattle.mesh_base.specs.Faults.{Rose};

    ghost taken = { λ kept. Some kept.text.items };

    ghost faults = { λ kept. kept.failed };

    fn write(&mut self, buf: &[u8]) -> Result<usize, Failed> {
        if self.text.extend_from_slice(buf).is_err() {
            self.failed = self.failed.saturating_add(1);
            return Err(Failed);
        }
        Ok(buf.len())
    }
}
