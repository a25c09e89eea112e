ghost use Rattle.std.specs.Prelude.{◌≡◌, ℕ, ◌<◌, ◌≤◌, List, length, Option, IfSome, OnOk, IfOk, OnErr, IfErr};
ghost use Rattle.std.specs.Option.{option_copied};
ghost use Rattle.std.specs.Io.{ReadsAtMost, WritesAtMost};
ghost use Rattle.std.specs.Io.KnownBytes.{Keeps, ReadConsumes, WriteAppends};
ghost use Rattle.mesh_base.specs.Faults.{Rose, HasOpenCause};
ghost use Rattle.mesh_base.specs.Pieces.{piece_limit};

use crate::failure::{Failed, OpenErr};

/// The most bytes that one read asks for.
pub const PIECE_LIMIT: usize = 4096;

/// A law: the most bytes that one read asks for are those of the definitions.
pub fn piece_limit_is_that_of_the_definitions()
    ensures { PIECE_LIMIT ≡ piece_limit }
{}

/// What the program reads from.
///
/// `left` are the bytes left to read, and `named` those that an open of a name would leave (None is
/// standard input), each where they are told; `faults` counts the faults so far.
pub trait Intake {
    ghost left: { Self → Option (List ℕ) };

    ghost named: { Self → Option (List ℕ) → Option (List ℕ) };

    ghost faults: { Self → ℕ };

    /// Opens the input of this name, or standard input.
    fn open(&mut self, name: Option<&str>) -> Result<(), OpenErr>
        ensures opened { OnOk result (IfSome (named self.old (option_copied name.entry)) (λ bytes.
            left self.new ≡ Some bytes)) }

        // A fault is counted. What was left to read stays.
        ensures cause { IfErr result (HasOpenCause (faults self.old) (faults self.new)) }
        ensures count { faults self.old ≤ faults self.new }
        ensures refused { OnErr result (Keeps (left self.old) (left self.new)) };

    /// Reads the next bytes into the front of `buf` and answers how many: 0 only at the end. The
    /// rest of `buf` is free.
    fn read(&mut self, buf: &mut [u8]) -> Result<usize, Failed>
        requires some { 0 < length buf.old }
        requires piece { length buf.old ≤ PIECE_LIMIT }
        ensures bound { ReadsAtMost result buf.new }
        ensures bytes { ReadConsumes (left self.old) (left self.new) result buf.new }

        // A fault is counted. What was left to read stays, as `bytes` says.
        ensures cause { OnErr result (Rose (faults self.old) (faults self.new)) }
        ensures count { faults self.old ≤ faults self.new };
}

/// What the program writes to.
///
/// `taken` are the bytes that it took so far, where they are told; `faults` counts the faults so
/// far.
pub trait Sink {
    ghost taken: { Self → Option (List ℕ) };

    ghost faults: { Self → ℕ };

    /// Writes a front of `buf` and answers how long it is: 0 only where `buf` is empty.
    fn write(&mut self, buf: &[u8]) -> Result<usize, Failed>
        ensures bound { WritesAtMost result buf.now }
        ensures bytes { WriteAppends (taken self.old) (taken self.new) result buf.now }
        ensures some { IfOk result (λ n. 0 < length buf.now → 0 < n) }

        // A fault is counted, and nothing was taken, as `bytes` says.
        ensures cause { OnErr result (Rose (faults self.old) (faults self.new)) }
        ensures count { faults self.old ≤ faults self.new };
}
