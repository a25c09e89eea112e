//! The runner: what carries lines out, and what came of the line that is not finished.

ghost use Rattle.std.specs.Prelude.{◌+◌, ◌≤◌, vec_len};

use crate::carrier::Carrier;

/// The most bytes before a line's newline.
pub const LINE_LIMIT: usize = 4096;

/// The most bytes of an input.
pub const INPUT_LIMIT: usize = 67_108_864;

/// A run between two reads.
#[derive(Drop)]
pub struct Runner {
    pub carrier: Carrier,
    /// What has come of the line that isn't finished.
    pub line: Vec<u8>,
    /// What the line that is carried out prints.
    pub text: Vec<u8>,
    /// How many lines were carried out.
    pub lines: u64,
    /// How many bytes were taken from the input.
    pub taken: usize,
    ghost short: { vec_len line ≤ 4096 },
    ghost within: { taken ≤ 67108864 },
    ghost few: { lines + vec_len line ≤ taken },
}
