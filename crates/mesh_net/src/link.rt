use mesh_base::{Bytes, Millis};

/// A link as its line tells it.
#[derive(Debug, Drop)]
pub struct Link {
    /// How long a frame takes, in milliseconds, from 1 to 10,000.
    pub delay: Millis,
    /// The marks of its frames in turn: `.` once, `x` never, `2` twice, `h` held.
    pub pattern: Bytes,
    /// The throughput, in units of 100 kbit/s.
    pub tp: u32,
}
