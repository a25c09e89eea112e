use mesh_base::{Mac, Millis};

/// A probe of ping or traceroute, as it goes out in an echo request.
#[derive(Clone, Copy, Debug, PartialEq, Eq)]
pub struct Probe {
    pub target: Mac,
    /// The number by which answers name it.
    pub seq: u16,
    pub ttl: u8,
}

/// A probe that waits for an answer, since it was sent at a moment.
#[derive(Clone, Copy, Debug, PartialEq, Eq)]
pub struct OpenProbe {
    pub probe: Probe,
    /// Whether it is a traceroute's, whose next probe follows where a hop was its last.
    pub trace: bool,
    pub sent: Millis,
}

/// What an answer to a probe means for the one that asked.
#[derive(Clone, Copy, Debug, PartialEq, Eq)]
pub enum Told {
    /// No open probe has the number.
    Unknown,
    /// The probe went out with ttl `hop` at the moment `sent`, and the session ends.
    Done { target: Mac, sent: Millis, hop: u8 },
    /// The probe went out with ttl `hop` at the moment `sent`, and the next one follows.
    Next { hop: u8, sent: Millis, probe: Probe },
}
