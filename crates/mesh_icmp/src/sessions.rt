ghost use Rattle.std.specs.Prelude.{◌≡◌, List, [], ◌∷◌, IfOk, OnOk, OnErr};
ghost use Rattle.mesh_model.specs.Probes.OpenProbes.{ProbeCall, Started, Answered, Closed, first_probe, session_ttl, leads_on, told, probes_by};
ghost use Rattle.mesh_icmp.specs.Sessions.{StandsFor};

use crate::waiting::Waiting;
use mesh_base::{Mac, Millis, NoMemory};
use mesh_model::{OpenProbe, Probe, Told};
use std::alloc::Global;
use std::marker::Model;

/// The ttl of a ping, and the greatest of a traceroute.
const LAST_HOP: u8 = 50;
/// The message type that says that a ttl was exceeded.
const TTL_EXCEEDED: u8 = 11;

/// The probes of ping and traceroute that wait for an answer at a node.
#[derive(Debug, Drop)]
pub struct Sessions {
    waiting: Waiting,
}

impl Model for Sessions {
    ghost use Rattle.mesh_icmp.specs.Sessions.{Kept};

    ghost Value = { Kept };

    ghost view = { λ s. record { latest = s.waiting.latest; probes = s.waiting.probes } };
}

impl Sessions {
    /// No probe waits, and none was given.
    pub fn new(alloc: Global) -> Sessions
        ensures { StandsFor result [] }
    {
        Sessions {
            waiting: Waiting::new(alloc),
        }
    }

    /// Begins a ping, or for `trace` a traceroute, and answers its first probe.
    pub fn start(&mut self, now: Millis, target: Mac, trace: bool) -> Result<Probe, NoMemory>
        ensures ok { (made : List ProbeCall) → StandsFor self.old made →
            OnOk result (StandsFor self.new (Started now target trace ∷ made)) }
        ensures probe { (made : List ProbeCall) → StandsFor self.old made →
            IfOk result (λ probe. probe ≡ first_probe target trace (probes_by made)) }
        ensures err { OnErr result (self.new ≡ self.old) }
    {
        self.waiting.reserve()?;
        Ok(self.waiting.give(now, target, trace, session_ttl(trace)))
    }

    /// The open probe of this number, if there is one.
    pub fn open_probe(&self, seq: u16) -> Option<OpenProbe>
        ensures { (made : List ProbeCall) → StandsFor self.now made →
            result ≡ (probes_by made).waiting seq }
    {
        self.waiting.find(seq)
    }

    /// Takes an answer of this message type to the probe of this number, and tells what it means.
    /// Whoever sent it, the number alone names the probe.
    pub fn answer(&mut self, now: Millis, _from: Mac, seq: u16, msg: u8) -> Told
        ensures taken { (made : List ProbeCall) → StandsFor self.old made →
            StandsFor self.new (Answered now seq msg ∷ made) }
        ensures told { (made : List ProbeCall) → StandsFor self.old made →
            result ≡ told seq msg (probes_by made) }
    {
        let Some(asked) = self.waiting.take(seq) else {
            return Told::Unknown;
        };
        let Probe { target, ttl, .. } = asked.probe;
        if !leads_on(&asked, msg) {
            return Told::Done {
                target,
                sent: asked.sent,
                hop: ttl,
            };
        }
        let probe = self.waiting.give(now, target, asked.trace, ttl + 1);
        Told::Next {
            hop: ttl,
            sent: asked.sent,
            probe,
        }
    }

    /// Ends the open probe of this number, if there is one.
    pub fn close(&mut self, seq: u16)
        ensures { (made : List ProbeCall) → StandsFor self.old made →
            StandsFor self.new (Closed seq ∷ made) }
    {
        self.waiting.take(seq);
    }
}

// The ttl of a session's first probe.
fn session_ttl(trace: bool) -> u8
    ensures { result ≡ session_ttl trace }
{
    if trace { 1 } else { LAST_HOP }
}

// Whether a further probe follows an answer of this message type.
fn leads_on(asked: &OpenProbe, msg: u8) -> bool
    ensures { result ≡ leads_on msg asked.now }
{
    asked.trace && asked.probe.ttl < LAST_HOP && msg == TTL_EXCEEDED
}
