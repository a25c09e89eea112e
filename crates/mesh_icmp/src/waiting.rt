ghost use Rattle.std.specs.Prelude.{◌≡◌, ◌<◌, ◌≤◌, ◌++◌, [], ◌∷◌, find, remove, length, slice_get, IfSome, IsSome, IsNone, OnOk};
ghost use Rattle.mesh_icmp.specs.Sessions.{has_number, next_after, number_rank, without};

use mesh_base::{Mac, Millis, NoMemory};
use mesh_model::{OpenProbe, Probe};
use std::alloc::Global;
use std::collections::VecDeque;
use std::marker::Model;

/// The open probes of a node, in the order in which they were given, so that a number is found by
/// halving.
#[derive(Debug, Drop)]
pub(crate) struct Waiting {
    /// The number of the probe that was given last, 0 before the first.
    latest: u16,
    probes: VecDeque<OpenProbe>,
}

impl Model for Waiting {
    ghost use Rattle.std.specs.Prelude.{◌-◌, ◌<◌, ◌≤◌, ◌^◌};
    ghost use Rattle.std.specs.VecDeque.{deque_capacity, deque_len};
    ghost use Rattle.mesh_icmp.specs.Sessions.{AreInOrder, Queue};

    ghost Value = { Queue };

    ghost view = { λ w. record {
      latest = w.latest;
      probes = w.probes.items;
      room = deque_capacity w.probes - deque_len w.probes;
    } };

    ghost invariant = { λ w. (w.latest < 2 ^ 16) × AreInOrder w.latest w.probes.items
        × (deque_len w.probes ≤ deque_capacity w.probes) };
}

impl Waiting {
    /// No probe waits, and none was given.
    pub(crate) fn new(alloc: Global) -> Waiting
        ensures { (result.latest ≡ 0) × (result.probes ≡ []) }
    {
        Waiting {
            latest: 0,
            probes: VecDeque::new(alloc),
        }
    }

    /// Makes room for one more probe.
    pub(crate) fn reserve(&mut self) -> Result<(), NoMemory>
        ensures latest { self.new.latest ≡ self.old.latest }
        ensures probes { self.new.probes ≡ self.old.probes }
        ensures room { OnOk result (0 < self.new.room) }
    {
        self.probes.reserve(1)?;
        Ok(())
    }

    /// Gives the next probe, which ends an open one of its number.
    pub(crate) fn give(&mut self, now: Millis, target: Mac, trace: bool, ttl: u8) -> Probe
        requires { 0 < self.old.room }
        ensures probe { result ≡
            record { target = target; seq = next_after self.old.latest; ttl = ttl } }
        ensures latest { self.new.latest ≡ next_after self.old.latest }
        ensures probes { self.new.probes ≡ without (next_after self.old.latest) self.old.probes
            ++ record { probe = result; trace = trace; sent = now } ∷ [] }
    {
        let seq = self.latest.wrapping_add(1);
        self.take(seq);
        let probe = Probe { target, seq, ttl };
        self.latest = seq;
        self.probes.push_back_reserved(OpenProbe {
            probe,
            trace,
            sent: now,
        });
        probe
    }

    /// The open probe of a number.
    pub(crate) fn find(&self, seq: u16) -> Option<OpenProbe>
        ensures { result ≡ find (has_number seq) self.now.probes }
    {
        let place = self.place(seq)?;
        self.probes.get(place).copied()
    }

    /// Ends the open probe of a number and answers it.
    pub(crate) fn take(&mut self, seq: u16) -> Option<OpenProbe>
        ensures found { result ≡ find (has_number seq) self.old.probes }
        ensures latest { self.new.latest ≡ self.old.latest }
        ensures left { self.new.probes ≡ without seq self.old.probes }
        ensures kept_room { self.old.room ≤ self.new.room }
        ensures room { IsSome result → 0 < self.new.room }
    {
        let place = self.place(seq)?;
        self.probes.remove(place)
    }

    // The place of the open probe of a number.
    fn place(&self, seq: u16) -> Option<usize>
        ensures within { IfSome result (λ i. i < length self.now.probes) }
        ensures found { IfSome result (λ i.
            slice_get self.now.probes i ≡ find (has_number seq) self.now.probes) }
        ensures left { IfSome result (λ i. remove self.now.probes i ≡ without seq self.now.probes) }
        ensures absent { IsNone result → find (has_number seq) self.now.probes ≡ None }
    {
        let latest = self.latest;
        let sought = rank(latest, seq);
        self.probes
            .binary_search_by_key(&sought, |open| rank(latest, open.probe.seq))
            .ok()
    }
}

// How far behind the oldest number that can be open a number stands.
fn rank(latest: u16, seq: u16) -> u16
    ensures { result ≡ number_rank latest seq }
{
    seq.wrapping_sub(latest).wrapping_sub(1)
}
