ghost use Rattle.std.specs.Prelude.{◌≡◌, List, [], ◌∷◌, None, if◌then◌else◌, IfOk, OnErr};
ghost use Rattle.std.specs.Map.{lookup};
ghost use Rattle.mesh_model.specs.Knowledge.Known.{Broadcast, TakenBroadcast, is_new_number, round, taken_at};
ghost use Rattle.mesh_model.specs.Routes.Addresses.{same_mac};
ghost use Rattle.node_ground.specs.BroadcastsStand.{BroadcastsStand, kept_round};

use crate::broadcast_round::Round;
use indexmap::IndexMap;
use mesh_base::{Mac, Millis, NoMemory};
use std::alloc::Global;
use std::marker::Model;

/// The broadcasts that were taken, in the last round of each originator. One is found in one step,
/// whatever came before.
#[derive(Debug, Drop)]
pub struct Broadcasts {
    rounds: IndexMap<Mac, Round>,
}

impl Model for Broadcasts {
    ghost use Rattle.std.specs.Prelude.{List};
    ghost use Rattle.mesh_base.specs.declared.address.Mac.{Mac};
    ghost use Rattle.node_ground.specs.declared.broadcast_round.Round.{Round};

    ghost Value = { List (Mac × Round) };

    ghost view = { λ b. b.rounds.entries };
}

impl Broadcasts {
    /// None was taken.
    pub fn new(alloc: Global) -> Broadcasts
        ensures { BroadcastsStand result [] }
    {
        Broadcasts {
            rounds: IndexMap::new(alloc),
        }
    }

    /// Whether a broadcast of an originator is taken at a moment.
    pub fn is_new(&self, now: Millis, orig: Mac, number: u32) -> bool
        ensures { (taken : List TakenBroadcast) → BroadcastsStand self.now taken →
            result ≡ is_new_number now number (round orig taken) }
    {
        self.next(now, orig, number).is_some()
    }

    /// Takes a broadcast of an originator at a moment where it may be taken, and answers whether
    /// it may.
    pub fn take(&mut self, now: Millis, orig: Mac, number: u32) -> Result<bool, NoMemory>
        ensures new { (taken : List TakenBroadcast) → BroadcastsStand self.old taken →
            IfOk result (λ new. new ≡ is_new_number now number (round orig taken)) }
        ensures noted { (taken : List TakenBroadcast) → BroadcastsStand self.old taken →
            let broadcast : Broadcast = record { orig = orig; number = number } in
            IfOk result (λ new. BroadcastsStand self.new
            (if new then taken_at now broadcast taken ∷ taken else taken)) }
        ensures err { OnErr result (self.new ≡ self.old) }
    {
        let Some(next) = self.next(now, orig, number) else {
            return Ok(false);
        };
        self.rounds.insert(orig, next)?;
        Ok(true)
    }

    // The last round of an originator with a broadcast that is taken; none where it isn't taken.
    fn next(&self, now: Millis, orig: Mac, number: u32) -> Option<Round>
        ensures { (taken : List TakenBroadcast) → BroadcastsStand self.now taken →
            let broadcast : Broadcast = record { orig = orig; number = number } in
            result ≡ (if is_new_number now number (round orig taken)
            then kept_round (round orig (taken_at now broadcast taken ∷ taken)) else None) }
    {
        match self.rounds.get(&orig) {
            Some(round) => round.with(now, number),
            None => Some(Round::new(number, None)),
        }
    }
}
