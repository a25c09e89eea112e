//! A slice of a run: happenings until a moment, at most so many that their text is held at once.

ghost use Rattle.std.specs.Prelude.{◌≡◌, ◌≤◌, [], Ok};
ghost use Rattle.mesh_model.specs.Net.Limits.{clock_limit, scenario_setup};
ghost use Rattle.mesh_scene.specs.Inner.NetAnswers.{passage_by};
ghost use Rattle.mesh_scene.specs.Slices.{HasAdvanced, PassesFrom};
ghost use Rattle.mesh_scene.specs.SceneStands.{IsSomewhere, SceneStands};

use crate::scene::Scene;
use mesh_base::{Millis, NoMemory};
use mesh_model::LimitName;
use mesh_net::NetErr;
use mesh_show::{Choosable, put_events};

/// The most happenings of a slice, whose events and text are held at once.
const SLICE: u32 = 256;

/// How far a slice of a run came.
#[derive(Clone, Copy, Debug, PartialEq, Eq)]
pub enum Passage {
    /// More happenings are due.
    Going,
    /// The run is at its end.
    Ended,
    /// The next happening would pass a limit.
    Stopped(LimitName),
}

/// How far a slice came by the net's answer, or `None` for want of memory.
fn passage_of(answer: Result<bool, NetErr>) -> Option<Passage>
    ensures { result ≡ passage_by answer }
{
    match answer {
        Ok(true) => Some(Passage::Going),
        Ok(false) => Some(Passage::Ended),
        Err(NetErr::Limit(name)) => Some(Passage::Stopped(name)),
        Err(NetErr::Dead | NetErr::Memory) => None,
    }
}

impl<A: Choosable + Drop> Scene<A> {
    /// Carries out the next happenings until a moment, at most a slice of them, and appends what
    /// they print.
    pub fn pass(&mut self, end: Millis, text: &mut Vec<u8>) -> Result<Passage, NoMemory>
        requires somewhere { IsSomewhere A.algorithm A.queries A.stands self.old }
        requires empty { text.old.items ≡ [] }
        requires later { self.old.net.clock ≤ end }
        requires within { end ≤ clock_limit }
        ensures ok { PassesFrom (SceneStands A.algorithm A.queries A.stands)
            (scenario_setup A.queries) self.old self.new end text.new.items result }
        ensures advances { result ≡ Ok Passage.Going → HasAdvanced end self.old.net self.new.net }
    {
        self.events.cut(0);
        let Some(passage) = passage_of(self.net.run_some(end, SLICE, &mut self.events)) else {
            return Err(NoMemory);
        };
        put_events(text, &self.names, &self.events)?;
        Ok(passage)
    }
}
