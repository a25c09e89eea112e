ghost use Rattle.std.specs.Prelude.{◌≡◌};
ghost use Rattle.mesh_algo.specs.LifeRows.{first_hearing};

use crate::life::{Life, is_accepted};
use mesh_model::{Head, Hearing};

/// How many hops an own OGM may go.
pub const FIRST_TTL: u8 = 50;

/// What is made of a head that isn't heard.
pub const UNHEARD: Hearing = Hearing {
    accepted: false,
    began: false,
    forward: None,
};

/// What is made of an OGM on time, the first of its number from its neighbour, by its originator's
/// life before it and the head with which it is sent on.
#[inline]
pub fn first_hearing(seq: u32, life: &Option<Life>, forward: Option<Head>) -> Hearing
    ensures { result ≡ first_hearing seq life.now forward }
{
    Hearing {
        accepted: is_accepted(seq, life),
        began: life.is_none(),
        forward,
    }
}
