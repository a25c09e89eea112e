ghost use Rattle.std.specs.Prelude.{◌≡◌};
ghost use Rattle.mesh_model.specs.Bridges.Verdicts.{by_spread, held_unless_ours, passed_anyhow, passed_by_holder};
ghost use Rattle.mesh_bla.specs.Holds.{told_hold};

use mesh_base::Millis;
use mesh_model::{Spread, Verdict};

/// How old a holder's claim may be before it is made anew, in milliseconds.
const RENEWAL_AGE: Millis = 10_000;

/// Who holds a client: the gateway itself, by a claim so many milliseconds old, nobody, or another.
#[derive(Clone, Copy, Debug)]
pub(crate) enum Hold {
    Ours { age: Millis },
    Nobodys,
    Anothers,
}

impl Hold {
    /// What is done with a frame from the LAN, or with one to a group from the mesh.
    pub(crate) fn held_unless_ours(self) -> Verdict
        ensures { result ≡ held_unless_ours (told_hold self) }
    {
        match self {
            Hold::Ours { age } => passed_by_holder(age),
            Hold::Nobodys => Verdict {
                pass: false,
                claim: true,
            },
            Hold::Anothers => Verdict {
                pass: false,
                claim: false,
            },
        }
    }

    /// What is done with a frame from the mesh that is meant to go so far.
    pub(crate) fn by_spread(self, spread: Spread) -> Verdict
        ensures { result ≡ by_spread spread (told_hold self) }
    {
        match spread {
            Spread::Unicast => self.passed_anyhow(),
            Spread::Flood => self.held_unless_ours(),
            Spread::SameLan => Verdict {
                pass: false,
                claim: false,
            },
        }
    }

    // What is done with a frame to a client from the mesh.
    fn passed_anyhow(self) -> Verdict
        ensures { result ≡ passed_anyhow (told_hold self) }
    {
        match self {
            Hold::Ours { age } => passed_by_holder(age),
            Hold::Nobodys | Hold::Anothers => Verdict {
                pass: true,
                claim: true,
            },
        }
    }
}

// The holder passes a frame, and claims the client anew where its claim is so old.
fn passed_by_holder(age: Millis) -> Verdict
    ensures { result ≡ passed_by_holder age }
{
    Verdict {
        pass: true,
        claim: age >= RENEWAL_AGE,
    }
}
