ghost use Rattle.std.specs.Prelude.{◌≡◌, ◌-◌, nat_lt};
ghost use Rattle.mesh_model.specs.Clients.Present.{sighting_age};
ghost use Rattle.tt_local.specs.Clients.{sighting_row};

use mesh_base::{Entry, Key, Millis};
use mesh_model::LocalRow;

/// How long a sighting counts, in milliseconds.
const SIGHTING_AGE: Millis = 600_000;

/// The last sighting of a client.
#[derive(Clone, Copy, Debug)]
pub(crate) struct Sighting {
    pub(crate) flags: u8,
    pub(crate) moment: Millis,
}

impl Sighting {
    /// The row of the client of this key, while the sighting counts.
    pub(crate) fn row(self, now: Millis, key: Key) -> Option<LocalRow>
        ensures { result ≡ sighting_row now key self }
    {
        let entry = Entry {
            key,
            flags: self.flags,
        };
        let age = now.saturating_sub(self.moment);
        let row = LocalRow {
            entry,
            age: Some(age),
        };
        (age < SIGHTING_AGE).then_some(row)
    }
}

/// Whether a sighting at a moment still counts.
pub(crate) fn counts(now: Millis, moment: Millis) -> bool
    ensures { result ≡ nat_lt (now - moment) sighting_age }
{
    now.saturating_sub(moment) < SIGHTING_AGE
}
