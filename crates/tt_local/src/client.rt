ghost use Rattle.std.specs.Prelude.{◌≡◌, None, option_map};
ghost use Rattle.tt_local.specs.Clients.{client_row, with_sighting};
ghost use Rattle.tt_local.specs.Moments.{moment_of};
ghost use Rattle.tt_local.specs.Roster.{is_aged};

use crate::sighting::{Sighting, counts};
use mesh_base::{Entry, Key, Millis, Vid};
use mesh_model::LocalRow;

/// What is known of a client: its last sighting, and whether it is a joined group.
#[derive(Clone, Copy, Debug)]
pub(crate) struct Client {
    pub(crate) sighting: Option<Sighting>,
    pub(crate) joined: bool,
}

impl Client {
    /// The row of the client of this key, where it is present.
    pub(crate) fn row(self, now: Millis, key: Key) -> Option<LocalRow>
        ensures { result ≡ client_row now key self }
    {
        if self.joined {
            let entry = Entry { key, flags: 0 };
            return Some(LocalRow { entry, age: None });
        }
        self.sighting?.row(now, key)
    }

    /// The VLAN of the client of this key, where it is present.
    pub(crate) fn vid(self, now: Millis, key: Key) -> Option<Vid>
        ensures { result ≡ option_map (λ row. row.entry.key.vid) (client_row now key self) }
    {
        self.row(now, key).map(|row| row.entry.key.vid)
    }

    /// The moment of its last sighting.
    pub(crate) fn moment(self) -> Option<Millis>
        ensures { result ≡ moment_of self }
    {
        self.sighting.map(|sighting| sighting.moment)
    }

    /// Whether its sighting counts no longer.
    pub(crate) fn is_aged(self, now: Millis) -> bool
        ensures { result ≡ is_aged now self }
    {
        self.sighting
            .is_some_and(|sighting| !counts(now, sighting.moment))
    }

    /// The same without a sighting.
    pub(crate) fn unsighted(self) -> Client
        ensures { result ≡ with_sighting None self }
    {
        Client {
            sighting: None,
            joined: self.joined,
        }
    }
}
