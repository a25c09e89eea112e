ghost use Rattle.std.specs.Prelude.{◌≡◌};
ghost use Rattle.mesh_bla.specs.Claims.{kept_row};

use mesh_base::{Key, Mac, Millis};
use mesh_model::ClaimRow;

/// How long a claim stands, in milliseconds.
const CLAIM_AGE: Millis = 100_000;

/// The last claim or unclaim frame of a key.
#[derive(Clone, Copy, Debug)]
pub(crate) struct Kept {
    pub(crate) moment: Millis,
    pub(crate) sender: Mac,
    pub(crate) claim: bool,
}

impl Kept {
    /// The row of the claim of this key, while one stands.
    pub(crate) fn row(self, now: Millis, key: Key) -> Option<ClaimRow>
        ensures { result ≡ kept_row now key self }
    {
        let age = now.saturating_sub(self.moment);
        let row = ClaimRow {
            key,
            holder: self.sender,
            age,
        };
        (self.claim && age < CLAIM_AGE).then_some(row)
    }
}
