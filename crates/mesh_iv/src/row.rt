ghost use Rattle.std.specs.Prelude.{◌≡◌};
ghost use Rattle.mesh_iv.specs.Origs.{best_kept, life_in, orig_at};

use mesh_algo::{Best, Life};
use mesh_base::Millis;

/// What is kept of an originator.
#[derive(Clone, Copy, Debug)]
pub(crate) struct Orig {
    /// The life up to its last hearing.
    pub(crate) life: Life,
    /// The best neighbour to it in that life, if there is one.
    pub(crate) best: Option<Best>,
}

impl Orig {
    /// The row, if its life is one at a moment.
    pub(crate) fn at(&self, now: Millis) -> Option<Orig>
        ensures { result ≡ orig_at now self.now }
    {
        let life = self.life.at(now)?;
        Some(Orig {
            life,
            best: self.best,
        })
    }
}

/// The life in a row, if there is one.
pub(crate) fn life_in(row: &Option<Orig>) -> Option<Life>
    ensures { result ≡ life_in row.now }
{
    match row {
        None => None,
        Some(row) => Some(row.life),
    }
}

/// The best neighbour that a row keeps, if there are both.
pub(crate) fn best_kept(row: &Option<Orig>) -> Option<Best>
    ensures { result ≡ best_kept row.now }
{
    match row {
        None => None,
        Some(row) => row.best,
    }
}
