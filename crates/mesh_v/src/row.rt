ghost use Rattle.std.specs.Prelude.{◌≡◌};
ghost use Rattle.mesh_v.specs.Rows.{elp_in, is_young_row, is_up_by, life_in};

use mesh_algo::Life;
use mesh_base::Millis;

/// How long a neighbour is up after an ELP, in milliseconds.
const ELP_AGE: Millis = 5000;

/// The last ELP of a neighbour.
#[derive(Clone, Copy, Debug)]
pub(crate) struct LastElp {
    /// When it came.
    pub(crate) moment: Millis,
    /// The throughput to the neighbour then, in 100 kbit/s.
    pub(crate) throughput: u32,
}

impl LastElp {
    /// Whether it is young enough at a moment.
    pub(crate) fn is_young(&self, now: Millis) -> bool
        ensures { result ≡ is_young_row now self.now }
    {
        now.saturating_sub(self.moment) < ELP_AGE
    }
}

/// What is kept of an originator, which may be a neighbour too.
#[derive(Clone, Copy, Debug)]
pub(crate) struct Orig {
    /// The life up to its last hearing.
    pub(crate) life: Option<Life>,
    /// Its last ELP.
    pub(crate) elp: Option<LastElp>,
}

/// The life in a row, if there are both.
pub(crate) fn life_in(row: &Option<Orig>) -> Option<Life>
    ensures { result ≡ life_in row.now }
{
    match row {
        None => None,
        Some(row) => row.life,
    }
}

/// The ELP in a row, if there are both.
pub(crate) fn elp_in(row: &Option<Orig>) -> Option<LastElp>
    ensures { result ≡ elp_in row.now }
{
    match row {
        None => None,
        Some(row) => row.elp,
    }
}

/// Whether the neighbour of a row is up at a moment.
pub(crate) fn is_up(row: &Option<Orig>, now: Millis) -> bool
    ensures { result ≡ is_up_by now (elp_in row.now) }
{
    match elp_in(row) {
        None => false,
        Some(elp) => elp.is_young(now),
    }
}
