//! Which primary a node speaks to.

ghost use Rattle.std.specs.Prelude.{◌≡◌};
ghost use Rattle.mesh_model.specs.Services.Primaries.{best_primary, best_primary_row, better_primary, is_eligible};

use mesh_base::{Mac, Millis};
use mesh_model::PrimaryRow;

/// How long a primary is known after it announced itself, in milliseconds.
const PRIMARY_AGE: Millis = 60_000;

// Whether a primary is known, and a route leads to it.
fn is_eligible(now: Millis, row: &PrimaryRow) -> bool
    ensures { result ≡ is_eligible now row.now }
{
    now.saturating_sub(row.announced) < PRIMARY_AGE && row.metric > 0
}

// The better of a primary and what is best of others: by the metric, in a tie by the smaller
// address.
fn better_primary(row: PrimaryRow, best: Option<PrimaryRow>) -> PrimaryRow
    ensures { result ≡ better_primary row best }
{
    let Some(other) = best else {
        return row;
    };
    if other.metric < row.metric || (other.metric == row.metric && row.orig < other.orig) {
        row
    } else {
        other
    }
}

// The best of some primaries.
fn best_row(now: Millis, rows: &[PrimaryRow]) -> Option<PrimaryRow>
    ensures { result ≡ best_primary_row now rows.now }
{
    let (first, rest) = rows.split_first()?;
    let best = best_row(now, rest);
    if is_eligible(now, first) {
        Some(better_primary(*first, best))
    } else {
        best
    }
}

/// The primary to which a node speaks: of those that announced themselves less than 60,000 ms ago
/// the one of the greatest metric above 0, in a tie that of the smaller address. It takes no
/// memory.
pub fn primary_of(now: Millis, rows: &[PrimaryRow]) -> Option<Mac>
    ensures { result ≡ best_primary now rows.now }
{
    best_row(now, rows).map(|row| row.orig)
}
