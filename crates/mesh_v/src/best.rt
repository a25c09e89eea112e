ghost use Rattle.std.specs.Prelude.{◌≡◌, None, drop, if◌then◌else◌};
ghost use Rattle.std.specs.List.Sorted.{IsStrictlySortedBy};
ghost use Rattle.indexmap.specs.IndexMap.{keys};
ghost use Rattle.mesh_algo.specs.Pairs.{pair_order};
ghost use Rattle.mesh_algo.specs.Walk.{better_row, walk, walk_front};
ghost use Rattle.mesh_v.specs.Rows.{IsPositive, path_score, up_in, winner};

use crate::path::Path;
use crate::row::{Orig, is_up};
use indexmap::IndexMap;
use mesh_algo::best::is_better;
use mesh_algo::table::first_path;
use mesh_algo::{Best, Pair};
use mesh_base::{Mac, Millis};

/// The best neighbour at a moment to an originator of this newest number: a walk over the
/// originator's rows alone.
pub(crate) fn best_of(
    origs: &IndexMap<Mac, Orig>,
    paths: &IndexMap<Pair, Path>,
    now: Millis,
    orig: Mac,
    newest: u32,
) -> Option<Best>
    ensures { IsStrictlySortedBy pair_order (keys paths.now) →
        result ≡ walk (path_score (up_in now origs.now.entries) newest) orig None
        paths.now.entries }
{
    best_from(origs, paths, first_path(paths, orig), now, orig, newest)
}

/// The best of the rows from this place on, up to the first of another originator.
pub(crate) fn best_from(
    origs: &IndexMap<Mac, Orig>,
    paths: &IndexMap<Pair, Path>,
    first: usize,
    now: Millis,
    orig: Mac,
    newest: u32,
) -> Option<Best>
    ensures { result ≡ walk_front (path_score (up_in now origs.now.entries) newest) orig None
        (drop first paths.now.entries) }
{
    let rows = paths.get_range(first..)?;
    let mut best = None;
    for (pair, path) in rows.iter() {
        if pair.orig != orig {
            break;
        }
        best = better(origs, now, best, pair.from, path.value(newest));
    }
    best
}

// The better of what is best and a neighbour, if it is up. Whether it is up is looked for only
// where it would be better.
fn better(
    origs: &IndexMap<Mac, Orig>,
    now: Millis,
    best: Option<Best>,
    from: Mac,
    value: u32,
) -> Option<Best>
    ensures next { IsPositive best →
        result ≡ better_row best from (if up_in now origs.now.entries from then value else 0) }
    ensures positive { IsPositive best → IsPositive result }
{
    let wins = is_better(&best, from, value) && is_up_at(origs, now, from);
    winner(wins, best, from, value)
}

// The neighbour if it wins, else what is best.
fn winner(wins: bool, best: Option<Best>, from: Mac, score: u32) -> Option<Best>
    ensures { result ≡ winner wins best from score }
{
    if wins {
        Some(Best { from, score })
    } else {
        best
    }
}

/// Whether a neighbour is up at a moment.
pub(crate) fn is_up_at(origs: &IndexMap<Mac, Orig>, now: Millis, k: Mac) -> bool
    ensures { result ≡ up_in now origs.now.entries k }
{
    is_up(&origs.get(&k).copied(), now)
}
