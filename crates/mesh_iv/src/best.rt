ghost use Rattle.std.specs.Prelude.{◌≡◌, None, drop};
ghost use Rattle.std.specs.List.Sorted.{IsStrictlySortedBy};
ghost use Rattle.indexmap.specs.IndexMap.{keys};
ghost use Rattle.mesh_algo.specs.Pairs.{pair_order};
ghost use Rattle.mesh_algo.specs.Walk.{walk, walk_front};
ghost use Rattle.mesh_iv.specs.Rows.{path_score};
ghost use Rattle.mesh_iv.specs.Writing.{has_fallen};

use crate::path::Path;
use indexmap::IndexMap;
use mesh_algo::best::better;
use mesh_algo::table::first_path_near;
use mesh_algo::{Best, Pair};
use mesh_base::Mac;

/// The best neighbour to an originator of this newest number, whose rows may stand from a place on: a
/// walk over them alone.
pub(crate) fn best_near(
    paths: &IndexMap<Pair, Path>,
    near: usize,
    orig: Mac,
    newest: u32,
) -> Option<Best>
    ensures { IsStrictlySortedBy pair_order (keys paths.now) →
        result ≡ walk (path_score newest) orig None paths.now.entries }
{
    best_from(paths, first_path_near(paths, near, orig), orig, newest)
}

/// The best of the rows from this place on, up to the first of another originator.
pub(crate) fn best_from(
    paths: &IndexMap<Pair, Path>,
    first: usize,
    orig: Mac,
    newest: u32,
) -> Option<Best>
    ensures { result
        ≡ walk_front (path_score newest) orig None (drop first paths.now.entries) }
{
    let rows = paths.get_range(first..)?;
    let mut best = None;
    for (pair, path) in rows.iter() {
        if pair.orig != orig {
            break;
        }
        best = better(best, pair.from, path.average(newest));
    }
    best
}

/// Whether a neighbour was the best, with a greater score than this.
pub(crate) fn has_fallen(best: &Option<Best>, from: Mac, score: u32) -> bool
    ensures { result ≡ has_fallen best.now from score }
{
    match best {
        None => false,
        Some(best) => best.from == from && score < best.score,
    }
}
