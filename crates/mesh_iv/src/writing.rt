ghost use Rattle.std.specs.Prelude.{◌≡◌, List, is_none, IfOk, OnOk, OnErr};
ghost use Rattle.std.specs.List.Sorted.{IsStrictlySortedBy};
ghost use Rattle.indexmap.specs.IndexMap.{keys};
ghost use Rattle.mesh_algo.specs.LifeRows.{forwarded_by};
ghost use Rattle.mesh_algo.specs.Pairs.{pair_order};
ghost use Rattle.mesh_algo.specs.Writing.{IsWritten};
ghost use Rattle.mesh_algo.specs.declared.pair.Pair.{Pair};
ghost use Rattle.mesh_iv.specs.Hears.{sent_on_as};
ghost use Rattle.mesh_iv.specs.Origs.{bests_of, lives_of};
ghost use Rattle.mesh_iv.specs.Writing.{IsBestPut, IsKept, IsPut, best_after, is_over_after, life_then, pair_of};
ghost use Rattle.mesh_iv.specs.declared.path.Path.{Path};

use crate::best::{best_near, has_fallen};
use crate::forward::{goes_on, head_on};
use crate::ogm::OgmCame;
use crate::path::Path;
use crate::row::Orig;
use indexmap::IndexMap;
use mesh_algo::best::{better, is_best};
use mesh_algo::life::{is_accepted, life_after, newest_of};
use mesh_algo::table::{Places, put_near, put_path};
use mesh_algo::{Best, Head, Life, Pair};
use mesh_base::{Mac, Millis, NoMemory};

/// Writes the rows of an OGM that is the first of its number from its neighbour, and answers how it
/// is sent on. Both tables stay as they were where memory runs out. The best neighbour of the life
/// before is that which was kept.
pub(crate) fn write(
    origs: &mut IndexMap<Mac, Orig>,
    paths: &mut IndexMap<Pair, Path>,
    ogm: &OgmCame,
    near: Places,
    restarted: Option<Millis>,
    life: &Option<Life>,
    kept: Option<Best>,
    row: Path,
    value: u8,
) -> Result<Option<Head>, NoMemory>
    ensures written { IsKept ogm.now life.now kept paths.old.entries →
        OnOk result (IsWritten (pair_of ogm.now) (is_none life.now) row
        (life_then ogm.now restarted life.now value paths.new.entries)
        (lives_of origs.old.entries, paths.old.entries)
        (lives_of origs.new.entries, paths.new.entries)) }
    ensures best { IsKept ogm.now life.now kept paths.old.entries →
        OnOk result (IsStrictlySortedBy pair_order (keys paths.old) →
        IsBestPut ogm.now life.now paths.new.entries
        (bests_of origs.old.entries) (bests_of origs.new.entries)) }
    ensures answer { IsKept ogm.now life.now kept paths.old.entries →
        IfOk result (λ forward. IsStrictlySortedBy pair_order (keys paths.old) →
        forward ≡ sent_on_as ogm.now value (forwarded_by life.now)
        (is_over_after ogm.now life.now paths.new.entries)) }
    ensures err { OnErr result ((origs.new.entries ≡ origs.old.entries)
        × (paths.new.entries ≡ paths.old.entries)) }
{
    origs.reserve(1)?;
    paths.reserve(1)?;
    put_path(paths, near.path, ogm.pair(), life.is_none(), row)?;
    let best = best_then(paths, near.first, ogm, life, kept, &row);
    let over = is_best(ogm.from, &best);
    let sent = goes_on(ogm, value, life, over);
    let life = life_after(ogm.moment, ogm.seq, restarted, life, sent);
    put_near(origs, near.orig, ogm.orig, Orig { life, best })?;
    Ok(sent.then_some(head_on(ogm, value, over)))
}

// The best neighbour once the row of an OGM was put. There is a walk only where all scores may be
// others, or where the best has a smaller one. Else it is the better of two: the one that was kept,
// and the neighbour of the OGM.
fn best_then(
    paths: &IndexMap<Pair, Path>,
    near: usize,
    ogm: &OgmCame,
    life: &Option<Life>,
    kept: Option<Best>,
    row: &Path,
) -> Option<Best>
    ensures { (old : List (Pair × Path)) →
        IsPut ogm.now life.now kept row.now old paths.now.entries →
        result ≡ best_after ogm.now life.now paths.now.entries }
{
    let newest = newest_of(life).max(ogm.seq);
    let score = row.average(newest);
    if is_accepted(ogm.seq, life) || has_fallen(&kept, ogm.from, score) {
        return best_near(paths, near, ogm.orig, newest);
    }
    better(kept, ogm.from, score)
}
