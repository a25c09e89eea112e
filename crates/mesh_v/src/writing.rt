ghost use Rattle.std.specs.Prelude.{◌≡◌, is_none, IfOk, OnOk, OnErr};
ghost use Rattle.std.specs.List.Sorted.{IsStrictlySortedBy};
ghost use Rattle.indexmap.specs.IndexMap.{keys};
ghost use Rattle.mesh_algo.specs.LifeRows.{forwarded_by};
ghost use Rattle.mesh_algo.specs.Pairs.{pair_order};
ghost use Rattle.mesh_algo.specs.Writing.{IsWritten};
ghost use Rattle.mesh_v.specs.Hears.{goes_on, sent_on_as};
ghost use Rattle.mesh_v.specs.Writing.{is_over_after, orig_then, pair_of};

use crate::best::best_from;
use crate::forward::head_on;
use crate::ogm::OgmCame;
use crate::path::Path;
use crate::row::{LastElp, Orig};
use indexmap::IndexMap;
use mesh_algo::best::is_best;
use mesh_algo::life::{forwarded_of, life_after, newest_of};
use mesh_algo::table::{Places, first_path_near, put_near, put_path};
use mesh_algo::{Head, Life, Pair};
use mesh_base::{Mac, Millis, NoMemory};

/// Writes the rows of an OGM that is the first of its number from its neighbour, and answers how it
/// is sent on. Both tables stay as they were where memory runs out.
pub(crate) fn write(
    origs: &mut IndexMap<Mac, Orig>,
    paths: &mut IndexMap<Pair, Path>,
    ogm: &OgmCame,
    near: Places,
    elp: Option<LastElp>,
    restarted: Option<Millis>,
    life: &Option<Life>,
    row: Path,
    value: u32,
) -> Result<Option<Head>, NoMemory>
    ensures written { OnOk result (IsWritten (pair_of ogm.now) (is_none life.now) row
        (orig_then ogm.now elp restarted life.now value origs.old.entries paths.new.entries)
        (origs.old.entries, paths.old.entries) (origs.new.entries, paths.new.entries)) }
    ensures answer { IfOk result (λ forward. IsStrictlySortedBy pair_order (keys paths.old) →
        forward ≡ sent_on_as ogm.now value (forwarded_by life.now)
        (is_over_after ogm.now life.now origs.old.entries paths.new.entries)) }
    ensures err { OnErr result ((origs.new.entries ≡ origs.old.entries)
        × (paths.new.entries ≡ paths.old.entries)) }
{
    origs.reserve(1)?;
    paths.reserve(1)?;
    put_path(paths, near.path, ogm.pair(), life.is_none(), row)?;
    let sent = is_sent_on(origs, paths, ogm, near, life, value);
    let life = life_after(ogm.moment, ogm.seq, restarted, life, sent);
    let row = Orig {
        life: Some(life),
        elp,
    };
    put_near(origs, near.orig, ogm.orig, row)?;
    Ok(sent.then_some(head_on(ogm, value)))
}

// Whether an OGM is sent on. The best neighbour is looked for only where it is sent on if it came
// from that one.
fn is_sent_on(
    origs: &IndexMap<Mac, Orig>,
    paths: &IndexMap<Pair, Path>,
    ogm: &OgmCame,
    near: Places,
    life: &Option<Life>,
    value: u32,
) -> bool
    ensures { IsStrictlySortedBy pair_order (keys paths.now) →
        result ≡ goes_on ogm.now value (forwarded_by life.now)
        (is_over_after ogm.now life.now origs.now.entries paths.now.entries) }
{
    if ogm.ttl <= 1 || value == 0 || forwarded_of(life).has(ogm.seq) {
        return false;
    }
    let newest = newest_of(life).max(ogm.seq);
    let first = first_path_near(paths, near.first, ogm.orig);
    let best = best_from(origs, paths, first, ogm.moment, ogm.orig, newest);
    is_best(ogm.from, &best)
}
