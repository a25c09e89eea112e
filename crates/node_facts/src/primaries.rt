//! The primaries that a node knows.

ghost use Rattle.std.specs.Prelude.{◌≡◌, IfOk};
ghost use Rattle.mesh_base.specs.declared.address.Mac.{Mac};
ghost use Rattle.mesh_model.specs.Knowledge.FactStore.{chosen_primary, is_reached, primary_rows, reached_primaries};
ghost use Rattle.mesh_model.specs.Knowledge.Known.{Knowledge};
ghost use Rattle.node_facts.specs.PrimaryRows.{row_at};
ghost use Rattle.node_ground.specs.KnowledgeStands.{KnowledgeStands};

use alfred_core::{PrimaryRow, primary_of};
use mesh_algo::Algo;
use mesh_base::{Mac, Millis, NoMemory};
use node_ground::NodeKnowledge;

/// How long a primary is known after it announced itself, in milliseconds.
const PRIMARY_AGE: Millis = 60_000;

// The row of a primary that announced itself last at a moment.
fn row<A: Algo>(kept: &NodeKnowledge<A>, now: Millis, primary: Mac, announced: Millis) -> PrimaryRow
    ensures { (me : Mac) (known : Knowledge) → KnowledgeStands A.stands kept.now me known →
        result ≡ row_at (A.queries me) known now primary announced }
{
    PrimaryRow {
        orig: primary,
        announced,
        metric: kept.algo.metric(now, primary),
    }
}

// The primaries that announced themselves, by address.
fn rows<A: Algo>(kept: &NodeKnowledge<A>, now: Millis) -> Result<Vec<PrimaryRow>, NoMemory>
    ensures { IfOk result (λ rows. (me : Mac) (known : Knowledge) →
        KnowledgeStands A.stands kept.now me known →
        rows.items ≡ primary_rows (A.queries me) known now) }
{
    let mut rows = Vec::new(kept.alloc);
    for (primary, announced) in kept.services.store.primaries.iter() {
        rows.push(row(kept, now, *primary, *announced))?;
    }
    Ok(rows)
}

/// The primary to which a secondary speaks, if any.
pub(crate) fn chosen_primary<A: Algo>(
    kept: &NodeKnowledge<A>,
    now: Millis,
) -> Result<Option<Mac>, NoMemory>
    ensures { IfOk result (λ primary. (me : Mac) (known : Knowledge) →
        KnowledgeStands A.stands kept.now me known →
        primary ≡ chosen_primary (A.queries me) known now) }
{
    let rows = rows(kept, now)?;
    Ok(primary_of(now, rows.as_slice()))
}

// Whether a primary is known, and a route leads to it.
fn is_reached<A: Algo>(kept: &NodeKnowledge<A>, now: Millis, row: PrimaryRow) -> bool
    ensures { (me : Mac) (known : Knowledge) → KnowledgeStands A.stands kept.now me known →
        result ≡ is_reached (A.queries me) known now row }
{
    now.saturating_sub(row.announced) < PRIMARY_AGE && kept.algo.route(now, row.orig).is_some()
}

/// The known primaries to which a route leads, by address.
pub(crate) fn reached_primaries<A: Algo>(
    kept: &NodeKnowledge<A>,
    now: Millis,
) -> Result<Vec<Mac>, NoMemory>
    ensures { IfOk result (λ primaries. (me : Mac) (known : Knowledge) →
        KnowledgeStands A.stands kept.now me known →
        primaries.items ≡ reached_primaries (A.queries me) known now) }
{
    let mut reached = Vec::new(kept.alloc);
    let rows = rows(kept, now)?;
    for row in rows.iter() {
        if is_reached(kept, now, *row) {
            reached.push(row.orig)?;
        }
    }
    Ok(reached)
}
