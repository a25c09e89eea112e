//! Which gateway a client chooses among those that it knows.

ghost use Rattle.std.specs.Prelude.{◌≡◌, find};
ghost use Rattle.mesh_model.specs.Routes.Addresses.{same_mac};
ghost use Rattle.mesh_model.specs.Services.Gateways.{best_row, better_row, chosen_gateway, kept_row, unless_late};

use mesh_base::Mac;
use mesh_model::{GwRow, Policy};

// The better of a row and what is best of others: by the metric, in a tie by the smaller address.
fn better_row(row: GwRow, best: Option<GwRow>) -> GwRow
    ensures { result ≡ better_row row best }
{
    let Some(other) = best else {
        return row;
    };
    if row.metric > other.metric || (row.metric == other.metric && row.orig < other.orig) {
        row
    } else {
        other
    }
}

// The best of some rows.
fn best_row(rows: &[GwRow]) -> Option<GwRow>
    ensures { result ≡ best_row rows.now }
{
    let (first, rest) = rows.split_first()?;
    Some(better_row(*first, best_row(rest)))
}

// The row of a gateway, where it is among them.
fn row_of(gateway: Mac, rows: &[GwRow]) -> Option<GwRow>
    ensures { result ≡ find (λ row. same_mac gateway row.orig) rows.now }
{
    let (first, rest) = rows.split_first()?;
    if gateway == first.orig {
        return Some(*first);
    }
    row_of(gateway, rest)
}

// A row, unless the best one's metric is so much above its own.
fn unless_late(most: u32, best: Option<GwRow>, row: GwRow) -> Option<GwRow>
    ensures { result ≡ unless_late most best row }
{
    let Some(best) = best else {
        return Some(row);
    };
    if u64::from(best.metric) < u64::from(row.metric) + u64::from(most) {
        Some(row)
    } else {
        None
    }
}

// What is kept of the old choice by a policy, where the best row is this.
fn kept_row(policy: Policy, best: Option<GwRow>, old: Option<GwRow>) -> Option<GwRow>
    ensures { result ≡ kept_row policy best old }
{
    match policy {
        Policy::Best => None,
        Policy::Stable => old,
        Policy::Late(most) => unless_late(most, best, old?),
    }
}

/// The gateway that a client chooses by a policy among the rows of those that it knows, which have
/// distinct addresses, where its old choice is this. Metrics are those of the routing algorithm. It
/// takes no memory.
pub fn choose(policy: Policy, old: Option<Mac>, rows: &[GwRow]) -> Option<Mac>
    ensures { result ≡ chosen_gateway policy old rows.now }
{
    let best = best_row(rows);
    let old_row = match old {
        Some(gateway) => row_of(gateway, rows),
        None => None,
    };
    let row = kept_row(policy, best, old_row).or(best)?;
    Some(row.orig)
}
