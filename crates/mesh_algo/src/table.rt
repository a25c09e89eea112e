ghost use Rattle.std.specs.Prelude.{◌≡◌, ◌-◌, ◌<◌, ◌≤◌, ◌&&◌, ℕ, nat_lt, true, Option, Some, drop, slice_get, IfSome, IsOk, OnOk, OnErr, if◌then◌else◌};
ghost use Rattle.std.specs.List.Sorted.{IsStrictlySortedBy};
ghost use Rattle.std.specs.Map.{lookup};
ghost use Rattle.indexmap.specs.IndexMap.{get, index_of, keys, spare, Updates};
ghost use Rattle.mesh_base.specs.declared.address.Mac.{Mac};
ghost use Rattle.mesh_algo.specs.Pairs.{pair_order, rows_kept, same_pair};
ghost use Rattle.mesh_algo.specs.Walk.{is_row_of, walk, walk_front};
ghost use Rattle.mesh_algo.specs.declared.best.Best.{Best};
ghost use Rattle.mesh_algo.specs.declared.pair.Pair.{Pair};

use crate::pair::Pair;
use indexmap::IndexMap;
use mesh_base::{Mac, NoMemory};
use std::hash::Hash;

/// Where the rows of an OGM may stand in a table of originators and one of paths: a look-up begins
/// there, and finds a row wherever it stands.
#[derive(Clone, Copy, Debug)]
pub struct Places {
    /// The row of the originator.
    pub orig: usize,
    /// The row of the originator and the neighbour.
    pub path: usize,
    /// The first row of the originator and a neighbour.
    pub first: usize,
}

/// Puts a row into a table whose keys stand in order. A new row takes memory.
#[inline(always)]
pub fn put<K: Copy + Ord + Hash, V: Copy>(
    table: &mut IndexMap<K, V>,
    key: K,
    value: V,
) -> Result<(), NoMemory>
    ensures updated { OnOk result (Updates K.eq table.old table.new key (Some value)) }
    ensures rises { OnOk result (IsStrictlySortedBy K.cmp (keys table.old) →
        IsStrictlySortedBy K.cmp (keys table.new)) }
    ensures room { 0 < spare table.old → IsOk result }
    ensures err { OnErr result (table.new.entries ≡ table.old.entries) }
{
    match table.get_mut(&key) {
        Some(row) => *row = value,
        None => {
            table.insert_sorted(key, value)?;
        }
    }
    Ok(())
}

/// The place of a key's row, where it has one.
#[inline(always)]
pub fn place_of<K: Copy + Ord + Hash, V: Copy>(table: &IndexMap<K, V>, key: K) -> usize
    ensures { IfSome (index_of K.eq table.now key) (λ place. result ≡ place) }
{
    match table.get_index_of(&key) {
        None => table.len(),
        Some(place) => place,
    }
}

/// The row of a key. It is looked for first at a place where it may stand.
#[inline(always)]
pub fn row_near<K: Copy + Ord + Hash, V: Copy>(
    table: &IndexMap<K, V>,
    near: usize,
    key: K,
) -> Option<V>
    ensures { result ≡ get K.eq table.now key }
{
    if let Some((other, row)) = table.get_index(near) {
        if key == *other {
            return Some(*row);
        }
    }
    row_anywhere(table, key)
}

// The row of a key, wherever it stands. Its own copy of the key is lent to the table, so that the
// one that was compared at a guess needn't stand in memory.
#[inline(always)]
fn row_anywhere<K: Copy + Ord + Hash, V: Copy>(table: &IndexMap<K, V>, key: K) -> Option<V>
    ensures { result ≡ get K.eq table.now key }
{
    table.get(&key).copied()
}

/// Puts a row as `put` does. The row before it is looked for first at a place where it may stand.
#[inline(always)]
pub fn put_near<K: Copy + Ord + Hash, V: Copy>(
    table: &mut IndexMap<K, V>,
    near: usize,
    key: K,
    value: V,
) -> Result<(), NoMemory>
    ensures updated { OnOk result ((q : K) → get K.eq table.new q
        ≡ (if K.eq key q then Some value else get K.eq table.old q)) }
    ensures rises { OnOk result (IsStrictlySortedBy K.cmp (keys table.old) →
        IsStrictlySortedBy K.cmp (keys table.new)) }
    ensures room { 0 < spare table.old → IsOk result }
    ensures err { OnErr result (table.new.entries ≡ table.old.entries) }
{
    if !stands_at(table, near, key) {
        put(table, key, value)?;
        return Ok(());
    }
    let (_key, row) = table.pair_mut(near);
    *row = value;
    Ok(())
}

// Whether the row of a key stands at a place.
#[inline(always)]
fn stands_at<K: Copy + Ord + Hash, V: Copy>(table: &IndexMap<K, V>, place: usize, key: K) -> bool
    ensures { result ≡ true → (other : K) × (row : V)
        × (slice_get table.now.entries place ≡ Some (other, row)) × (K.eq key other ≡ true) }
{
    match table.get_index(place) {
        None => false,
        Some((other, _)) => key == *other,
    }
}

/// Puts the row of a pair, which may stand at a place; the originator's others go if a life of it
/// begins.
pub fn put_path<V: Copy>(
    paths: &mut IndexMap<Pair, V>,
    near: usize,
    pair: Pair,
    begins: bool,
    row: V,
) -> Result<(), NoMemory>
    ensures updated { OnOk result ((key : Pair) → lookup (same_pair key) paths.new.entries
        ≡ (if same_pair pair key then Some row
        else lookup (same_pair key) (rows_kept begins pair.orig paths.old.entries))) }
    ensures rises { OnOk result (IsStrictlySortedBy pair_order (keys paths.old) →
        IsStrictlySortedBy pair_order (keys paths.new)) }
    ensures room { 0 < spare paths.old → IsOk result }
    ensures err { OnErr result (paths.new.entries
        ≡ rows_kept begins pair.orig paths.old.entries) }
{
    drop_paths(paths, pair.orig, begins);
    put_near(paths, near, pair, row)?;
    Ok(())
}

// Takes the rows of an originator out, if a life of it begins.
fn drop_paths<V: Copy>(paths: &mut IndexMap<Pair, V>, orig: Mac, begins: bool)
    ensures kept { paths.new.entries ≡ rows_kept begins orig paths.old.entries }
    ensures room { spare paths.old ≤ spare paths.new }
{
    if begins {
        paths.retain(|pair, _| pair.orig != orig);
    }
}

/// The place of an originator's first row, among rows in order: a walk from there to the first row
/// of another is one over all rows, whatever their score.
pub fn first_path<V: Copy>(paths: &IndexMap<Pair, V>, orig: Mac) -> usize
    ensures { IsStrictlySortedBy pair_order (keys paths.now) →
        (score : Mac → V → ℕ) (best : Option Best) →
        walk_front score orig best (drop result paths.now.entries)
        ≡ walk score orig best paths.now.entries }
{
    paths.partition_point(|pair, _| pair.orig.cmp(&orig).is_lt())
}

/// The same place. It is looked for first from a place on where a row of the originator may stand.
pub fn first_path_near<V: Copy>(paths: &IndexMap<Pair, V>, near: usize, orig: Mac) -> usize
    ensures { IsStrictlySortedBy pair_order (keys paths.now) →
        (score : Mac → V → ℕ) (best : Option Best) →
        walk_front score orig best (drop result paths.now.entries)
        ≡ walk score orig best paths.now.entries }
{
    if !is_path_of(paths, near, orig) {
        return first_path(paths, orig);
    }
    let mut first = near;
    while is_path_before(paths, first, orig) {
        first -= 1;
    }
    first
}

// Whether a row of an originator stands before a place.
fn is_path_before<V: Copy>(paths: &IndexMap<Pair, V>, place: usize, orig: Mac) -> bool
    ensures { result
        ≡ (nat_lt 0 place && is_row_of orig (slice_get paths.now.entries (place - 1))) }
{
    place > 0 && is_path_of(paths, place - 1, orig)
}

// Whether a row of an originator stands at a place.
fn is_path_of<V: Copy>(paths: &IndexMap<Pair, V>, place: usize, orig: Mac) -> bool
    ensures { result ≡ is_row_of orig (slice_get paths.now.entries place) }
{
    match paths.get_index(place) {
        None => false,
        Some((pair, _)) => pair.orig == orig,
    }
}
