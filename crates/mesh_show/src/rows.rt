//! The rows of a table, and their lines.

ghost use Rattle.std.specs.Prelude.{◌≡◌, ◌++◌, ℕ, List, Option, flat_map, slice_get, IfOk, OnOk};

use mesh_base::NoMemory;
use std::alloc::Global;

/// The rows that stand at the places from 0, up to the first place without one.
pub fn rows_of<R: Drop, F: Fn(usize) -> Option<R>>(
    alloc: Global,
    row_at: F,
) -> Result<Vec<R>, NoMemory>
    requires { F.IsAlwaysCallable row_at }
    ensures { IfOk result (λ rows. (all : List R) →
        ((place : ℕ) (row : Option R) → F.post row_at place row → row ≡ slice_get all place) →
        rows.items ≡ all) }
{
    let mut rows = Vec::new(alloc);
    while let Some(row) = row_at(rows.len()) {
        rows.push(row)?;
    }
    Ok(rows)
}

/// Appends the line of each row.
pub fn put_lines<R: Copy, F: Fn(&mut Vec<u8>, R) -> Result<(), NoMemory>>(
    out: &mut Vec<u8>,
    rows: &[R],
    put_line: F,
) -> Result<(), NoMemory>
    requires { F.IsAlwaysCallable put_line }
    ensures { (line : R → List ℕ) →
        ((old : _) (row : R) (answer : _) (new : _) → F.post put_line old row answer new →
        OnOk answer (new.now.items ≡ old.now.items ++ line row)) →
        OnOk result (out.new.items ≡ out.old.items ++ flat_map line rows.now) }
{
    for row in rows {
        put_line(out, *row)?;
    }
    Ok(())
}
