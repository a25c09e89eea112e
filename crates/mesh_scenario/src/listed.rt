//! The fixed words of the language, each by what it stands for.

ghost use Rattle.std.specs.Prelude.{◌≡◌, ok_or};
ghost use Rattle.mesh_model.specs.Scenario.Fields.{switch_field, algorithm_field, alfred_mode_field, table_field};
ghost use Rattle.mesh_model.specs.declared.ending.Refusal.TheVariants.{OutOfRange};

use mesh_model::{AlfredMode, Algorithm, Table};

/// `on` or `off`.
pub fn switch(word: &[u8]) -> Option<bool>
    ensures { ok_or result OutOfRange ≡ switch_field word.now }
{
    if word == b"on".as_slice() {
        Some(true)
    } else if word == b"off".as_slice() {
        Some(false)
    } else {
        None
    }
}

/// `iv` or `v`.
pub fn algorithm(word: &[u8]) -> Option<Algorithm>
    ensures { ok_or result OutOfRange ≡ algorithm_field word.now }
{
    if word == b"iv".as_slice() {
        Some(Algorithm::Iv)
    } else if word == b"v".as_slice() {
        Some(Algorithm::V)
    } else {
        None
    }
}

/// `primary`, `secondary` or `off`.
pub fn alfred_mode(word: &[u8]) -> Option<AlfredMode>
    ensures { ok_or result OutOfRange ≡ alfred_mode_field word.now }
{
    if word == b"primary".as_slice() {
        Some(AlfredMode::Primary)
    } else if word == b"secondary".as_slice() {
        Some(AlfredMode::Secondary)
    } else if word == b"off".as_slice() {
        Some(AlfredMode::Off)
    } else {
        None
    }
}

/// The name of a table.
pub fn table(word: &[u8]) -> Option<Table>
    ensures { ok_or result OutOfRange ≡ table_field word.now }
{
    if word == b"o".as_slice() {
        Some(Table::Originators)
    } else if word == b"n".as_slice() {
        Some(Table::Neighbors)
    } else if word == b"tl".as_slice() {
        Some(Table::Locals)
    } else if word == b"tg".as_slice() {
        Some(Table::Globals)
    } else if word == b"cl".as_slice() {
        Some(Table::Claims)
    } else if word == b"gw".as_slice() {
        Some(Table::Gateways)
    } else if word == b"mc".as_slice() {
        Some(Table::Groups)
    } else if word == b"dat".as_slice() {
        Some(Table::Addresses)
    } else if word == b"alf".as_slice() {
        Some(Table::Facts)
    } else if word == b"vis".as_slice() {
        Some(Table::Pictures)
    } else {
        None
    }
}
