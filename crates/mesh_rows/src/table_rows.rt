//! Small tables, computed from the definitions alone: checksums, changes, strict application.

ghost use Rattle.std.specs.Prelude.{◌≡◌, [], ◌∷◌, codes, Ok, Err};
ghost use Rattle.mesh_model.specs.Tables.Changes.{addition, changeset, deletion};
ghost use Rattle.mesh_model.specs.Tables.Checksum.{crc32c};
ghost use Rattle.mesh_model.specs.Tables.Strict.{apply_strictly};
ghost use Rattle.mesh_model.specs.Tables.Sums.{checksums, entry_sum, sums_of};
ghost use Rattle.mesh_rows.specs.TableRows.{first, first_by_wifi, first_tagged, group_tagged, second};

/// The check value of CRC32C, 0xe3069283, and the value of no bytes.
pub fn the_checksum_has_its_check_value()
    ensures digits { crc32c (codes "123456789") ≡ 3808858755 }
    ensures nothing { crc32c [] ≡ 0 }
{}

/// The sums of five entries, as another program computed them: 81a0d314, 1dfb29b2, 92f020e0,
/// dd91d3fb and 3a10b974. Only WIFI and ISOLATED count of the flags.
pub fn entries_have_their_sums()
    ensures first { entry_sum first ≡ 2174800660 }
    ensures first_by_wifi { entry_sum first_by_wifi ≡ 502999474 }
    ensures second { entry_sum second ≡ 2465210592 }
    ensures first_tagged { entry_sum first_tagged ≡ 3717321723 }
    ensures group_tagged { entry_sum group_tagged ≡ 974174580 }
    ensures other_flags { entry_sum (record first { flags = 207 }) ≡ entry_sum first }
{}

/// Two untagged clients have the XOR of their sums, 1350f3f4, and a VLAN without clients has 0.
pub fn clients_of_a_vlan_share_its_checksum()
    ensures untagged { checksums (first ∷ first_tagged ∷ second ∷ []) (record { 0 = 0 })
        ≡ 324072436 }
    ensures tagged { checksums (first ∷ first_tagged ∷ second ∷ []) (record { 0 = 32775 })
        ≡ 3717321723 }
    ensures empty { checksums (first ∷ first_tagged ∷ second ∷ []) (record { 0 = 32776 }) ≡ 0 }
    ensures named { sums_of (first ∷ first_tagged ∷ second ∷ [])
        ≡ record { vid = record { 0 = 0 }; sum = 324072436 }
        ∷ record { vid = record { 0 = 32775 }; sum = 3717321723 } ∷ [] }
{}

/// A client that isn't there can't be taken away, nor with other flags than it has.
pub fn a_deletion_needs_its_entry()
    ensures absent { apply_strictly [] (deletion first ∷ []) ≡ Err (deletion first) }
    ensures flags { apply_strictly (first ∷ []) (deletion first_by_wifi ∷ [])
        ≡ Err (deletion first_by_wifi) }
    ensures there { apply_strictly (first ∷ second ∷ []) (deletion second ∷ [])
        ≡ Ok (first ∷ []) }
{}

/// A client is added once.
pub fn an_addition_needs_an_absent_key()
    ensures absent { apply_strictly [] (addition first ∷ []) ≡ Ok (first ∷ []) }
    ensures present { apply_strictly (first ∷ []) (addition first ∷ []) ≡ Err (addition first) }
    ensures twice { apply_strictly [] (addition first ∷ addition first_by_wifi ∷ [])
        ≡ Err (addition first_by_wifi) }
{}

/// Deletions come before additions, also where they are listed after them: the first that fails is
/// a deletion.
pub fn deletions_come_before_additions()
    ensures applied { apply_strictly (first ∷ [])
        (addition first_by_wifi ∷ deletion first ∷ []) ≡ Ok (first_by_wifi ∷ []) }
    ensures refused { apply_strictly (first ∷ [])
        (addition first ∷ deletion second ∷ []) ≡ Err (deletion second) }
{}

/// A changeset has a client whose flags changed in both halves, and leads to the new table.
pub fn a_changeset_leads_to_the_new_table()
    ensures changes { changeset (first ∷ second ∷ []) (first_by_wifi ∷ first_tagged ∷ second ∷ [])
        ≡ deletion first ∷ addition first_by_wifi ∷ addition first_tagged ∷ [] }
    ensures applied { apply_strictly (first ∷ second ∷ [])
        (changeset (first ∷ second ∷ []) (first_by_wifi ∷ first_tagged ∷ second ∷ []))
        ≡ Ok (first_by_wifi ∷ first_tagged ∷ second ∷ []) }
    ensures same { changeset (first ∷ second ∷ []) (first ∷ second ∷ []) ≡ [] }
{}
