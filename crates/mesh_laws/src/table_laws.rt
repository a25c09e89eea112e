//! What holds of tables of clients, over the order of keys.

ghost use Rattle.mesh_laws.specs.TableLaws.{AdditionsMakeTable, AnnouncesChecksums, AnnouncesNoneOfEmpty, ChangesetLeads, HadEqualChecksums, IsDeterminedByEntries, KeepsKeyOrder, NamesKeysOnce, XorsChecksums};

/// Changes that apply strictly move each VLAN's checksum by the sums of their entries.
pub fn changes_xor_the_checksums()
    ensures { XorsChecksums }
{}

/// Changes that apply strictly to two tables with equal checksums afterwards had equal ones before.
pub fn equal_checksums_were_equal()
    ensures { HadEqualChecksums }
{}

/// Changes that apply strictly leave a table in key order.
pub fn changes_keep_the_key_order()
    ensures { KeepsKeyOrder }
{}

/// The changeset from one table to another leads there, and each of its halves names a key once.
pub fn a_changeset_leads_to_its_table()
    ensures leads { ChangesetLeads }
    ensures once { NamesKeysOnce }
{}

/// Tables in key order with the same entries are one.
pub fn entries_determine_a_table()
    ensures { IsDeterminedByEntries }
{}

/// A table in key order is what its entries make of the empty table.
pub fn additions_make_a_table()
    ensures { AdditionsMakeTable }
{}

/// Announced sums name the VLANs that have entries, each with its checksum.
pub fn announced_sums_are_the_checksums()
    ensures sums { AnnouncesChecksums }
    ensures none { AnnouncesNoneOfEmpty }
{}
