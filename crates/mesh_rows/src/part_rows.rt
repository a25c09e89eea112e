//! A large table in parts, computed from the definitions alone: which answers go in parts, how a
//! part is spelled, read and printed, and what parts that come make of the table that is held.

ghost use Rattle.std.specs.Prelude.{◌≡◌, [], ◌∷◌, ◌++◌, codes, None, Ok, Some, false, true};
ghost use Rattle.mesh_model.specs.declared.table_outcome.Heard.TheVariants.{Emptied, Gap};
ghost use Rattle.mesh_model.specs.declared.table_outcome.Taken.TheVariants.{BadPart, Clash, NotTold, Part, SumDiffers, Taken};
ghost use Rattle.mesh_model.specs.Tables.Changes.{addition, deletion};
ghost use Rattle.mesh_model.specs.Tables.Gathered.{none_gathered};
ghost use Rattle.mesh_model.specs.Tables.Judging.{InChanges, InFull, InPart, announcement_row};
ghost use Rattle.mesh_model.specs.Tables.Known.{is_agreed};
ghost use Rattle.mesh_rows.specs.DecodeRows.{Prints};
ghost use Rattle.mesh_rows.specs.PartRows.{both, came, first_alone, known, outcome, part, part_outcome, part_sizes, second_alone, stamp, told, told_both};
ghost use Rattle.mesh_rows.specs.TableRows.{first, second};

/// Two parts of a table come, the later one first and twice, and one with a bad number.
pub fn parts_come_in_any_order()
    ensures emptied { (announcement_row None (record { byte = 0; sums = [] }) []).outcome
        ≡ Emptied }
    ensures gap { (announcement_row (Some (record { byte = 0; table = [] })) both []).outcome
        ≡ Gap 0 3 }
    ensures bad { part_outcome told_both 2 2 [] ≡ BadPart 2 2 }
    ensures later { part_outcome (part 2 2 [] ∷ told_both) 1 2 second_alone ≡ Part 1 0 }
    ensures again { part_outcome (part 1 2 second_alone ∷ told_both) 1 2 first_alone ≡ Part 1 0 }
    ensures last { part_outcome (part 1 2 first_alone ∷ part 1 2 second_alone ∷ told_both) 0 2
        first_alone ≡ Taken }
    ensures held { (known (part 0 2 first_alone ∷ part 1 2 first_alone ∷ part 1 2 second_alone
        ∷ told_both)).held ≡ Some (record { byte = 3; table = first ∷ second ∷ [] }) }
    ensures ok { is_agreed (known (part 0 2 first_alone ∷ part 1 2 first_alone
        ∷ part 1 2 second_alone ∷ told_both)) ≡ true }
    ensures gone { (known (part 0 2 first_alone ∷ part 1 2 first_alone ∷ part 1 2 second_alone
        ∷ told_both)).gathered ≡ none_gathered }
{}

/// The number of a part is below its count, which is from 1 to 4. Nothing else is looked at where
/// they are bad, and no part is dropped.
pub fn a_bad_part_is_looked_at_no_further()
    ensures none { part_outcome told_both 0 0 first_alone ≡ BadPart 0 0 }
    ensures five { part_outcome told_both 0 5 first_alone ≡ BadPart 0 5 }
    ensures most { part_outcome told_both 0 65535 first_alone ≡ BadPart 0 65535 }
    ensures at_count { part_outcome told_both 4 4 first_alone ≡ BadPart 4 4 }
    ensures four { part_outcome told_both 3 4 first_alone ≡ Part 1 0 }
    ensures untold { part_outcome [] 1 1 first_alone ≡ BadPart 1 1 }
    ensures kept { (known (part 0 5 [] ∷ part 1 2 second_alone ∷ told_both)).gathered
        ≡ record { count = 2; got = (1, second_alone) ∷ [] } }
{}

/// A part is taken under the byte and the sums that were told, and changes nothing under others.
pub fn a_part_has_what_was_told()
    ensures untold { part_outcome [] 0 2 first_alone ≡ NotTold 3 None }
    ensures another_byte { outcome told_both (stamp 4 324072436) (InPart 0 2 first_alone)
        ≡ NotTold 4 (Some 3) }
    ensures other_sums { outcome told_both (stamp 3 5) (InPart 0 2 first_alone)
        ≡ SumDiffers (record { 0 = 0 }) 324072436 5 }
    ensures kept { (known (came (stamp 3 5) (InPart 0 2 first_alone) ∷ part 1 2 second_alone
        ∷ told_both)).gathered ≡ record { count = 2; got = (1, second_alone) ∷ [] } }
{}

/// Parts are dropped by a part of another count, and by an announcement of another byte or of other
/// sums; one of the same byte and sums, and an answer in one piece, leave them.
pub fn parts_are_dropped()
    ensures another_count { part_outcome (part 1 3 second_alone ∷ part 0 2 first_alone ∷ told_both)
        0 2 first_alone ≡ Part 1 1 }
    ensures of_three { part_outcome (part 0 2 first_alone ∷ told_both) 1 3 second_alone ≡ Part 1 0 }
    ensures another_byte { part_outcome (told both ∷ told (stamp 2 324072436)
        ∷ part 0 2 first_alone ∷ told_both) 1 2 second_alone ≡ Part 1 0 }
    ensures other_sums { part_outcome (told both ∷ told (stamp 3 5) ∷ part 0 2 first_alone
        ∷ told_both) 1 2 second_alone ≡ Part 1 0 }
    ensures told_again { part_outcome (told both ∷ part 0 2 first_alone ∷ told_both) 1 2
        second_alone ≡ Taken }
    ensures in_full { part_outcome (came both (InFull (addition first ∷ addition second ∷ []))
        ∷ part 0 2 first_alone ∷ told_both) 1 2 second_alone ≡ Taken }
{}

/// The records of all parts are tried at once; where they fail, the parts are gone and the table
/// stays.
pub fn parts_are_tried_together()
    ensures twice { part_outcome (part 1 2 first_alone ∷ told_both) 0 2 first_alone
        ≡ Clash first }
    ensures deletion { part_outcome (part 0 2 first_alone ∷ told_both) 1 2 (deletion first ∷ [])
        ≡ Clash first }
    ensures other_sums { part_outcome (part 1 2 [] ∷ told_both) 0 2 first_alone
        ≡ SumDiffers (record { 0 = 0 }) 2174800660 324072436 }
    ensures gone { (known (part 0 2 first_alone ∷ part 1 2 first_alone ∷ told_both)).gathered
        ≡ none_gathered }
    ensures stays { (known (part 0 2 first_alone ∷ part 1 2 first_alone ∷ told_both)).held
        ≡ Some (record { byte = 0; table = [] }) }
    ensures alone { part_outcome told_both 0 1 (addition first ∷ addition second ∷ []) ≡ Taken }
{}

/// An answer with a whole table of more than 1,024 entries goes in parts.
pub fn large_tables_go_in_parts()
    ensures whole { part_sizes true 1024 ≡ (None, 1024) ∷ [] }
    ensures two { part_sizes true 1025 ≡ (Some (record { number = 0; count = 2 }), 1024)
        ∷ (Some (record { number = 1; count = 2 }), 1) ∷ [] }
    ensures two_whole { part_sizes true 2048 ≡ (Some (record { number = 0; count = 2 }), 1024)
        ∷ (Some (record { number = 1; count = 2 }), 1024) ∷ [] }
    ensures most { part_sizes true 4096 ≡ (Some (record { number = 0; count = 4 }), 1024)
        ∷ (Some (record { number = 1; count = 4 }), 1024)
        ∷ (Some (record { number = 2; count = 4 }), 1024)
        ∷ (Some (record { number = 3; count = 4 }), 1024) ∷ [] }
    ensures changes { part_sizes false 1025 ≡ (None, 1025) ∷ [] }
    ensures empty { part_sizes true 0 ≡ (None, 0) ∷ [] }
{}

/// A container with a part has its line, with the part's number and count, and the lines of its
/// VLANs and records.
pub fn a_part_has_its_lines()
    ensures second { Prints
        (codes "440f320002000000000b02000000000a00200000"
        ++ codes "0402001c1401000100010002" ++ codes "3d4131cb00000000"
        ++ codes "000000000200000005000000")
        (codes "packet utvlv ttl=50 dst=02:00:00:00:00:0b src=02:00:00:00:00:0a tvlv=32"
        ∷ codes "tvlv 4 version=2 len=28 flags=14 ttvn=1 vlans=1 part=1 of=2 changes=1"
        ∷ codes "vlan - sum=3d4131cb" ∷ codes "change 00 02:00:00:00:05:00 -" ∷ []) }
    ensures short { Prints
        (codes "440f320002000000000b02000000000a000b0000" ++ codes "0402000714010000000000")
        (codes "packet utvlv ttl=50 dst=02:00:00:00:00:0b src=02:00:00:00:00:0a tvlv=11"
        ∷ codes "bad badlength kind=4 len=7" ∷ []) }
{}
