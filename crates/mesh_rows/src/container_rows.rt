//! Containers, and what a node takes from them, computed from the definitions alone.

ghost use Rattle.std.specs.Prelude.{◌++◌, codes, None, Some, true};
ghost use Rattle.mesh_model.specs.Knowledge.Told.{Answers, Neither};
ghost use Rattle.mesh_model.specs.Tables.Judging.{InPart};
ghost use Rattle.mesh_rows.specs.ContainerRows.{HasTableVersion, Spells, TellsPart, TellsSum};
ghost use Rattle.mesh_rows.specs.PartRows.{both, second_alone};

/// A table that is too short, one of another version and one of another type are passed over; of
/// two that are long enough the first counts.
pub fn the_first_table_that_is_long_enough_counts()
    ensures counts { HasTableVersion
        (codes "04010003010500" ++ codes "0402000401060000" ++ codes "0501000401060000"
        ++ codes "0401000401070000" ++ codes "0401000401080000")
        (Some 7) }
    ensures short { HasTableVersion (codes "04010003010500") None }
{}

/// Where a VLAN stands twice in a table, the later checksum counts.
pub fn the_later_of_two_sums_counts()
    ensures later { TellsSum
        (codes "0401001c01070003" ++ codes "0000000180070000" ++ codes "0000000280080000"
        ++ codes "0000000380070000")
        (record { 0 = 32775 }) (Some 3) }
    ensures none { TellsSum (codes "0401000401070000") (record { 0 = 32775 }) None }
{}

/// A part of a table is read as it was spelled. It counts where it is told to be an answer with a
/// whole table, whatever else is told, and it isn't a table.
pub fn a_part_is_read_as_it_was_spelled()
    ensures spelled { Spells
        (codes "0402001c1403000100010002" ++ codes "1350f3f400000000"
        ++ codes "000000000200000001020000")
        (record {
          reply = record { full = true; stamp = both; records = second_alone };
          place = Some (record { number = 1; count = 2 });
        }) }
    ensures read { TellsPart
        (codes "0402001c1403000100010002" ++ codes "1350f3f400000000"
        ++ codes "000000000200000001020000")
        (Answers both (InPart 1 2 second_alone)) }
    ensures request_too { TellsPart
        (codes "0402001c1603000100010002" ++ codes "1350f3f400000000"
        ++ codes "000000000200000001020000")
        (Answers both (InPart 1 2 second_alone)) }
    ensures response_alone { TellsPart
        (codes "0402001c0403000100010002" ++ codes "1350f3f400000000"
        ++ codes "000000000200000001020000")
        Neither }
    ensures request { TellsPart
        (codes "0402001c1203000100010002" ++ codes "1350f3f400000000"
        ++ codes "000000000200000001020000")
        Neither }
    ensures no_table { HasTableVersion
        (codes "0402001c1403000100010002" ++ codes "1350f3f400000000"
        ++ codes "000000000200000001020000")
        None }
{}
