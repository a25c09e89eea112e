//! The laws of the definitions, each as the contract of a function that does nothing.

ghost use Rattle.std.specs.Prelude.{◌≡◌};
ghost use Rattle.mesh_model.specs.Packets.Numbers.{gateway_tvlv, dat_tvlv, tt_tvlv, roaming_tvlv, multicast_tvlv, tvlv_version, tt_part_version, multicast_version, ogm_diff_flag, request_flag, response_flag, full_table_flag, del_flag, roam_flag, wifi_flag, isolated_flag};
ghost use Rattle.mesh_tvlv.specs.Laws.{ContainersAreReadBack, ContainersAreFound, ContainersAreUnique, TableIsReadBack, PartIsReadBack, RecordIsReadBack, BodiesAreReadBack};

use crate::layout::{
    DAT, DEL, FULL_TABLE, GATEWAY, ISOLATED, MULTICAST, MULTICAST_VERSION, OGM_DIFF, REQUEST,
    RESPONSE, ROAM, ROAMING, TT, TT_PART_VERSION, VERSION, WIFI,
};

/// Containers that were written one after the other are read as these containers, and no bytes are
/// left.
pub fn containers_are_read_back()
    ensures { ContainersAreReadBack }
{}

/// The containers that are computed from bytes are those of the grammar.
pub fn containers_are_found()
    ensures { ContainersAreFound }
{}

/// Bytes are no two lists of containers.
pub fn containers_are_unique()
    ensures { ContainersAreUnique }
{}

/// What the writers wrote for a translation table is read back, field by field.
pub fn table_is_read_back()
    ensures { TableIsReadBack }
{}

/// What the writers wrote for a part of a translation table is read back, field by field.
pub fn part_is_read_back()
    ensures { PartIsReadBack }
{}

/// A record that was written for a client tells that client, and whether it is gone.
pub fn record_is_read_back()
    ensures { RecordIsReadBack }
{}

/// The bodies of roaming, gateway and multicast containers are read back.
pub fn bodies_are_read_back()
    ensures { BodiesAreReadBack }
{}

/// The types and versions of containers, and the flags of tables and of records, are those of the
/// definitions.
pub fn numbers_are_those_of_the_definitions()
    ensures gateway { GATEWAY ≡ gateway_tvlv }
    ensures dat { DAT ≡ dat_tvlv }
    ensures tt { TT ≡ tt_tvlv }
    ensures roaming { ROAMING ≡ roaming_tvlv }
    ensures multicast { MULTICAST ≡ multicast_tvlv }
    ensures version { VERSION ≡ tvlv_version }
    ensures part_version { TT_PART_VERSION ≡ tt_part_version }
    ensures multicast_version { MULTICAST_VERSION ≡ multicast_version }
    ensures ogm_diff { OGM_DIFF ≡ ogm_diff_flag }
    ensures request { REQUEST ≡ request_flag }
    ensures response { RESPONSE ≡ response_flag }
    ensures full_table { FULL_TABLE ≡ full_table_flag }
    ensures del { DEL ≡ del_flag }
    ensures roam { ROAM ≡ roam_flag }
    ensures wifi { WIFI ≡ wifi_flag }
    ensures isolated { ISOLATED ≡ isolated_flag }
{}
