//! A law of the tables, the contract of a function that does nothing.

ghost use Rattle.mesh_base.specs.declared.address.Mac.{Mac};
ghost use Rattle.mesh_model.specs.Routes.RouteLog.{RouteLog};
ghost use Rattle.mesh_v.specs.KeyLaw.{HasKeysOfHeads};
ghost use Rattle.mesh_v.specs.Tables.{StandsFor};

use crate::v::V;

/// Each row's key is the originator of an OGM or an ELP in the log, or the originator and the
/// neighbour of an OGM.
pub fn keys_come_from_heads(_v: &V)
    ensures { (me : Mac) (log : RouteLog) → StandsFor me _v.now log → HasKeysOfHeads _v.now log }
{}
