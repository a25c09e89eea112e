//! A law of the tables, the contract of a function that does nothing.

ghost use Rattle.mesh_base.specs.declared.address.Mac.{Mac};
ghost use Rattle.mesh_model.specs.Routes.RouteLog.{RouteLog};
ghost use Rattle.mesh_iv.specs.KeyLaw.{HasKeysOfOgms};
ghost use Rattle.mesh_iv.specs.Tables.{StandsFor};

use crate::iv::Iv;

/// Each row's key is the originator, or the originator and the neighbour, of an OGM in the log.
pub fn keys_come_from_ogms(_iv: &Iv)
    ensures { (me : Mac) (log : RouteLog) → StandsFor me _iv.now log → HasKeysOfOgms _iv.now log }
{}
