//! The gateways of a `lan` line.

ghost use Rattle.std.specs.Prelude.{◌≡◌, IfOk, IfErr};
ghost use Rattle.mesh_scenario.specs.Inner.Taking.{GivesGateways, RefusesGateways};

use crate::line_err::LineErr;
use crate::terms::is_name;
use crate::words::Words;
use mesh_base::Bytes;
use mesh_model::NameList;
use std::alloc::Global;

/// The most gateways of a LAN.
const GATEWAY_LIMIT: usize = 16;

impl<'a> Words<'a> {
    /// Takes the other words as names of gateways, 1 to 16.
    pub fn gateways(&mut self, alloc: Global) -> Result<NameList, LineErr>
        ensures ok { IfOk result (GivesGateways self.old) }
        ensures refused { IfErr result (RefusesGateways self.old) }
    {
        let mut names = NameList::new(alloc);
        while let Some(found) = self.next() {
            if names.len() == GATEWAY_LIMIT {
                return Err(LineErr::ExtraWord);
            }
            if !is_name(found.word) {
                return Err(LineErr::BadName);
            }
            names.push(Bytes::from_slice(alloc, found.word)?)?;
        }
        if names.len() == 0 {
            return Err(LineErr::MissingWord);
        }
        Ok(names)
    }
}
