//! The routes of all nodes that were told.

ghost use Rattle.std.specs.Prelude.{◌≡◌, ◌++◌, List, [], map, OnOk};
ghost use Rattle.mesh_model.specs.declared.route_line.RouteLine.{RouteLine};
ghost use Rattle.mesh_model.specs.Net.Watching.{lines_due, route_event, told_with};
ghost use Rattle.mesh_told.specs.Told.{Grows, ToldStands};

use crate::node_routes::NodeRoutes;
use indexmap::IndexMap;
use mesh_base::{Events, Mac, Millis, NoMemory};
use mesh_model::OrigRow;
use std::alloc::Global;

/// The routes of all nodes that were told.
#[derive(Debug, Drop)]
pub struct ToldRoutes {
    alloc: Global,
    nodes: IndexMap<Mac, NodeRoutes>,
}

impl ToldRoutes {
    /// Nothing was told.
    pub fn new(alloc: Global) -> ToldRoutes
        ensures { ToldStands result [] }
    {
        ToldRoutes {
            alloc,
            nodes: IndexMap::new(alloc),
        }
    }

    /// Tells the lines that are due at a node whose live originators these are. Refused, it is of no
    /// further use.
    pub fn tell(
        &mut self,
        now: Millis,
        node: Mac,
        rows: &[OrigRow],
        log: &mut Events,
    ) -> Result<(), NoMemory>
        ensures ok { (told : List RouteLine) → ToldStands self.old told →
            OnOk result (ToldStands self.new (told_with told (lines_due now node rows.now told))) }
        ensures told { (told : List RouteLine) → ToldStands self.old told →
            OnOk result (log.new ≡ log.old ++ map route_event (lines_due now node rows.now told)) }
        ensures grew { Grows log.old log.new }
    {
        match self.nodes.get_mut(&node) {
            Some(routes) => {
                routes.tell(now, node, rows, log)?;
                Ok(())
            }
            None => {
                let mut routes = NodeRoutes::new(self.alloc);
                routes.tell(now, node, rows, log)?;
                self.nodes.insert(node, routes)?;
                Ok(())
            }
        }
    }
}
