//! Routes that were told: of each node the next nodes that the last lines told, and the lines that
//! are due.

#![tactic(auto)]

mod node_routes;
mod told_routes;

pub use told_routes::ToldRoutes;
