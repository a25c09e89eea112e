//! The fact store at a node: the facts that it keeps, one of each source and type, and the primary
//! that it speaks to.

#![tactic(auto)]

mod copies;
mod facts;
mod parts;
mod primaries;
mod transaction;
mod transactions;
mod txn;

pub use facts::Facts;
pub use mesh_model::{Fact, FactKey, FactList, KeptFact, Mark, PrimaryRow};
pub use primaries::primary_of;
pub use transactions::Transactions;
pub use txn::Txn;
