//! Routing algorithms: what each promises its node, and what they share. That is the window of
//! sequence numbers, the row of an originator's life, and the walk to the best neighbour over a
//! keyed table of paths.

#![tactic(auto)]

pub mod algo;
pub mod best;
pub mod far;
pub mod hearing;
pub mod laws;
pub mod life;
pub mod pair;
pub mod seq_window;
pub mod table;

pub use algo::Algo;
pub use best::Best;
pub use life::Life;
pub use mesh_model::{Beats, Head, Hearing, LinkRow, Meeting, OrigRow};
pub use pair::Pair;
pub use seq_window::SeqWindow;
