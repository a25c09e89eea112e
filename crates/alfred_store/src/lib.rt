//! What a node keeps of the fact store: its facts, the primaries that announced themselves, the
//! transactions in which facts come, the requests that are open, and how many ids it took.

#![tactic(auto)]

mod answer;
mod primaries;
mod requests;
mod share;
mod store;

pub use answer::Answer;
pub use primaries::Primaries;
pub use requests::Requests;
pub use share::Share;
pub use store::Store;
