//! The frames of a run, in chunks that never move a byte: a frame costs its bytes and a place of
//! twelve bytes, and is read where it lies, also while others are pushed behind it.

#![tactic(auto)]

mod chunk;
pub mod failure;
mod growing;
pub mod grown;
pub mod older;
pub mod place;
mod reading;
mod settling;
pub mod store;
pub mod tail;
mod writing;

pub use failure::StoreErr;
pub use grown::Grown;
pub use older::Older;
pub use store::FrameStore;
pub use tail::Tail;
