//! The words of the call, read by clap: what the lines are, and from where they come. What words
//! ask for is settled by `words_of` of mesh_model.

#![tactic(auto)]

mod call;
mod command;
mod values;
mod words;
mod words_err;

pub use call::{Call, Source};
pub use words::read_words;
pub use words_err::WordsErr;
