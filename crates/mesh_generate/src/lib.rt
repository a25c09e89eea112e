//! The lines that `--generate N` carries out as though they were read, and the line of their
//! counts. Both are settled by mesh_model.

#![tactic(auto)]

mod drawing;
mod input;
mod lines;
mod summary;
mod terms;

pub use input::generated_input;
pub use summary::{Counts, received_lines, summary_line};
