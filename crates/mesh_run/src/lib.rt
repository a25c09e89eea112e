//! The run of a scenario: from the bytes that come in to the text that goes out.

#![tactic(auto)]

mod carrier;
mod fault;
mod generated;
mod input;
mod kept_text;
mod line;
mod output;
mod pieces;
mod program;
mod report;
mod routes;
mod runner;
mod time;

pub use program::{
    FINISHED, LIMITED, OUT_OF_MEMORY, READ_FAULT, REFUSED, USAGE, WRITE_FAULT, batmesh,
};
