//! The values that every layer of batmesh speaks of, and its doors to the outside.
//!
//! `Mac`, `Vid`, `Key` and `Entry` name clients and nodes; `Bytes` holds bytes of its own, and
//! `Items` values of any one type; `Event` is what happens in a run and is printed, `Events` a list
//! of them, and `Names` has the names that are printed; `Intake` and `Sink` are what the program
//! reads from and writes to, in memory or for real.

#![tactic(auto)]

pub mod address;
pub mod byte_list;
mod call_plan;
pub mod client;
pub mod event;
pub mod failure;
mod fault_count;
pub mod items;
pub mod memory_intake;
pub mod memory_sink;
pub mod names;
pub mod outside;
pub mod real;
pub mod steps;
pub mod transfer;

pub use address::Mac;
pub use byte_list::Bytes;
pub use client::{Entry, Key, Millis, Vid};
pub use event::{
    ArpResult, Event, Events, FactResult, LossReason, PingResult, Reason, TraceResult,
};
pub use failure::{Failed, NoMemory, OpenErr};
pub use items::Items;
pub use memory_intake::MemIntake;
pub use memory_sink::MemSink;
pub use names::{Names, NodeName};
pub use outside::{Intake, PIECE_LIMIT, Sink};
pub use real::{RealIntake, RealSink};
pub use steps::Steps;
pub use transfer::write_all;
