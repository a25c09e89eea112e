//! Texts that several tests print, and what a run leaves.

use mesh_base::{MemIntake, MemSink};
use mesh_run::batmesh;
use std::alloc::Global;
use std::test::Fail;

/// The table twice, the second time after line 6, which ends at byte 99; line 7 is refused.
pub const SHOWN_TWICE: &[u8] = b"node A 02:00:00:00:00:0a\n\
    frame A 02:00:00:00:01:01 ff:ff:ff:ff:ff:ff - hi\n\
    show A tl\n\
    # x\n\
    \n\
    show A tl\n\
    show X tl\n";

pub const TABLE: &[u8] = b"tl A version=0 clients=1\n\
    c 02:00:00:00:01:01 - -- age=0\n";

pub const TABLE_TWICE: &[u8] = b"tl A version=0 clients=1\n\
    c 02:00:00:00:01:01 - -- age=0\n\
    tl A version=0 clients=1\n\
    c 02:00:00:00:01:01 - -- age=0\n";

pub const UNKNOWN_AT_7: &[u8] = b"batmesh: line 7: unknown name\n";

/// Room for each text that a test prints.
pub const ROOM: usize = 1000;

/// What a run left.
#[derive(Drop)]
pub struct Ended {
    pub status: u8,
    pub out: MemSink,
    pub err: MemSink,
}

/// Words that the program owns.
pub fn owned(alloc: Global, words: &[&str]) -> Result<Vec<String>, Fail> {
    let mut owned = Vec::new(alloc);
    for word in words {
        owned.push(String::from_str(alloc, word)?)?;
    }
    Ok(owned)
}

/// A run without words, over an intake and outputs that the test made.
pub fn run_over(alloc: Global, mut intake: MemIntake, mut out: MemSink, mut err: MemSink) -> Ended {
    let status = batmesh(alloc, &[], &mut intake, &mut out, &mut err);
    Ended { status, out, err }
}

/// Whether such a run ends with this status, and leaves these texts in out and in err.
pub fn leaves(
    alloc: Global,
    intake: MemIntake,
    out: MemSink,
    err: MemSink,
    status: u8,
    printed: &[u8],
    told: &[u8],
) -> bool {
    let ended = run_over(alloc, intake, out, err);
    ended.status == status && ended.out.taken() == printed && ended.err.taken() == told
}
