use super::ended::{Ended, ROOM, run_over};
use mesh_base::{MemIntake, MemSink};
use mesh_run::{FINISHED, READ_FAULT, WRITE_FAULT};
use std::alloc::Global;
use std::test::Fail;

/// Nodes in a chain, each with links to its neighbours.
const CHAIN: &str = "node A 02:00:00:00:00:0a\nnode B 02:00:00:00:00:0b\n\
    node C 02:00:00:00:00:0c\nnode D 02:00:00:00:00:0d\nnode E 02:00:00:00:00:0e\n\
    link A B\nlink B A\nlink B C\nlink C B\nlink C D\nlink D C\nlink D E\nlink E D\n";

/// The names of its nodes, with the digit of each one's address and that of its clients'.
const NODES: [(&str, &str, u8); 5] = [
    ("A", "a", 1),
    ("B", "b", 2),
    ("C", "c", 3),
    ("D", "d", 4),
    ("E", "e", 5),
];

/// What is asked once two minutes have passed.
const QUESTIONS: &str = "run 120000\nshow A tg\nping A E\ntraceroute A E\nrun 100\n";

/// What the probes along the chain print.
const ANSWERS: &str = "trace A E hop=1 B rtt=2\ntrace A E hop=2 C rtt=4\n\
    ping A E seq=1 reply ttl=47 rtt=8\ntrace A E hop=3 D rtt=6\ntrace A E hop=4 E rtt=8 end\n";

/// Room for all that the chain prints.
const CHAIN_ROOM: usize = 5000;

/// How many bytes a client's frame prints, which is lost.
const LOST_LENGTH: usize = 55;

/// How many bytes the table of the others' clients prints.
const TABLE_LENGTH: usize = 1_025;

/// How many bytes a read of the chain's lines gives at most.
const READ_PIECE: usize = 50;

/// How many bytes a write of what they print takes at most.
const WRITE_PIECE: usize = 7;

/// The calls of the intake: one opens, 44 give bytes, and one finds the end.
const READ_CALLS: u64 = 46;

/// The writes: 8 for each of 40 lost frames, 147 for the table, 20 for the answers.
const WRITES: u64 = 8 * 40 + 147 + 20;

/// The lines of the chain, with eight clients at each node.
fn chain_lines(alloc: Global) -> Result<String, Fail> {
    let mut lines = String::from_str(alloc, CHAIN)?;
    for (node, _letter, digit) in NODES {
        for client in 1..=8 {
            let line = format!(in alloc;
                "frame {node} 02:00:00:00:0{digit}:0{client} 02:00:00:00:09:09 - x\n"
            )?;
            lines.push_str(line.as_str())?;
        }
    }
    lines.push_str(QUESTIONS)?;
    Ok(lines)
}

/// What its lines print: each client's frame is lost, and in the end all clients are known.
fn chain_text(alloc: Global) -> Result<String, Fail> {
    let mut text = String::new(alloc);
    for (node, _letter, digit) in NODES {
        for client in 1..=8 {
            let line = format!(in alloc;
                "lost 0 {node} - 02:00:00:00:0{digit}:0{client} 02:00:00:00:09:09 unknown\n"
            )?;
            text.push_str(line.as_str())?;
        }
    }
    text.push_str("tg A count=4\n")?;
    for (_node, letter, digit) in &NODES[1..] {
        let line = format!(in alloc;
            "t 02:00:00:00:00:0{letter} held=1 told=1 state=ok entries=8\n"
        )?;
        text.push_str(line.as_str())?;
        for client in 1..=8 {
            let line = format!(in alloc; "e 02:00:00:00:0{digit}:0{client} - --\n")?;
            text.push_str(line.as_str())?;
        }
    }
    text.push_str(ANSWERS)?;
    Ok(text)
}

/// A run of the chain, read in pieces of 50 bytes and written in pieces of 7, whose intake fails at
/// this call and whose output at this write, where they come to it.
fn run_chain(alloc: Global, lines: &str, call: u64, write: u64) -> Result<Ended, Fail> {
    let intake = MemIntake::new(alloc, lines.as_bytes(), READ_PIECE, &[call])?;
    let out = MemSink::new(alloc, CHAIN_ROOM, WRITE_PIECE, &[write])?;
    let err = MemSink::new(alloc, ROOM, ROOM, &[])?;
    Ok(run_over(alloc, intake, out, err))
}

/// How many bytes a line of the chain prints: each client's frame is lost, and the probes are
/// answered in the last 100 milliseconds.
fn printed_by(line: &[u8]) -> usize {
    if line.starts_with(b"frame ") {
        LOST_LENGTH
    } else if line == b"show A tg".as_slice() {
        TABLE_LENGTH
    } else if line == b"run 100".as_slice() {
        ANSWERS.len()
    } else {
        0
    }
}

/// How many bytes the complete lines among these bytes print. What is behind the last newline is no
/// complete line.
fn printed_by_lines(bytes: &[u8]) -> usize {
    let mut printed = 0_usize;
    let mut last = 0;
    for line in bytes.split(|byte| *byte == b'\n') {
        printed = printed.saturating_add(last);
        last = printed_by(line);
    }
    printed
}

/// The first bytes, so many; all where there are fewer.
fn front_of(bytes: &[u8], length: usize) -> &[u8] {
    bytes.get(..length).unwrap_or(bytes)
}

/// Whether a run that fails at this call of the intake prints the complete lines of the bytes that
/// it was given, so many.
fn prints_complete_lines(
    alloc: Global,
    lines: &str,
    text: &str,
    call: u64,
    given: usize,
) -> Result<bool, Fail> {
    let ended = run_chain(alloc, lines, call, 0)?;
    let printed = printed_by_lines(front_of(lines.as_bytes(), given));
    let front = front_of(text.as_bytes(), printed);
    Ok(ended.status == READ_FAULT && ended.out.taken() == front)
}

/// Whether a run that fails at this write of the output leaves a front of what it prints, and one
/// fault.
fn leaves_a_front(alloc: Global, lines: &str, text: &str, write: u64) -> Result<bool, Fail> {
    let ended = run_chain(alloc, lines, 0, write)?;
    Ok(
        ended.status == WRITE_FAULT
            && ended.out.faults() == 1
            && text.as_bytes().starts_with(ended.out.taken()),
    )
}

/// The status of a run whose intake or output would fail at this call or write.
fn status_of(alloc: Global, lines: &str, call: u64, write: u64) -> Result<u8, Fail> {
    let ended = run_chain(alloc, lines, call, write)?;
    Ok(ended.status)
}

#[test]
fn a_chain_that_can_not_be_read_prints_its_complete_lines(rt: HostRuntime) -> Result<(), Fail> {
    let text = chain_text(rt.alloc())?;
    let lines = chain_lines(rt.alloc())?;
    let (lines, text) = (lines.as_str(), text.as_str());
    // Call 1 opens, each later one gives 50 bytes, and the last finds the end.
    let mut given = 0_usize;
    for call in 1..=READ_CALLS {
        assert!(rt;
            prints_complete_lines(rt.alloc(), lines, text, call, given)?,
            "at call {call}"
        );
        if call > 1 {
            given = given.saturating_add(READ_PIECE);
        }
    }
    assert_eq!(rt; status_of(rt.alloc(), lines, READ_CALLS + 1, 0)?, FINISHED);
    Ok(())
}

#[test]
fn a_chain_that_can_not_be_written_leaves_a_front(rt: HostRuntime) -> Result<(), Fail> {
    let text = chain_text(rt.alloc())?;
    let lines = chain_lines(rt.alloc())?;
    let (lines, text) = (lines.as_str(), text.as_str());
    // Only one write fails: what is written after it would not continue the front.
    for write in 1..=WRITES {
        assert!(rt;
            leaves_a_front(rt.alloc(), lines, text, write)?,
            "at write {write}"
        );
    }
    assert_eq!(rt; status_of(rt.alloc(), lines, 0, WRITES + 1)?, FINISHED);
    Ok(())
}
