//! The program: carries out the scenario on standard input and prints on standard output. Its
//! status is that of `mesh_run::batmesh`.

#![tactic(auto)]

use mesh_base::{RealIntake, RealSink};
use mesh_run::{OUT_OF_MEMORY, batmesh};
use std::env;
use std::io::{self, ErrorKind};
use std::process::ExitCode;

/// A word in the form of an option that no version has: it is never taken.
const UNREADABLE: &str = "--not-utf-8";

/// The words after the program's name, or, where they aren't UTF-8, a word that is never taken.
fn words(rt: &HostRuntime) -> io::Result<Vec<String>> {
    let words = match env::args(rt) {
        Ok(words) => words.skip(1).collect(rt.alloc())?,
        Err(error) if error.kind() == ErrorKind::OutOfMemory => return Err(error),
        Err(_unreadable) => {
            let word = String::from_str(rt.alloc(), UNREADABLE)?;
            vec![in rt.alloc(); word]?
        }
    };
    Ok(words)
}

fn main(rt: HostRuntime) -> ExitCode {
    let mut intake = RealIntake::new(&rt);
    let mut out = RealSink::new(rt.stdout());
    let mut err = RealSink::new(rt.stderr());
    let status = match words(&rt) {
        Ok(words) => batmesh(
            rt.alloc(),
            words.as_slice(),
            &mut intake,
            &mut out,
            &mut err,
        ),
        Err(_out_of_memory) => OUT_OF_MEMORY,
    };
    ExitCode::from(status)
}
