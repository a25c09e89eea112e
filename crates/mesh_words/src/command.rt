ghost use Rattle.std.specs.Prelude.{◌≡◌, false, IfOk, IfErr};
ghost use Rattle.clap.specs.Words.{app_of, kind_of, rule_of};
ghost use Rattle.mesh_model.specs.Run.CommandLine.{bisect_rule, file_rule, frames_rule, generate_rule, the_command};

use crate::call::{LEAST_NODES, MOST_NODES};
use clap::error::ErrorKind;
use clap::{Arg, ArgAction, Command, Error};
use std::alloc::Global;

/// `--frames W`
fn frames_arg<'a>(alloc: Global) -> Arg<'a>
    ensures rule { rule_of result ≡ frames_rule }
    ensures local { result.global ≡ false }
{
    Arg::new(alloc, "frames")
        .long("frames")
        .action(ArgAction::Set)
}

/// `--generate N`
fn generate_arg<'a>(alloc: Global) -> Arg<'a>
    ensures rule { rule_of result ≡ generate_rule }
    ensures local { result.global ≡ false }
{
    let nodes = clap::value_parser!(u8).range(i64::from(LEAST_NODES)..=i64::from(MOST_NODES));
    Arg::new(alloc, "generate")
        .long("generate")
        .action(ArgAction::Set)
        .value_parser(nodes)
}

/// `--bisect`
fn bisect_arg<'a>(alloc: Global) -> Arg<'a>
    ensures rule { rule_of result ≡ bisect_rule }
    ensures local { result.global ≡ false }
{
    Arg::new(alloc, "bisect")
        .long("bisect")
        .action(ArgAction::SetTrue)
}

/// FILE
fn file_arg<'a>(alloc: Global) -> Arg<'a>
    ensures rule { rule_of result ≡ file_rule }
    ensures local { result.global ≡ false }
{
    Arg::new(alloc, "file").action(ArgAction::Set)
}

/// The command, with its four arguments.
pub fn command<'a>(alloc: Global) -> Result<Command<'a>, Error>
    ensures ok { IfOk result (λ command. app_of command ≡ the_command) }
    ensures memory { IfErr result (λ error. kind_of error ≡ ErrorKind.OutOfMemory) }
{
    let command = Command::new(alloc, "batmesh")
        .no_binary_name(true)
        .arg(frames_arg(alloc))?
        .arg(generate_arg(alloc))?
        .arg(bisect_arg(alloc))?
        .arg(file_arg(alloc))?;
    Ok(command)
}
