//! The forms of lines that make the net, let time pass, and print.

ghost use Rattle.std.specs.Prelude.{◌≡◌, Ok, IfOk, IfErr};
ghost use Rattle.mesh_model.specs.Scenario.NetForms.{read_algo, read_node, read_link, read_lan, read_ping, read_traceroute, read_reboot, read_run, read_deliver, read_show, read_decode};
ghost use Rattle.mesh_scenario.specs.LineErr.{Refuses};

use crate::line_err::LineErr;
use crate::words::Words;
use mesh_base::{Bytes, Millis};
use mesh_model::Command;
use std::alloc::Global;

/// The delay of a link, in milliseconds, where its line gives none.
const DEFAULT_DELAY: Millis = 1;
/// The pattern of a link where its line gives none: each frame is delivered once.
const DEFAULT_PATTERN: &[u8] = b".";
/// The throughput of a link, in units of 100 kbit/s, where its line gives none.
const DEFAULT_THROUGHPUT: u32 = 10;
/// The most milliseconds that one line lets pass.
const TIME_LIMIT: u64 = 1_099_511_627_776;

/// `algo iv`, `algo v`
pub fn read_algo(alloc: Global, words: &mut Words<'_>) -> Result<Command, LineErr>
    ensures ok { IfOk result (λ command. read_algo words.old ≡ Ok command) }
    ensures refused { IfErr result (Refuses (read_algo words.old)) }
{
    let algorithm = words.algorithm()?;
    words.end(Command::Algo(algorithm))
}

/// `node NAME MAC`
pub fn read_node(alloc: Global, words: &mut Words<'_>) -> Result<Command, LineErr>
    ensures ok { IfOk result (λ command. read_node words.old ≡ Ok command) }
    ensures refused { IfErr result (Refuses (read_node words.old)) }
{
    let name = words.name(alloc)?;
    let mac = words.unicast()?;
    words.end(Command::Node { name, mac })
}

/// `link A B`, with options
pub fn read_link(alloc: Global, words: &mut Words<'_>) -> Result<Command, LineErr>
    ensures ok { IfOk result (λ command. read_link words.old ≡ Ok command) }
    ensures refused { IfErr result (Refuses (read_link words.old)) }
{
    let from = words.name(alloc)?;
    let to = words.name(alloc)?;
    let options = words.options()?;
    let pattern = Bytes::from_slice(alloc, options.pattern.unwrap_or(DEFAULT_PATTERN))?;
    Ok(Command::Link {
        from,
        to,
        delay: options.delay.unwrap_or(DEFAULT_DELAY),
        pattern,
        throughput: options.throughput.unwrap_or(DEFAULT_THROUGHPUT),
    })
}

/// `lan NAME NODE..`, with 1 to 16 nodes
pub fn read_lan(alloc: Global, words: &mut Words<'_>) -> Result<Command, LineErr>
    ensures ok { IfOk result (λ command. read_lan words.old ≡ Ok command) }
    ensures refused { IfErr result (Refuses (read_lan words.old)) }
{
    let name = words.name(alloc)?;
    let gateways = words.gateways(alloc)?;
    Ok(Command::Lan { name, gateways })
}

/// `ping NODE NODE`
pub fn read_ping(alloc: Global, words: &mut Words<'_>) -> Result<Command, LineErr>
    ensures ok { IfOk result (λ command. read_ping words.old ≡ Ok command) }
    ensures refused { IfErr result (Refuses (read_ping words.old)) }
{
    let node = words.name(alloc)?;
    let target = words.name(alloc)?;
    words.end(Command::Ping { node, target })
}

/// `traceroute NODE NODE`
pub fn read_traceroute(alloc: Global, words: &mut Words<'_>) -> Result<Command, LineErr>
    ensures ok { IfOk result (λ command. read_traceroute words.old ≡ Ok command) }
    ensures refused { IfErr result (Refuses (read_traceroute words.old)) }
{
    let node = words.name(alloc)?;
    let target = words.name(alloc)?;
    words.end(Command::Trace { node, target })
}

/// `reboot NODE`
pub fn read_reboot(alloc: Global, words: &mut Words<'_>) -> Result<Command, LineErr>
    ensures ok { IfOk result (λ command. read_reboot words.old ≡ Ok command) }
    ensures refused { IfErr result (Refuses (read_reboot words.old)) }
{
    let node = words.name(alloc)?;
    words.end(Command::Reboot { node })
}

/// `run MS`
pub fn read_run(alloc: Global, words: &mut Words<'_>) -> Result<Command, LineErr>
    ensures ok { IfOk result (λ command. read_run words.old ≡ Ok command) }
    ensures refused { IfErr result (Refuses (read_run words.old)) }
{
    let time = words.number(1, TIME_LIMIT)?;
    words.end(Command::Run { time })
}

/// `deliver N`
pub fn read_deliver(alloc: Global, words: &mut Words<'_>) -> Result<Command, LineErr>
    ensures ok { IfOk result (λ command. read_deliver words.old ≡ Ok command) }
    ensures refused { IfErr result (Refuses (read_deliver words.old)) }
{
    let number = words.frame_number()?;
    words.end(Command::Deliver { number })
}

/// `show NODE T`
pub fn read_show(alloc: Global, words: &mut Words<'_>) -> Result<Command, LineErr>
    ensures ok { IfOk result (λ command. read_show words.old ≡ Ok command) }
    ensures refused { IfErr result (Refuses (read_show words.old)) }
{
    let node = words.name(alloc)?;
    let table = words.table()?;
    words.end(Command::Show { node, table })
}

/// `decode HEX`
pub fn read_decode(alloc: Global, words: &mut Words<'_>) -> Result<Command, LineErr>
    ensures ok { IfOk result (λ command. read_decode words.old ≡ Ok command) }
    ensures refused { IfErr result (Refuses (read_decode words.old)) }
{
    let bytes = words.hex(alloc)?;
    words.end(Command::Decode { bytes })
}
