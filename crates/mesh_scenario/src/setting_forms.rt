//! The forms of lines that set how a node behaves.

ghost use Rattle.std.specs.Prelude.{◌≡◌, Ok, IfOk, IfErr};
ghost use Rattle.mesh_model.specs.Scenario.SettingForms.{read_wifi, read_server, read_late, read_policy, read_gateway, read_mcast, read_dat, read_frag, read_vis, read_setting, read_set};
ghost use Rattle.mesh_scenario.specs.LineErr.{Refuses};

use crate::line_err::LineErr;
use crate::words::Words;
use mesh_base::Bytes;
use mesh_model::{Command, Policy};
use std::alloc::Global;

/// The greatest throughput of a gateway, in units of 100 kbit/s.
const GATEWAY_THROUGHPUT_LIMIT: u64 = 4_294_967_295;
/// The greatest lead by which a later gateway is better.
const LEAD_LIMIT: u64 = 255;
/// The greatest multicast flags.
const MCAST_LIMIT: u64 = 7;

/// `set NODE wifi on`, or `off`
fn read_wifi(node: Bytes, words: &mut Words<'_>) -> Result<Command, LineErr>
    ensures ok { IfOk result (λ command. read_wifi node words.old ≡ Ok command) }
    ensures refused { IfErr result (Refuses (read_wifi node words.old)) }
{
    let on = words.switch()?;
    words.end(Command::Wifi { node, on })
}

/// `set NODE gw server DOWN UP`
fn read_server(node: Bytes, words: &mut Words<'_>) -> Result<Command, LineErr>
    ensures ok { IfOk result (λ command. read_server node words.old ≡ Ok command) }
    ensures refused { IfErr result (Refuses (read_server node words.old)) }
{
    let down = words.number(0, GATEWAY_THROUGHPUT_LIMIT)?;
    let up = words.number(0, GATEWAY_THROUGHPUT_LIMIT)?;
    words.end(Command::GwServer {
        node,
        down: down as u32,
        up: up as u32,
    })
}

/// `set NODE gw client late K`
fn read_late(node: Bytes, words: &mut Words<'_>) -> Result<Command, LineErr>
    ensures ok { IfOk result (λ command. read_late node words.old ≡ Ok command) }
    ensures refused { IfErr result (Refuses (read_late node words.old)) }
{
    let lead = words.number(1, LEAD_LIMIT)?;
    words.end(Command::GwClient {
        node,
        policy: Policy::Late(lead as u32),
    })
}

/// `set NODE gw client best`, `stable`, or `late K`
fn read_policy(node: Bytes, word: &[u8], words: &mut Words<'_>) -> Result<Command, LineErr>
    ensures ok { IfOk result (λ command. read_policy node word.now words.old ≡ Ok command) }
    ensures refused { IfErr result (Refuses (read_policy node word.now words.old)) }
{
    if word == b"best".as_slice() {
        words.end(Command::GwClient {
            node,
            policy: Policy::Best,
        })
    } else if word == b"stable".as_slice() {
        words.end(Command::GwClient {
            node,
            policy: Policy::Stable,
        })
    } else if word == b"late".as_slice() {
        read_late(node, words)
    } else {
        Err(LineErr::OutOfRange)
    }
}

/// `set NODE gw off`, `server DOWN UP`, or `client` with a policy
fn read_gateway(node: Bytes, word: &[u8], words: &mut Words<'_>) -> Result<Command, LineErr>
    ensures ok { IfOk result (λ command. read_gateway node word.now words.old ≡ Ok command) }
    ensures refused { IfErr result (Refuses (read_gateway node word.now words.old)) }
{
    if word == b"off".as_slice() {
        words.end(Command::GwOff { node })
    } else if word == b"server".as_slice() {
        read_server(node, words)
    } else if word == b"client".as_slice() {
        let policy = words.word()?;
        read_policy(node, policy, words)
    } else {
        Err(LineErr::OutOfRange)
    }
}

/// `set NODE mcast N`
fn read_mcast(node: Bytes, words: &mut Words<'_>) -> Result<Command, LineErr>
    ensures ok { IfOk result (λ command. read_mcast node words.old ≡ Ok command) }
    ensures refused { IfErr result (Refuses (read_mcast node words.old)) }
{
    let flags = words.number(0, MCAST_LIMIT)?;
    words.end(Command::Mcast {
        node,
        flags: flags as u8,
    })
}

/// `set NODE dat on`, or `off`
fn read_dat(node: Bytes, words: &mut Words<'_>) -> Result<Command, LineErr>
    ensures ok { IfOk result (λ command. read_dat node words.old ≡ Ok command) }
    ensures refused { IfErr result (Refuses (read_dat node words.old)) }
{
    let on = words.switch()?;
    words.end(Command::Dat { node, on })
}

/// `set NODE frag N`
fn read_frag(node: Bytes, words: &mut Words<'_>) -> Result<Command, LineErr>
    ensures ok { IfOk result (λ command. read_frag node words.old ≡ Ok command) }
    ensures refused { IfErr result (Refuses (read_frag node words.old)) }
{
    let longest = words.longest_whole()?;
    words.end(Command::Frag { node, longest })
}

/// `set NODE vis on`, or `off`
fn read_vis(node: Bytes, words: &mut Words<'_>) -> Result<Command, LineErr>
    ensures ok { IfOk result (λ command. read_vis node words.old ≡ Ok command) }
    ensures refused { IfErr result (Refuses (read_vis node words.old)) }
{
    let on = words.switch()?;
    words.end(Command::Vis { node, on })
}

/// What is set at a node.
fn read_setting(node: Bytes, word: &[u8], words: &mut Words<'_>) -> Result<Command, LineErr>
    ensures ok { IfOk result (λ command. read_setting node word.now words.old ≡ Ok command) }
    ensures refused { IfErr result (Refuses (read_setting node word.now words.old)) }
{
    if word == b"wifi".as_slice() {
        read_wifi(node, words)
    } else if word == b"gw".as_slice() {
        let mode = words.word()?;
        read_gateway(node, mode, words)
    } else if word == b"mcast".as_slice() {
        read_mcast(node, words)
    } else if word == b"dat".as_slice() {
        read_dat(node, words)
    } else if word == b"frag".as_slice() {
        read_frag(node, words)
    } else if word == b"vis".as_slice() {
        read_vis(node, words)
    } else {
        Err(LineErr::OutOfRange)
    }
}

/// `set NODE ..`
pub fn read_set(alloc: Global, words: &mut Words<'_>) -> Result<Command, LineErr>
    ensures ok { IfOk result (λ command. read_set words.old ≡ Ok command) }
    ensures refused { IfErr result (Refuses (read_set words.old)) }
{
    let node = words.name(alloc)?;
    let setting = words.word()?;
    read_setting(node, setting, words)
}
