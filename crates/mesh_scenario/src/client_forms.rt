//! The forms of lines that tell of clients.

ghost use Rattle.std.specs.Prelude.{◌≡◌, Ok, IfOk, IfErr};
ghost use Rattle.mesh_model.specs.Scenario.ClientForms.{read_frame, read_gone, read_join, read_leave, read_arp, read_dhcp};
ghost use Rattle.mesh_scenario.specs.LineErr.{Refuses};

use crate::line_err::LineErr;
use crate::words::Words;
use mesh_base::Key;
use mesh_model::Command;
use std::alloc::Global;

/// `frame PLACE SRC DST VID TEXT`
pub fn read_frame(alloc: Global, words: &mut Words<'_>) -> Result<Command, LineErr>
    ensures ok { IfOk result (λ command. read_frame words.old ≡ Ok command) }
    ensures refused { IfErr result (Refuses (read_frame words.old)) }
{
    let place = words.name(alloc)?;
    let src = words.unicast()?;
    let dst = words.target()?;
    let vid = words.vid()?;
    let text = words.text(alloc)?;
    Ok(Command::Frame {
        place,
        src,
        dst,
        vid,
        text,
    })
}

/// `gone PLACE MAC VID`
pub fn read_gone(alloc: Global, words: &mut Words<'_>) -> Result<Command, LineErr>
    ensures ok { IfOk result (λ command. read_gone words.old ≡ Ok command) }
    ensures refused { IfErr result (Refuses (read_gone words.old)) }
{
    let place = words.name(alloc)?;
    let mac = words.unicast()?;
    let vid = words.vid()?;
    words.end(Command::Gone {
        place,
        key: Key { mac, vid },
    })
}

/// `join NODE GROUP VID`
pub fn read_join(alloc: Global, words: &mut Words<'_>) -> Result<Command, LineErr>
    ensures ok { IfOk result (λ command. read_join words.old ≡ Ok command) }
    ensures refused { IfErr result (Refuses (read_join words.old)) }
{
    let node = words.name(alloc)?;
    let mac = words.group()?;
    let vid = words.vid()?;
    words.end(Command::Join {
        node,
        key: Key { mac, vid },
    })
}

/// `leave NODE GROUP VID`
pub fn read_leave(alloc: Global, words: &mut Words<'_>) -> Result<Command, LineErr>
    ensures ok { IfOk result (λ command. read_leave words.old ≡ Ok command) }
    ensures refused { IfErr result (Refuses (read_leave words.old)) }
{
    let node = words.name(alloc)?;
    let mac = words.group()?;
    let vid = words.vid()?;
    words.end(Command::Leave {
        node,
        key: Key { mac, vid },
    })
}

/// `arp NODE MAC IP1 IP2 VID`
pub fn read_arp(alloc: Global, words: &mut Words<'_>) -> Result<Command, LineErr>
    ensures ok { IfOk result (λ command. read_arp words.old ≡ Ok command) }
    ensures refused { IfErr result (Refuses (read_arp words.old)) }
{
    let node = words.name(alloc)?;
    let mac = words.unicast()?;
    let own_ip = words.ip()?;
    let asked_ip = words.ip()?;
    let vid = words.vid()?;
    words.end(Command::Arp {
        node,
        mac,
        own_ip,
        asked_ip,
        vid,
    })
}

/// `dhcp NODE MAC VID TEXT`
pub fn read_dhcp(alloc: Global, words: &mut Words<'_>) -> Result<Command, LineErr>
    ensures ok { IfOk result (λ command. read_dhcp words.old ≡ Ok command) }
    ensures refused { IfErr result (Refuses (read_dhcp words.old)) }
{
    let node = words.name(alloc)?;
    let mac = words.unicast()?;
    let vid = words.vid()?;
    let text = words.text(alloc)?;
    Ok(Command::Dhcp {
        node,
        key: Key { mac, vid },
        text,
    })
}
