ghost use Rattle.std.specs.Prelude.{◌≡◌, Ok, IfOk, IfErr};
ghost use Rattle.std.specs.Str.{is_utf8};
ghost use Rattle.mesh_model.specs.Scenario.Commands.{command_of_line, command_of_words, is_comment, node_forms, read_form};
ghost use Rattle.mesh_model.specs.Scenario.Readings.{listed_form};
ghost use Rattle.mesh_model.specs.declared.ending.Refusal.TheVariants.{UnknownCommand};
ghost use Rattle.mesh_scenario.specs.LineErr.{Refuses};

use crate::line_err::LineErr;
use crate::words::Words;
use crate::{alfred_forms, client_forms, net_forms, setting_forms};
use mesh_model::Command;
use std::alloc::Global;

/// The most bytes before a line's newline, a carriage return counted.
const LINE_LIMIT: usize = 4096;

/// Whether a word begins a comment.
fn is_comment(word: &[u8]) -> bool
    ensures { result ≡ is_comment word.now }
{
    matches!(word, [b'#', ..])
}

/// Whether bytes are UTF-8 (RFC 3629).
fn is_utf8(bytes: &[u8]) -> bool
    ensures { result ≡ is_utf8 bytes.now }
{
    std::str::from_utf8(bytes).is_ok()
}

/// The form that a command word begins, of those that give a node, or a LAN, something.
fn read_node_form(alloc: Global, word: &[u8], words: &mut Words<'_>) -> Result<Command, LineErr>
    ensures ok { IfOk result (λ command.
        listed_form node_forms UnknownCommand word.now words.old ≡ Ok command) }
    ensures refused { IfErr result
        (Refuses (listed_form node_forms UnknownCommand word.now words.old)) }
{
    if word == b"frame".as_slice() {
        client_forms::read_frame(alloc, words)
    } else if word == b"gone".as_slice() {
        client_forms::read_gone(alloc, words)
    } else if word == b"join".as_slice() {
        client_forms::read_join(alloc, words)
    } else if word == b"leave".as_slice() {
        client_forms::read_leave(alloc, words)
    } else if word == b"arp".as_slice() {
        client_forms::read_arp(alloc, words)
    } else if word == b"dhcp".as_slice() {
        client_forms::read_dhcp(alloc, words)
    } else if word == b"set".as_slice() {
        setting_forms::read_set(alloc, words)
    } else if word == b"alfred".as_slice() {
        alfred_forms::read_alfred(alloc, words)
    } else {
        Err(LineErr::UnknownCommand)
    }
}

/// The form that a command word begins.
fn read_form(alloc: Global, word: &[u8], words: &mut Words<'_>) -> Result<Command, LineErr>
    ensures ok { IfOk result (λ command. read_form word.now words.old ≡ Ok command) }
    ensures refused { IfErr result (Refuses (read_form word.now words.old)) }
{
    if word == b"algo".as_slice() {
        net_forms::read_algo(alloc, words)
    } else if word == b"node".as_slice() {
        net_forms::read_node(alloc, words)
    } else if word == b"link".as_slice() {
        net_forms::read_link(alloc, words)
    } else if word == b"lan".as_slice() {
        net_forms::read_lan(alloc, words)
    } else if word == b"ping".as_slice() {
        net_forms::read_ping(alloc, words)
    } else if word == b"traceroute".as_slice() {
        net_forms::read_traceroute(alloc, words)
    } else if word == b"reboot".as_slice() {
        net_forms::read_reboot(alloc, words)
    } else if word == b"run".as_slice() {
        net_forms::read_run(alloc, words)
    } else if word == b"deliver".as_slice() {
        net_forms::read_deliver(alloc, words)
    } else if word == b"show".as_slice() {
        net_forms::read_show(alloc, words)
    } else if word == b"decode".as_slice() {
        net_forms::read_decode(alloc, words)
    } else {
        read_node_form(alloc, word, words)
    }
}

/// Reads a line's words. A line without words, and a comment, does nothing and takes no memory.
fn read_words(alloc: Global, words: &mut Words<'_>) -> Result<Command, LineErr>
    ensures ok { IfOk result (λ command. command_of_words words.old ≡ Ok command) }
    ensures refused { IfErr result (Refuses (command_of_words words.old)) }
{
    let Some(first) = words.next() else {
        return Ok(Command::Nothing);
    };
    if is_comment(first.word) {
        return Ok(Command::Nothing);
    }
    read_form(alloc, first.word, words)
}

/// Reads what a line says: the bytes before its newline, less a carriage return that stood there.
#[tactic(auto, unfolding(mesh_model::specs::Scenario::Commands::command_of_line))]
pub fn read_line(alloc: Global, line: &[u8]) -> Result<Command, LineErr>
    ensures ok { IfOk result (λ command. command_of_line line.now ≡ Ok command) }
    ensures refused { IfErr result (Refuses (command_of_line line.now)) }
{
    if line.len() > LINE_LIMIT {
        return Err(LineErr::TooLong);
    }
    if !is_utf8(line) {
        return Err(LineErr::BadUtf8);
    }
    read_words(alloc, &mut Words::of(line))
}
