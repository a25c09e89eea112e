//! The forms of lines to alfred, the fact store.

ghost use Rattle.std.specs.Prelude.{◌≡◌, Ok, IfOk, IfErr};
ghost use Rattle.mesh_model.specs.Scenario.AlfredForms.{read_mode, read_put, read_get, read_alfred_form, read_alfred};
ghost use Rattle.mesh_scenario.specs.LineErr.{Refuses};

use crate::line_err::LineErr;
use crate::words::Words;
use mesh_base::Bytes;
use mesh_model::Command;
use std::alloc::Global;

/// The least type of a fact.
const LEAST_TYPE: u64 = 64;
/// The greatest type or version of a fact.
const BYTE_LIMIT: u64 = 255;
/// The most bytes of a fact.
const FACT_LIMIT: usize = 1000;

/// `alfred NODE mode M`
fn read_mode(node: Bytes, words: &mut Words<'_>) -> Result<Command, LineErr>
    ensures ok { IfOk result (λ command. read_mode node words.old ≡ Ok command) }
    ensures refused { IfErr result (Refuses (read_mode node words.old)) }
{
    let mode = words.alfred_mode()?;
    words.end(Command::Alfred { node, mode })
}

/// `alfred NODE put TYPE VERSION TEXT`
fn read_put(alloc: Global, node: Bytes, words: &mut Words<'_>) -> Result<Command, LineErr>
    ensures ok { IfOk result (λ command. read_put node words.old ≡ Ok command) }
    ensures refused { IfErr result (Refuses (read_put node words.old)) }
{
    let type_no = words.number(LEAST_TYPE, BYTE_LIMIT)?;
    let version = words.number(0, BYTE_LIMIT)?;
    let text = words.text_up_to(alloc, FACT_LIMIT)?;
    Ok(Command::Put {
        node,
        type_no: type_no as u8,
        version: version as u8,
        text,
    })
}

/// `alfred NODE get TYPE`
fn read_get(node: Bytes, words: &mut Words<'_>) -> Result<Command, LineErr>
    ensures ok { IfOk result (λ command. read_get node words.old ≡ Ok command) }
    ensures refused { IfErr result (Refuses (read_get node words.old)) }
{
    let type_no = words.number(LEAST_TYPE, BYTE_LIMIT)?;
    words.end(Command::Get {
        node,
        type_no: type_no as u8,
    })
}

/// What alfred does at a node.
fn read_alfred_form(
    alloc: Global,
    node: Bytes,
    word: &[u8],
    words: &mut Words<'_>,
) -> Result<Command, LineErr>
    ensures ok { IfOk result (λ command.
        read_alfred_form node word.now words.old ≡ Ok command) }
    ensures refused { IfErr result (Refuses (read_alfred_form node word.now words.old)) }
{
    if word == b"mode".as_slice() {
        read_mode(node, words)
    } else if word == b"put".as_slice() {
        read_put(alloc, node, words)
    } else if word == b"get".as_slice() {
        read_get(node, words)
    } else {
        Err(LineErr::OutOfRange)
    }
}

/// `alfred NODE ..`
pub fn read_alfred(alloc: Global, words: &mut Words<'_>) -> Result<Command, LineErr>
    ensures ok { IfOk result (λ command. read_alfred words.old ≡ Ok command) }
    ensures refused { IfErr result (Refuses (read_alfred words.old)) }
{
    let node = words.name(alloc)?;
    let word = words.word()?;
    read_alfred_form(alloc, node, word, words)
}
