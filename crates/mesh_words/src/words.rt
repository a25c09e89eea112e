ghost use Rattle.std.specs.Prelude.{◌≡◌, ◌≢◌, [], Some, None, IfOk, IfErr};
ghost use Rattle.clap.specs.Words.{fault_of, found_of, matches_of, rows_of};
ghost use Rattle.mesh_model.specs.Run.CommandLine.{the_command, words_of};
ghost use Rattle.mesh_words.specs.Words.{HasNodes, call_of, texts};

use crate::call::Call;
use crate::command::command;
use crate::values::call_of_values;
use crate::words_err::WordsErr;
use clap::error::ErrorKind;
use clap::{ArgMatches, Error};
use std::alloc::Global;

/// What clap finds in words.
fn matches_of<'a>(alloc: Global, words: &'a [String]) -> Result<ArgMatches<'a>, WordsErr>
    ensures fault { IfOk result (λ matches. fault_of the_command (texts words.now) ≡ []) }
    ensures rows { IfOk result (λ matches. rows_of (found_of matches)
        ≡ matches_of the_command (texts words.now)) }
    ensures usage { IfErr result (λ error. error ≡ WordsErr.Usage →
        fault_of the_command (texts words.now) ≢ []) }
{
    let Ok(command) = command(alloc) else {
        return Err(WordsErr::Memory);
    };
    match command.try_get_matches_from(words) {
        Ok(matches) => Ok(matches),
        Err(error) if error.kind() == ErrorKind::OutOfMemory => Err(WordsErr::Memory),
        Err(_) => Err(WordsErr::Usage),
    }
}

/// What the words after the program's name ask for. `Usage` only where they aren't taken; where
/// they aren't, it is `Usage` or `Memory`.
pub fn read_words<'a>(alloc: Global, words: &'a [String]) -> Result<Call<'a>, WordsErr>
    ensures taken { IfOk result (λ call. words_of (texts words.now) ≡ Some (call_of call)) }
    ensures usage { IfErr result (λ error. error ≡ WordsErr.Usage →
        words_of (texts words.now) ≡ None) }
    ensures nodes { IfOk result (λ call. HasNodes call.source) }
{
    let matches = match matches_of(alloc, words) {
        Ok(matches) => matches,
        Err(error) => return Err(error),
    };
    match call_of_values(&matches) {
        Some(call) => Ok(call),
        None => Err(WordsErr::Usage),
    }
}
