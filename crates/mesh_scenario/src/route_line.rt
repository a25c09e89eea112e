//! The lines of routes.

ghost use Rattle.std.specs.Prelude.{◌≡◌};
ghost use Rattle.mesh_model.specs.Loops.RouteLines.{moment_of, next_named, reading_of_words, route_of_line, route_of_words};

use crate::terms;
use crate::words::Words;
use mesh_base::{Mac, Millis};
use mesh_model::{RouteLine, RouteReading};

/// The greatest moment of a line.
const TIME_LIMIT: u64 = 1_099_511_627_776;

/// The moment that a word spells.
fn moment(word: &[u8]) -> Option<Millis>
    ensures { result ≡ moment_of word.now }
{
    terms::number_within(0, TIME_LIMIT, word)
}

/// The next node that a word names, which may be none.
fn next_named(word: &[u8]) -> Option<Option<Mac>>
    ensures { result ≡ next_named word.now }
{
    if word == b"-".as_slice() {
        return Some(None);
    }
    let next = Mac::read(word)?;
    Some(Some(next))
}

/// The route of the words behind `route`.
fn read_words(words: &mut Words<'_>) -> Option<RouteLine>
    ensures { result ≡ route_of_words words.old }
{
    let moment = moment(words.next()?.word)?;
    let node = Mac::read(words.next()?.word)?;
    let orig = Mac::read(words.next()?.word)?;
    let next = next_named(words.next()?.word)?;
    if words.next().is_some() {
        return None;
    }
    Some(RouteLine {
        moment,
        node,
        orig,
        next,
    })
}

/// What the words of a line say.
fn reading(words: &mut Words<'_>) -> RouteReading
    ensures { result ≡ reading_of_words words.old }
{
    let Some(first) = words.next() else {
        return RouteReading::Other;
    };
    if first.word != b"route".as_slice() {
        return RouteReading::Other;
    }
    match read_words(words) {
        Some(line) => RouteReading::Route(line),
        None => RouteReading::Bad,
    }
}

/// Reads what a line of routes says: the bytes before its newline, less a carriage return that
/// stood there.
pub fn read_route(line: &[u8]) -> RouteReading
    ensures { result ≡ route_of_line line.now }
{
    reading(&mut Words::of(line))
}
