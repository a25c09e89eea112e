ghost use Rattle.std.specs.Prelude.{◌≡◌, ◌≤◌, IfSome, option_map};
ghost use Rattle.clap.specs.Words.{found_of, rows_of};
ghost use Rattle.mesh_model.specs.declared.input_kind.InputKind.TheVariants.{Scenario};
ghost use Rattle.mesh_model.specs.Run.CommandLine.{call_of_values, choice_given, choice_of_word, is_set, least_nodes, loop_call, most_nodes, nodes_of_word, scenario_call, source_given};
ghost use Rattle.mesh_words.specs.Words.{HasNodes, call_of, source_of};

use crate::call::{Call, LEAST_NODES, MOST_NODES, Source};
use clap::ArgMatches;
use mesh_model::{FrameChoice, InputKind};

/// The choice of frames of a word.
#[tactic(auto, unfolding(mesh_model::specs::Run::CommandLine::choice_of_word))]
fn choice_of_word(word: &[u8]) -> Option<FrameChoice>
    ensures { result ≡ choice_of_word word.now }
{
    if word == b"none".as_slice() {
        return Some(FrameChoice::Hidden);
    }
    if word == b"all".as_slice() {
        return Some(FrameChoice::All);
    }
    if word == b"client".as_slice() {
        return Some(FrameChoice::Client);
    }
    if word == b"ogm".as_slice() {
        return Some(FrameChoice::Ogm);
    }
    if word == b"route".as_slice() {
        return Some(FrameChoice::Route);
    }
    None
}

/// The number of nodes that a word names.
fn nodes_of_word(word: &str) -> Option<u8>
    ensures named { result ≡ nodes_of_word word.now }
    ensures nodes { IfSome result (λ nodes. (least_nodes ≤ nodes) × (nodes ≤ most_nodes)) }
{
    let Ok(nodes) = word.parse::<u8>() else {
        return None;
    };
    if nodes < LEAST_NODES {
        return None;
    }
    if nodes > MOST_NODES {
        return None;
    }
    Some(nodes)
}

/// The choice of frames, where it is given by this word, if any.
fn choice_given(word: Option<&str>) -> Option<FrameChoice>
    ensures { result ≡ choice_given (option_map (λ text. text.now) word.entry) }
{
    match word {
        Some(word) => choice_of_word(word.as_bytes()),
        None => Some(FrameChoice::Hidden),
    }
}

/// From where the lines come, where the number of nodes and the file are given by these words, if
/// any.
fn source_given<'a>(nodes: Option<&'a str>, file: Option<&'a str>) -> Option<Source<'a>>
    ensures source { option_map source_of result
        ≡ source_given (option_map (λ text. text.now) nodes.entry)
        (option_map (λ text. text.now) file.entry) }
    ensures nodes { IfSome result HasNodes }
{
    match (nodes, file) {
        (None, None) => Some(Source::Input),
        (None, Some(name)) => Some(Source::File(name)),
        (Some(word), None) => match nodes_of_word(word) {
            Some(nodes) => Some(Source::Generated(nodes)),
            None => None,
        },
        (Some(_), Some(_)) => None,
    }
}

/// Whether the value of `--bisect` says that it is there.
fn is_set(value: Option<&str>) -> bool
    ensures { result ≡ is_set (option_map (λ text. text.now) value.entry) }
{
    match value {
        Some(value) => value.as_bytes() == b"true".as_slice(),
        None => false,
    }
}

/// The call for lines of routes, where these are the words of the other arguments, if any.
fn loop_call<'a>(
    frames: Option<&'a str>,
    nodes: Option<&'a str>,
    file: Option<&'a str>,
) -> Option<Call<'a>>
    ensures call { option_map call_of result
        ≡ loop_call (option_map (λ text. text.now) frames.entry)
        (option_map (λ text. text.now) nodes.entry) (option_map (λ text. text.now) file.entry) }
    ensures nodes { IfSome result (λ call. HasNodes call.source) }
{
    match (frames, nodes) {
        (None, None) => {
            let source = match file {
                Some(name) => Source::File(name),
                None => Source::Input,
            };
            Some(Call {
                kind: InputKind::Routes,
                source,
            })
        }
        (None, Some(_)) | (Some(_), _) => None,
    }
}

/// The call for lines of a scenario, where these are the words of the arguments, if any.
fn scenario_call<'a>(
    frames: Option<&'a str>,
    nodes: Option<&'a str>,
    file: Option<&'a str>,
) -> Option<Call<'a>>
    ensures call { option_map call_of result
        ≡ scenario_call (option_map (λ text. text.now) frames.entry)
        (option_map (λ text. text.now) nodes.entry) (option_map (λ text. text.now) file.entry) }
    ensures nodes { IfSome result (λ call. HasNodes call.source) }
{
    let Some(choice) = choice_given(frames) else {
        return None;
    };
    let Some(source) = source_given(nodes, file) else {
        return None;
    };
    Some(Call {
        kind: InputKind::Scenario(choice),
        source,
    })
}

/// The call of the values that clap found.
pub fn call_of_values<'a>(matches: &ArgMatches<'a>) -> Option<Call<'a>>
    ensures call { option_map call_of result ≡ call_of_values (rows_of (found_of matches.now)) }
    ensures nodes { IfSome result (λ call. HasNodes call.source) }
{
    let frames = matches.get_str("frames");
    let nodes = matches.get_str("generate");
    let file = matches.get_str("file");
    let bisect = matches.get_str("bisect");
    if is_set(bisect) {
        return loop_call(frames, nodes, file);
    }
    scenario_call(frames, nodes, file)
}
