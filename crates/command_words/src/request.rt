//! What the words of a command line ask for.
ghost use Rattle.std.specs.Prelude.{◌≡◌, map, option_map, string_bytes, Some, None, IfOk, IfErr, IfSome, MatchResult};
ghost use Rattle.clap.specs.Words.{found_of, rows_of};
ghost use Rattle.command_words.specs.declared.fault.WordsFault.TheVariants.{Refused, Memory};
ghost use Rattle.command_words.specs.CommandLine.{command_by, command_named, command_with_log, command_of, request_in, request_of, KeepsRanges};
ghost use Rattle.command_words.specs.CommandLine as line;
ghost use Rattle.command_words.specs.Said.{said_command, said};

use crate::fault::WordsFault;
use crate::options::{Options, options_of};
use crate::parser::{command_line, value_of};
use clap::ArgMatches;
use std::alloc::Global;

/// A command of `hamon`.
#[derive(Clone, Copy, Debug, PartialEq, Eq)]
pub enum Command<'a> {
    /// A log is checked against the model of this name.
    Check { model: &'a str },
    /// A log of many sessions is watched, by the automata of the model of this name.
    Watch { model: &'a str },
    /// By the first automaton of the model of this name, a run is replayed on the log of this name.
    Replay { model: &'a str, log: &'a str },
}

/// What the words of a command line ask for.
#[derive(Clone, Copy, Debug, PartialEq, Eq)]
pub struct Request<'a> {
    pub command: Command<'a>,
    pub options: Options,
}

/// The command of this word with a model's name; `None` where the word is unknown.
fn command_named<'a>(command: &str, model: &'a str) -> Option<Command<'a>>
    ensures { option_map said_command result ≡ command_named command.now model.now }
{
    match command {
        "check" => Some(Command::Check { model }),
        "watch" => Some(Command::Watch { model }),
        _ => None,
    }
}

/// The command of this word with the names of a model and a log; `None` where the word is unknown.
fn command_with_log<'a>(command: &str, model: &'a str, log: &'a str) -> Option<Command<'a>>
    ensures { option_map said_command result ≡ command_with_log command.now model.now log.now }
{
    match command {
        "replay" => Some(Command::Replay { model, log }),
        _ => None,
    }
}

/// The command of these words; `None` where its word is unknown or wants more or fewer words.
fn command_by<'a>(
    command: Option<&'a str>,
    first: Option<&'a str>,
    second: Option<&'a str>,
) -> Option<Command<'a>>
    ensures { option_map said_command result ≡ command_by (option_map (λ w. w.now) command.entry)
        (option_map (λ w. w.now) first.entry) (option_map (λ w. w.now) second.entry) }
{
    match (command, first, second) {
        (Some(command), Some(model), None) => command_named(command, model),
        (Some(command), Some(model), Some(log)) => command_with_log(command, model, log),
        _ => None,
    }
}

/// The command of words that have the form.
fn command_of<'a>(matches: &ArgMatches<'a>) -> Option<Command<'a>>
    ensures { option_map said_command result ≡ command_of (rows_of (found_of matches.now)) }
{
    command_by(
        value_of(matches, "command"),
        value_of(matches, "first"),
        value_of(matches, "second"),
    )
}

/// What words that have the form ask for; `None` where they are refused.
fn request_in<'a>(matches: &ArgMatches<'a>) -> Option<Request<'a>>
    ensures value { option_map said result ≡ request_in (rows_of (found_of matches.now)) }
    ensures ranges { IfSome result (λ r. KeepsRanges r.options) }
{
    let command = command_of(matches)?;
    let options = options_of(matches)?;
    Some(Request { command, options })
}

/// What the words of a command line, without the program's name, ask for.
///
/// `check MODEL` checks a log against the model of this name, and `watch MODEL` watches a log of many sessions by the automata
/// of the model of this name. `replay MODEL LOG` replays a run on the log of the name LOG. All take the same options, which stand anywhere before a word `--`, each at most
/// once, as `--jumps 3` or `--jumps=3`: `--jumps` from 0 to 6 (else 2), `--workers` from 1 to 32 (else 4), `--window` from 1
/// to 1024 (else 64), `--memo` from 1 to 100000 (else 10000), and `--runs`, which is `none`, `first` or `all` (else `first`).
/// Numbers are digits without a sign and without a leading zero. After `--` each word is taken as it is; before it a word
/// that begins with `-` and is longer is an option.
///
/// # Errors
///
/// `Refused` where the words are others, and only there; `Memory` where there is none.
pub fn read_words<'a>(alloc: Global, words: &'a [String]) -> Result<Request<'a>, WordsFault>
    ensures request { IfOk result (λ r. request_of (map string_bytes words.now) ≡ Some (said r)) }
    ensures refusal { IfErr result (λ e. e ≡ Refused → request_of (map string_bytes words.now) ≡ None) }
    ensures found { (asked : line.Request) → request_of (map string_bytes words.now) ≡ Some asked
        → MatchResult result (λ r. said r ≡ asked) (λ e. e ≡ Memory) }
    ensures ranges { IfOk result (λ r. KeepsRanges r.options) }
{
    let matches = command_line(alloc)?.try_get_matches_from(words)?;
    request_in(&matches).ok_or(WordsFault::Refused)
}
