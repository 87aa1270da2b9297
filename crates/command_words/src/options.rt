//! The options of a command line.
ghost use Rattle.std.specs.Prelude.{◌≡◌, option_map, IfSome};
ghost use Rattle.clap.specs.Words.{found_of, rows_of};
ghost use Rattle.command_words.specs.CommandLine.{runs_of, options_of, KeepsRanges};

use crate::numbers::number_or;
use crate::parser::value_of;
use clap::ArgMatches;
use log_specs::RunsMode;

/// The options of a command line, with their defaults where they were not given.
#[derive(Clone, Copy, Debug, PartialEq, Eq)]
pub struct Options {
    /// The most jumps in a gap: 0 to 6.
    pub jumps: u8,
    /// The threads that work side by side: 1 to 32.
    pub workers: u8,
    /// The most rows that are read before their replies are written: 1 to 1024.
    pub window: u16,
    /// The most entries that the memo keeps: 1 to 100000.
    pub memo: u32,
    /// At which alarms a run is printed.
    pub runs: RunsMode,
}

/// At which alarms a run is printed, by the value of `--runs`.
fn runs_of(word: Option<&str>) -> Option<RunsMode>
    ensures { result ≡ runs_of (option_map (λ w. w.now) word.entry) }
{
    match word {
        None => Some(RunsMode::First),
        Some("none") => Some(RunsMode::None),
        Some("first") => Some(RunsMode::First),
        Some("all") => Some(RunsMode::All),
        Some(_) => None,
    }
}

/// The options of words that have the form; `None` where a value is out of its range.
pub(crate) fn options_of(matches: &ArgMatches<'_>) -> Option<Options>
    ensures value { result ≡ options_of (rows_of (found_of matches.now)) }
    ensures ranges { IfSome result KeepsRanges }
{
    let jumps = number_or(value_of(matches, "jumps"), 0, 6, 2)?;
    let workers = number_or(value_of(matches, "workers"), 1, 32, 4)?;
    let window = number_or(value_of(matches, "window"), 1, 1024, 64)?;
    let memo = number_or(value_of(matches, "memo"), 1, 100000, 10000)?;
    let runs = runs_of(value_of(matches, "runs"))?;
    Some(Options {
        jumps: jumps as u8,
        workers: workers as u8,
        window: window as u16,
        memo,
        runs,
    })
}
