//! The form of a command line, for `clap`, and the values that it finds.
ghost use Rattle.std.specs.Prelude.{◌≡◌, option_map, IfOk, false};
ghost use Rattle.clap.specs.Words.{app_of, rule_of, first_of, found_of, rows_of};
ghost use Rattle.command_words.specs.CommandLine.{command_line, option_rule};

use clap::{Arg, ArgMatches, Command};
use std::alloc::{AllocError, Global};

/// The option `--name`, which takes a value.
fn option<'a>(alloc: Global, name: &'a str) -> Arg<'a>
    ensures rule { rule_of result ≡ option_rule name.now }
    ensures local { result.global ≡ false }
{
    Arg::new(alloc, name).long(name)
}

/// The command line of `hamon`: a command's word and at most two more, and the options.
pub(crate) fn command_line<'a>(alloc: Global) -> Result<Command<'a>, AllocError>
    ensures { IfOk result (λ c. app_of c ≡ command_line) }
{
    Command::new(alloc, "hamon")
        .no_binary_name(true)
        .disable_help_flag(true)
        .disable_version_flag(true)
        .arg(Arg::new(alloc, "command").required(true))?
        .arg(Arg::new(alloc, "first"))?
        .arg(Arg::new(alloc, "second"))?
        .arg(option(alloc, "jumps"))?
        .arg(option(alloc, "workers"))?
        .arg(option(alloc, "window"))?
        .arg(option(alloc, "memo"))?
        .arg(option(alloc, "runs"))
}

/// The value of an option, or of a word by its place, if it is given.
pub(crate) fn value_of<'a>(matches: &ArgMatches<'a>, name: &str) -> Option<&'a str>
    ensures { option_map (λ v. v.now) result ≡ first_of name.now (rows_of (found_of matches.now)) }
{
    matches.get_str(name)
}
