//! The words of `hamon`'s command line.
//!
//! | words | what they ask for |
//! |---|---|
//! | `hamon [options] check MODEL` | a log is checked against the model that MODEL names |
//! | `hamon [options] watch MODEL` | a log of many sessions is watched, by the automata of the model that MODEL names |
//! | `hamon [options] replay MODEL LOG` | a run is replayed on the log that LOG names, by the first automaton of the model that MODEL names |
//!
//! All take the same options. These stand anywhere before a word `--`, each at most once, as `--jumps 3` or `--jumps=3`; all
//! words after `--` are taken as they are.
//!
//! | option | values | default |
//! |---|---|---|
//! | `--jumps` | 0 to 6 | 2 |
//! | `--workers` | 1 to 32 | 4 |
//! | `--window` | 1 to 1024 | 64 |
//! | `--memo` | 1 to 100000 | 10000 |
//! | `--runs` | `none`, `first`, `all` | `first` |
//!
//! Numbers are digits without a sign and without a leading zero. Any other words are refused, among them other options, as
//! `--help` and `-h`, and words too many or too few. `-` alone is no option.
#![tactic(auto)]

mod fault;
pub mod laws;
mod numbers;
mod options;
mod parser;
mod request;

pub use fault::WordsFault;
pub use log_specs::RunsMode;
pub use options::Options;
pub use request::{Command, Request, read_words};
