//! The model language line by line: what a line says, which may follow which, what they build, and what is wrong with them.
#![tactic(auto)]

pub mod examples;
pub mod laws;
pub mod lines;
pub mod reading;
pub mod words;

/// Where a text stands between two lines: behind which statement.
#[derive(Clone, Copy, Debug, PartialEq, Eq)]
pub enum Place {
    /// Before the first line.
    Start,
    Lha,
    Automaton,
    Var,
    Obs,
    Loc,
    Init,
    Inv,
    Flow,
    Also,
    Trans,
    End,
}
