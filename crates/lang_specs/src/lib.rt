//! The definitions of the model language: tokens, trees, grammar, limits, the first fault and the canonical text.
#![tactic(auto)]

pub mod examples;
pub mod laws;
pub mod printing;

/// What a token is.
#[derive(Clone, Copy, Debug, PartialEq, Eq)]
pub enum Kind {
    /// A word that is no keyword.
    Name,
    /// A literal.
    Number,
    Lha,
    Automaton,
    Var,
    Loc,
    Unsafe,
    Init,
    Inv,
    Flow,
    In,
    Also,
    Trans,
    As,
    When,
    Set,
    Free,
    End,
    True,
    Obs,
    Within,
    /// `,`
    Comma,
    /// `[`
    Open,
    /// `]`
    Close,
    /// `<=`
    AtMost,
    /// `>=`
    AtLeast,
    /// `=`
    Equal,
    /// `<`
    Less,
    /// `>`
    Greater,
    /// `+`
    Plus,
    /// `-`
    Minus,
    /// `*`
    Times,
    /// `->`
    Arrow,
    /// The end of a line.
    EndLine,
    /// The end of the text.
    EndText,
    /// What nothing allows.
    Other,
}

/// What a text may have too many of. Of several limits that are passed at one token the first in this order is told.
#[derive(Clone, Copy, Debug, PartialEq, Eq)]
pub enum Which {
    /// Automata of a text: 16.
    Automata,
    /// Variables of an automaton, and bounds of its `obs`: 6.
    Variables,
    /// Locations of an automaton: 32.
    Locations,
    /// Transitions of an automaton: 128.
    Transitions,
    /// Rows of a list: 12, where an equation counts as two.
    Rows,
    /// Terms of an expression: 14.
    Terms,
    /// Bytes of a name: 32.
    NameBytes,
    /// Digits of a literal: nine in each number of `D` and `D/D`, nine in all of `D.D`.
    Digits,
}

/// How a constraint compares its two sides.
#[derive(Clone, Copy, Debug, PartialEq, Eq)]
pub enum Sign {
    /// `<=`
    AtMost,
    /// `>=`
    AtLeast,
    /// `=`
    Equal,
    /// `<`, in `lha 2` only
    Less,
    /// `>`, in `lha 2` only
    Greater,
}
