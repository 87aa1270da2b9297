//! What a line says.

use lang_trees::{BoundTree, BoxTree, RowTree, TransTree};
use lha_model::Name;

/// What a line says.
#[derive(Debug, PartialEq, Eq, Drop)]
pub enum Line {
    /// `lha 1`, or `lha 2` where it is the second version.
    Version(bool),
    Automaton(Name),
    Vars(Vec<Name>),
    Obs(Vec<BoundTree>),
    Loc { name: Name, unsafe_loc: bool },
    Init(Vec<RowTree>),
    Inv(Vec<RowTree>),
    Flow(Vec<BoxTree>),
    Also(Vec<RowTree>),
    Trans(TransTree),
    End,
}
