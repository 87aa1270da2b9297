//! The trees of models: what a text says, statement by statement, with the lines where it says so.
#![tactic(auto)]

mod trees;

pub use trees::{
    ActParts, ActTree, BoundTree, BoundsTree, BoxTree, BoxesTree, Expr, LocTree, RowTree, RowsTree,
    Sign, Term, TransTree, Tree, Which,
};
