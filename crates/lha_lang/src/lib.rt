//! The trees of models: read from a text, and written as their canonical text.
#![tactic(auto)]

pub use lang_print::print_models;
pub use lang_texts::{LangFault, read_models};
pub use lang_trees::{
    ActParts, ActTree, BoundTree, BoundsTree, BoxTree, BoxesTree, Expr, LocTree, RowTree, RowsTree,
    Sign, Term, TransTree, Tree, Which,
};
