//! That threads may hand entries, memos and fillers on, and share them, where they may do so with
//! keys, values and calls.

use crate::filler::{Fill, Filler};
use crate::memo::MemoState;
use crate::relation::{Held, Relation};

/// Takes a type whose values threads may hand on and share.
fn crosses<T: Send + Sync>() {}

/// Entries are such a type.
fn held_crosses<R: Relation>()
where
    R::Key: Send + Sync,
    R::Val: Send + Sync,
{
    crosses::<Held<R>>();
}

/// Memos are.
fn memo_crosses<R: Relation>()
where
    R::Key: Send + Sync,
    R::Val: Send + Sync,
{
    crosses::<MemoState<R>>();
}

/// Fillers are.
fn filler_crosses<R: Relation + Send + Sync, F: Fill<R> + Send + Sync>() {
    crosses::<Filler<R, F>>();
}
