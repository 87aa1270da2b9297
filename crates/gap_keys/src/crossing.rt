//! That threads may hand keys and outcomes on, and share them.

use crate::{Key, Outcome};

/// Takes a type whose values threads may hand on and share.
fn crosses<T: Send + Sync>() {}

/// Keys are such a type.
fn key_crosses() {
    crosses::<Key>();
}

/// Outcomes are.
fn outcome_crosses() {
    crosses::<Outcome>();
}
