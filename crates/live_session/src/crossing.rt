//! That threads may hand sessions on, and share them.

use crate::Session;

/// Takes a type whose values threads may hand on and share.
fn crosses<T: Send + Sync>() {}

/// Sessions are such a type.
fn session_crosses() {
    crosses::<Session>();
}
