//! The names of open sessions, as keys.

ghost use Rattle.std.specs.Prelude.{◌≡◌, ◌≤◌, length};

use smallvec::SmallVec;
use std::alloc::Global;
use std::marker::Model;

/// The name of a session, of at most 32 bytes. It lies in the value itself, and takes no memory.
#[derive(PartialEq, Eq, Hash, Drop)]
pub(crate) struct SessionName {
    bytes: SmallVec<u8, 32>,
}

impl Model for SessionName {
    ghost use Rattle.std.specs.Prelude.{◌≡◌, ℕ, List};
    ghost use Rattle.std.proofs.Common.{sym};

    ghost Value = { List ℕ };

    ghost view = { λ n. n.bytes.items };

    ghost invariant = { λ n. n.bytes.capacity ≡ 32 };

    ghost inverse = { λ bytes. record { bytes = record { items = bytes; capacity = 32 } } };

    ghost inverse_ok = { λ n h i. record { bytes = record { items = n.bytes.items; capacity = sym h i } } };
}

impl SessionName {
    /// The name of these bytes.
    pub(crate) fn of(alloc: Global, bytes: &[u8]) -> SessionName
        requires { length bytes.now ≤ 32 }
        ensures { result ≡ bytes.now }
    {
        SessionName {
            bytes: SmallVec::from_slice(alloc, bytes).unwrap(),
        }
    }
}
