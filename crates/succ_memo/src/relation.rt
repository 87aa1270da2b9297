//! A relation of keys and values, and an entry of it.
ghost use Rattle.std.specs.Prelude.{◌≡◌, IfOk};

use std::alloc::{AllocError, Global};
use std::hash::Hash;
use std::marker::Model;

/// Which values are right for a key.
pub trait Relation {
    /// What a value is asked for. Equal keys have one entry in a memo.
    type Key: Eq + Hash + Drop;

    /// What may be right for a key.
    type Val: Drop;

    // The value is right for the key.
    ghost holds: { Self.Key → Self.Val → Type 0 };

    /// The same key once more.
    ///
    /// # Errors
    ///
    /// Want of memory.
    fn copy_key(alloc: Global, key: &Self::Key) -> Result<Self::Key, AllocError>
        ensures { IfOk result (λ copy. copy ≡ key.now) };
}

/// An entry: a key and a value that is right for it.
///
/// A contract sees the pair. Only a `Filler` makes one.
#[derive(Drop)]
pub struct Held<R: Relation> {
    key: R::Key,
    val: R::Val,
}

impl<R: Relation> Model for Held<R> {
    ghost Value = { R.Key × R.Val };

    ghost view = { λ h. (h.key, h.val) };

    ghost invariant = { λ h. R.holds h.key h.val };
}

impl<R: Relation> Held<R> {
    pub(crate) fn new(key: R::Key, val: R::Val) -> Held<R>
        requires { R.holds key val }
        ensures { result ≡ (key, val) }
    {
        Held { key, val }
    }

    /// The key. It takes no memory.
    pub fn key(&self) -> &R::Key
        ensures value { result.now ≡ self.now.0 }
        ensures holds { R.holds self.now.0 self.now.1 }
    {
        &self.key
    }

    /// The value, which is right for the key. It takes no memory.
    pub fn val(&self) -> &R::Val
        ensures value { result.now ≡ self.now.1 }
        ensures holds { R.holds self.now.0 self.now.1 }
    {
        &self.val
    }
}
