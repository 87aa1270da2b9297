//! What makes the value of a key.
ghost use Rattle.std.specs.Prelude.{◌≡◌, IfOk};
ghost use Rattle.std.specs.Arc.{arc_value};

use crate::relation::{Held, Relation};
use std::alloc::{AllocError, Global};
use std::marker::{Model, PhantomData};
use std::sync::Arc;

/// A call that makes the value of a key, each time one that is right for it.
///
/// It is a trait and no closure, since the fact about its answers is part of the type that has it.
pub trait Fill<R: Relation> {
    /// A value that is right for the key.
    ///
    /// # Errors
    ///
    /// Want of memory.
    fn answer(&self, alloc: Global, key: &R::Key) -> Result<R::Val, AllocError>
        ensures { IfOk result (λ val. R.holds key.now val) };
}

/// Makes entries by such a call. A contract sees the value that has it.
#[derive(Drop)]
pub struct Filler<R: Relation, F: Fill<R>> {
    run: F,
    relation: PhantomData<R>,
}

impl<R: Relation, F: Fill<R>> Model for Filler<R, F> {
    ghost Value = { F };

    ghost view = { λ f. f.run };
}

impl<R: Relation, F: Fill<R>> Filler<R, F> {
    /// Keeps the call. It takes no memory.
    pub fn new(run: F) -> Filler<R, F>
        ensures { result ≡ run }
    {
        Filler {
            run,
            relation: PhantomData,
        }
    }

    /// An entry for the key.
    ///
    /// # Errors
    ///
    /// Want of memory, of the call or for the entry. The key is dropped then.
    pub fn fill(&self, alloc: Global, key: R::Key) -> Result<Arc<Held<R>>, AllocError>
        ensures key { IfOk result (λ entry. (arc_value entry).0 ≡ key) }
        ensures holds { IfOk result (λ entry. R.holds (arc_value entry).0 (arc_value entry).1) }
    {
        let val = self.run.answer(alloc, &key)?;
        Ok(Arc::new(alloc, Held::new(key, val))?)
    }
}
