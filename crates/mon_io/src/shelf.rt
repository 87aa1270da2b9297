// What whole texts are taken from, by name.
ghost use Rattle.std.specs.Prelude.{◌≡◌, ◌<◌, ◌≤◌, ℕ, List, Option, length, vec_len, IfOk, IfSome, IsErrOf};
ghost use Rattle.mon_io.specs.Faults.{Rose};

use std::alloc::Global;

/// Why there is no text.
#[derive(Clone, Copy, Debug, PartialEq, Eq)]
pub enum ShelfFault {
    Failed,
    /// It has more bytes than are asked for at most.
    Long,
    Memory,
}

pub trait Shelf {
    /// The text of each name, where it is told.
    ghost text: { Self → List ℕ → Option (List ℕ) };

    /// How often a look has failed. The count stays at `u64::MAX`.
    ghost faults: { Self → ℕ };

    /// The whole text of this name, if it has no more than `most` bytes.
    fn text(&mut self, alloc: Global, name: &str, most: usize) -> Result<Vec<u8>, ShelfFault>
        ensures told { IfOk result (λ v. IfSome (text self.old name.now) (λ t. v.items ≡ t)) }
        ensures most { IfOk result (λ v. vec_len v ≤ most) }
        ensures long { IsErrOf result ShelfFault.Long → IfSome (text self.old name.now) (λ t. most < length t) }
        ensures same { (other : List ℕ) → text self.new other ≡ text self.old other }
        ensures later { faults self.old ≤ faults self.new }
        ensures cause { IsErrOf result ShelfFault.Failed → Rose (faults self.old) (faults self.new) };
}
