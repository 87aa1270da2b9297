// A shelf in memory.
ghost use Rattle.std.specs.Prelude.{◌≡◌, ◌⊎◌, ◌↔◌, ◌<◌, ◌≤◌, ℕ, List, Some, map, length, vec_len, IfOk, IfSome, IsNone, IsSomeAnd, IsErrOf, Err};
ghost use Rattle.std.specs.Option.{option_map};
ghost use Rattle.mon_io.specs.Faults.{Rose};
ghost use Rattle.mon_io.specs.Memory.{Kept, IsToFail, unused, after_call, after_fault, text_named, entry_of};

use crate::calls::Calls;
use crate::{Shelf, ShelfFault};
use std::alloc::Global;
use std::marker::Model;

/// A shelf of texts in memory, which fails at the calls of given numbers, from 1, and at a name that it has not.
#[derive(Drop)]
pub struct MemShelf {
    texts: Vec<(String, Vec<u8>)>,
    calls: Calls,
}

impl Model for MemShelf {
    ghost Value = { Kept };

    ghost view = { λ s. record { texts = map entry_of s.texts.items; calls = s.calls } };
}

impl MemShelf {
    pub fn new(texts: Vec<(String, Vec<u8>)>, fails: Vec<u64>) -> Self
        ensures { result ≡ record { texts = map entry_of texts.items; calls = unused fails.items } }
    {
        MemShelf {
            texts,
            calls: Calls::new(fails),
        }
    }
}

fn first_named<'a>(texts: &'a [(String, Vec<u8>)], name: &str) -> Option<&'a Vec<u8>>
    ensures { option_map (λ text. text.now.items) result ≡ text_named (map entry_of texts.now) name.now }
{
    for (known, text) in texts {
        if known.as_str() == name {
            return Some(text);
        }
    }
    None
}

impl Shelf for MemShelf {
    ghost text = { λ s name. text_named s.texts name };

    ghost faults = { λ s. s.calls.faults };

    fn text(&mut self, alloc: Global, name: &str, most: usize) -> Result<Vec<u8>, ShelfFault>
        ensures told { IfOk result (λ text. IfSome (text_named self.old.texts name.now) (λ t. text.items ≡ t)) }
        ensures most { IfOk result (λ text. vec_len text ≤ most) }
        ensures long { IsErrOf result ShelfFault.Long → IfSome (text_named self.old.texts name.now) (λ t. most < length t) }
        ensures same { (other : List ℕ) → text_named self.new.texts other ≡ text_named self.old.texts other }
        ensures later { self.old.calls.faults ≤ self.new.calls.faults }
        ensures cause { IsErrOf result ShelfFault.Failed → Rose self.old.calls.faults self.new.calls.faults }

        // It fails at the given calls and at a name that it has not. Else it tells a text that is too long,
        // and gives any other, if there is memory for it.
        ensures fails { IsErrOf result ShelfFault.Failed ↔ (IsToFail self.old.calls ⊎ IsNone (text_named self.old.texts name.now)) }
        ensures too_long { IsErrOf result ShelfFault.Long ↔ (¬ IsToFail self.old.calls × IsSomeAnd (text_named self.old.texts name.now) (λ t. most < length t)) }
        ensures found { IfOk result (λ text. text_named self.old.texts name.now ≡ Some text.items) }
        ensures failed { IsErrOf result ShelfFault.Failed → self.new ≡ record self.old { calls = after_fault self.old.calls } }
        ensures counted { ¬ IsErrOf result ShelfFault.Failed → self.new ≡ record self.old { calls = after_call self.old.calls } }
    {
        if self.calls.is_to_fail() {
            self.calls.count_fault();
            return Err(ShelfFault::Failed);
        }
        let Some(text) = first_named(&self.texts, name) else {
            self.calls.count_fault();
            return Err(ShelfFault::Failed);
        };
        self.calls.count();
        if text.len() > most {
            return Err(ShelfFault::Long);
        }
        match Vec::from_slice(alloc, text) {
            Ok(copy) => Ok(copy),
            Err(_) => Err(ShelfFault::Memory),
        }
    }
}
