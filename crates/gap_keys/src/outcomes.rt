//! The states after a gap.

ghost use Rattle.std.specs.Prelude.{◌≡◌};
ghost use Rattle.gap_keys.specs.Views.{state_view};

use crate::states::State;
use std::marker::Model;

/// A state after a gap, with the number of the state before it and the path from there.
///
/// A contract sees the item of the definitions, and for how many columns its state's system was made.
#[derive(Debug, Drop)]
pub struct Item {
    parent: usize,
    path: Vec<u8>,
    state: State,
}

impl Model for Item {
    ghost use Rattle.gap_keys.specs.Views.{ItemView};

    ghost Value = { ItemView };

    ghost view = { λ x. record { item = record { parent = x.parent; path = x.path.items; state = x.state.state }; width = x.state.width } };
}

impl Item {
    /// An item of these fields. Takes no memory.
    pub fn new(parent: usize, path: Vec<u8>, state: State) -> Item
        ensures { result ≡ record { item = record { parent = parent; path = path.items; state = state.state }; width = state.width } }
    {
        Item {
            parent,
            path,
            state,
        }
    }

    /// The number of the state before the gap.
    pub fn parent(&self) -> usize
        ensures { result ≡ self.now.item.parent }
    {
        self.parent
    }

    /// The numbers of the transitions from there, in order.
    pub fn path(&self) -> &[u8]
        ensures { result.now ≡ self.now.item.path }
    {
        self.path.as_slice()
    }

    /// The state.
    pub fn state(&self) -> &State
        ensures { result.now ≡ state_view self.now }
    {
        &self.state
    }
}

/// The states after a gap, in the order of their parents and then of their paths.
#[derive(Debug, Drop)]
pub struct Next {
    items: Vec<Item>,
}

impl Model for Next {
    ghost use Rattle.std.specs.Prelude.{List};
    ghost use Rattle.gap_keys.specs.Views.{ItemView};

    ghost Value = { List ItemView };

    ghost view = { λ n. n.items.items };
}

impl Next {
    /// The states of these items. Takes no memory.
    pub fn new(items: Vec<Item>) -> Next
        ensures { result ≡ items.items }
    {
        Next { items }
    }

    /// The items, the first one first.
    pub fn items(&self) -> &[Item]
        ensures { result.now ≡ self.now }
    {
        self.items.as_slice()
    }
}

/// What is known of the states after a gap.
#[derive(Debug, Drop)]
pub enum Outcome {
    /// These are the states.
    Next(Next),
    /// A number passed 128 bits, and the states are not known.
    Overflow,
}
