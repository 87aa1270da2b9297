//! The states after a gap, by its key.

ghost use Rattle.std.specs.Prelude.{◌≡◌, ◌+◌, ◌<◌, Err, IfOk, OnOk, length};
ghost use Rattle.gap_keys.specs.Answering.{IsAnswer};
ghost use Rattle.run_specs.specs.Automaton.{width};
ghost use Rattle.run_specs.specs.Outcomes.{AreExact, KeyPasses};
ghost use Rattle.sample_succ.specs.Covers.{items_of, view_of, views_of, AreWide};
ghost use Rattle.sample_succ.specs.Walks.{WalkedFrom};

use crate::finding::Found;
use crate::gap_starts::start_node;
use crate::gap_walk::walk;
use fm_eliminate::RowFault;
use gap_keys::{Item, Key, Next, Outcome, State};
use std::alloc::{AllocError, Global};

/// Adds what is found from the state before the gap of this number.
fn find_from(
    alloc: Global,
    key: &Key,
    parent: usize,
    found: &mut Vec<Found>,
) -> Result<(), RowFault>
    requires known { parent < length key.now.belief }
    requires before { WalkedFrom key.now parent found.old.items }
    ensures ok { OnOk result (WalkedFrom key.now (parent + 1) found.new.items) }
    ensures passes { result ≡ Err RowFault.Passes → KeyPasses key.now }
{
    let node = start_node(alloc, key, parent)?;
    let left = usize::from(key.jumps());
    walk(alloc, key, &node, left, found)?;
    Ok(())
}

/// What is found from all states before the gap.
fn find_all(alloc: Global, key: &Key) -> Result<Vec<Found>, RowFault>
    ensures ok { IfOk result (λ v. AreExact key.now (items_of v.items)) }
    ensures wide { IfOk result (λ v. AreWide (width key.now.automaton) v.items) }
    ensures passes { result ≡ Err RowFault.Passes → KeyPasses key.now }
{
    let mut found = Vec::new(alloc);
    let count = key.belief().states().len();
    for parent in 0..count {
        find_from(alloc, key, parent, &mut found)?;
    }
    Ok(found)
}

fn item(found: Found) -> Item
    ensures { result ≡ view_of found }
{
    let state = State::new(found.loc, found.seen_unsafe, found.rows);
    Item::new(found.parent, found.path, state)
}

fn items(alloc: Global, found: Vec<Found>) -> Result<Vec<Item>, AllocError>
    ensures { IfOk result (λ v. v.items ≡ views_of found.items) }
{
    found.into_iter().map(item).collect(alloc)
}

/// The states after the gap of a key: from each state before it, along each path of at most so many
/// jumps as the key allows, the ends of the gap runs that pass the sample.
///
/// The items stand in the order of their parents, and then of their paths, a path before those that
/// extend it. An item is left out where it has no point, and where an earlier one of the same
/// location and mark includes it. The systems of their states are over the automaton's variables.
/// `Overflow` says that a number of the plain stages passes 128 bits.
pub fn step(alloc: Global, key: &Key) -> Result<Outcome, AllocError>
    ensures { IfOk result (IsAnswer key.now) }
{
    match find_all(alloc, key) {
        Ok(found) => {
            let found = items(alloc, found)?;
            Ok(Outcome::Next(Next::new(found)))
        }
        Err(RowFault::Passes) => Ok(Outcome::Overflow),
        Err(RowFault::Memory) => Err(AllocError),
    }
}
