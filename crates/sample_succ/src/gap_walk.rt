//! The walk over the paths of a gap from one of the states before it: depth first, each path
//! before those that extend it, and these by their transitions.

ghost use Rattle.std.specs.Prelude.{◌≡◌, ◌+◌, ◌<◌, ◌≤◌, ◌++◌, ◌||◌, [], ◌∷◌, ℕ, Err, IfOk, OnOk, length};
ghost use Rattle.run_specs.specs.Automaton.{width, location_at, transition_at};
ghost use Rattle.run_specs.specs.Outcomes.{KeyPasses};
ghost use Rattle.sample_succ.specs.Covers.{AreWide, items_of};
ghost use Rattle.sample_succ.specs.Walks.{IsNode, IsAfter, IsJumped, AreFound, AllBefore, WalkedTo, IsVisited, IsPutNew};

use crate::covering::is_covered;
use crate::finding::{Found, Node};
use crate::last_leg::never_ends;
use crate::stepping::{automaton_of, jump, leg, sample};
use fm_eliminate::{RowFault, System};
use gap_keys::Key;
use std::alloc::{AllocError, Global};

fn copied(alloc: Global, path: &[u8]) -> Result<Vec<u8>, AllocError>
    ensures { IfOk result (λ v. v.items ≡ path.now) }
{
    let mut copy = Vec::new(alloc);
    for e in path {
        copy.push(*e)?;
    }
    Ok(copy)
}

/// Puts the node's path with these rows last.
fn put(alloc: Global, found: &mut Vec<Found>, node: &Node, rows: System) -> Result<(), AllocError>
    ensures items { OnOk result (items_of found.new.items ≡ items_of found.old.items
        ++ record { parent = node.now.parent; path = node.now.path.items; state = record { loc = node.now.loc; seen_unsafe = node.now.seen_unsafe; rows = rows.rows } } ∷ []) }
    ensures wide { OnOk result ((m : ℕ) → rows.width ≡ m → AreWide m found.old.items → AreWide m found.new.items) }
{
    let path = copied(alloc, node.path.as_slice())?;
    found.push(Found {
        parent: node.parent,
        path,
        loc: node.loc,
        seen_unsafe: node.seen_unsafe,
        rows,
    })?;
    Ok(())
}

/// Puts the states with these rows, where runs along the node's path end the gap, unless a state
/// that was found before includes them.
fn put_new(
    alloc: Global,
    found: &mut Vec<Found>,
    node: &Node,
    rows: System,
) -> Result<(), AllocError>
    requires wide { AreWide rows.width found.old.items }
    requires few { rows.width ≤ 13 }
    ensures { OnOk result (IsPutNew node.now rows found.old.items found.new.items) }
{
    if is_covered(alloc, found.as_slice(), node, &rows)? {
        return Ok(());
    }
    put(alloc, found, node, rows)?;
    Ok(())
}

/// Adds the states where runs along the node's path end the gap, unless there are none or a state
/// that was found before includes them.
fn add_item(
    alloc: Global,
    key: &Key,
    node: &Node,
    after: &System,
    found: &mut Vec<Found>,
) -> Result<(), RowFault>
    requires node { IsNode key.now node.now }
    requires after { IsAfter key.now node.now.parent node.now.path.items after.now }
    requires wide { AreWide (width key.now.automaton) found.old.items }
    requires found { AreFound key.now (items_of found.old.items) }
    requires before { AllBefore (items_of found.old.items) node.now.parent node.now.path.items }
    ensures ok { OnOk result (WalkedTo key.now node.now.parent node.now.path.items 0 found.old.items found.new.items) }
    ensures passes { result ≡ Err RowFault.Passes → KeyPasses key.now }
{
    // What a key keeps, and each row's width, as readers say.
    automaton_of(key);
    after.width();
    let rows = sample(alloc, key, after)?;
    match rows {
        None => Ok(()),
        Some(rows) => Ok(put_new(alloc, found, node, rows)?),
    }
}

/// Takes the leg at the node, and then the sample: where runs may stand after the leg, or nothing
/// where no run gets there.
fn visit(
    alloc: Global,
    key: &Key,
    node: &Node,
    found: &mut Vec<Found>,
) -> Result<Option<System>, RowFault>
    requires node { IsNode key.now node.now }
    requires wide { AreWide (width key.now.automaton) found.old.items }
    requires found { AreFound key.now (items_of found.old.items) }
    requires before { AllBefore (items_of found.old.items) node.now.parent node.now.path.items }
    ensures ok { IfOk result (λ o. IsVisited key.now node.now.parent node.now.path.items found.old.items found.new.items o) }
    ensures passes { result ≡ Err RowFault.Passes → KeyPasses key.now }
{
    // What a key keeps, and each row's width, as readers say.
    automaton_of(key);
    node.before.width();
    let after = leg(alloc, key, node.loc, &node.before)?;
    match after {
        None => Ok(None),
        Some(after) => {
            add_item(alloc, key, node, &after, found)?;
            Ok(Some(after))
        }
    }
}

/// The node that transition number `e` leads to, with these rows.
fn next_node(
    alloc: Global,
    key: &Key,
    node: &Node,
    e: u8,
    before: System,
) -> Result<Node, AllocError>
    requires known { e < length key.now.automaton.transitions }
    ensures parent { IfOk result (λ n. n.parent ≡ node.now.parent) }
    ensures path { IfOk result (λ n. n.path.items ≡ node.now.path.items ++ e ∷ []) }
    ensures loc { IfOk result (λ n. n.loc ≡ (transition_at key.now.automaton e).target) }
    ensures mark { IfOk result (λ n. n.seen_unsafe ≡ (node.now.seen_unsafe || (location_at key.now.automaton (transition_at key.now.automaton e).target).is_unsafe)) }
    ensures before { IfOk result (λ n. n.before ≡ before) }
{
    let mut path = copied(alloc, node.path.as_slice())?;
    path.push(e)?;
    let loc = target_of(key, e);
    let seen_unsafe = node.seen_unsafe || is_unsafe(key, loc);
    Ok(Node {
        parent: node.parent,
        path,
        loc,
        seen_unsafe,
        before,
    })
}

/// The number of the location that it leaves.
fn source_of(key: &Key, e: u8) -> u8
    requires { e < length key.now.automaton.transitions }
    ensures { result ≡ (transition_at key.now.automaton e).source }
{
    automaton_of(key).trans()[usize::from(e)].from()
}

/// The number of the location that a transition enters.
pub fn target_of(key: &Key, e: u8) -> u8
    requires { e < length key.now.automaton.transitions }
    ensures target { result ≡ (transition_at key.now.automaton e).target }
    ensures known { result < length key.now.automaton.locations }
{
    automaton_of(key).trans()[usize::from(e)].to()
}

/// Whether the location is unsafe.
pub fn is_unsafe(key: &Key, loc: u8) -> bool
    requires { loc < length key.now.automaton.locations }
    ensures { result ≡ (location_at key.now.automaton loc).is_unsafe }
{
    automaton_of(key).locs()[usize::from(loc)].unsafe_loc()
}

/// The node that a jump by transition number `e` leads to, or nothing where no run goes this way.
fn jumped(
    alloc: Global,
    key: &Key,
    node: &Node,
    after: &System,
    e: u8,
) -> Result<Option<Node>, RowFault>
    requires node { IsNode key.now node.now }
    requires after { IsAfter key.now node.now.parent node.now.path.items after.now }
    requires known { e < length key.now.automaton.transitions }
    requires room { length node.now.path.items < key.now.jumps }
    ensures ok { IfOk result (λ o. IsJumped key.now node.now.parent node.now.path.items e o) }
    ensures passes { result ≡ Err RowFault.Passes → KeyPasses key.now }
{
    // What a key keeps, and each row's width, as readers say.
    automaton_of(key);
    after.width();
    if source_of(key, e) != node.loc {
        return Ok(None);
    }
    let before = jump(alloc, key, e, after)?;
    match before {
        None => Ok(None),
        Some(before) => {
            let next = next_node(alloc, key, node, e, before)?;
            Ok(Some(next))
        }
    }
}

/// The number of transitions.
fn count_of(key: &Key) -> u8
    ensures { result ≡ length key.now.automaton.transitions }
{
    automaton_of(key).trans().len() as u8
}

/// Walks the node's path, which may jump no more. Most such paths end nowhere, which is asked first.
fn visit_last(alloc: Global, key: &Key, node: &Node, found: &mut Vec<Found>) -> Result<(), RowFault>
    requires node { IsNode key.now node.now }
    requires full { length node.now.path.items ≡ key.now.jumps }
    requires wide { AreWide (width key.now.automaton) found.old.items }
    requires found { AreFound key.now (items_of found.old.items) }
    requires before { AllBefore (items_of found.old.items) node.now.parent node.now.path.items }
    ensures ok { OnOk result (WalkedTo key.now node.now.parent node.now.path.items (length key.now.automaton.transitions) found.old.items found.new.items) }
    ensures passes { result ≡ Err RowFault.Passes → KeyPasses key.now }
{
    // What a key keeps, as its reader says.
    automaton_of(key);
    if never_ends(alloc, key, node)? {
        return Ok(());
    }
    visit(alloc, key, node, found)?;
    Ok(())
}

/// Walks the node's path and then those that extend it by at most so many jumps, and adds what is
/// found.
pub fn walk(
    alloc: Global,
    key: &Key,
    node: &Node,
    left: usize,
    found: &mut Vec<Found>,
) -> Result<(), RowFault>
    requires node { IsNode key.now node.now }
    requires left { length node.now.path.items + left ≡ key.now.jumps }
    requires wide { AreWide (width key.now.automaton) found.old.items }
    requires found { AreFound key.now (items_of found.old.items) }
    requires before { AllBefore (items_of found.old.items) node.now.parent node.now.path.items }
    ensures ok { OnOk result (WalkedTo key.now node.now.parent node.now.path.items (length key.now.automaton.transitions) found.old.items found.new.items) }
    ensures passes { result ≡ Err RowFault.Passes → KeyPasses key.now }
{
    if left == 0 {
        return visit_last(alloc, key, node, found);
    }
    let visited = visit(alloc, key, node, found)?;
    let after = match visited {
        None => return Ok(()),
        Some(after) => after,
    };
    for e in 0..count_of(key) {
        let next = jumped(alloc, key, node, &after, e)?;
        match next {
            None => {}
            Some(next) => walk(alloc, key, &next, left - 1, found)?,
        }
    }
    Ok(())
}
