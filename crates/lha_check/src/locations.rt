//! The locations of an automaton.

ghost use Rattle.std.specs.Prelude.{◌≡◌, [], map, bytes_eq, IfOk, OnOk, IfErr};
ghost use Rattle.std.specs.List.{list_any};
ghost use Rattle.model_specs.specs.Automata as automata;
ghost use Rattle.model_specs.specs.Faults as faults;
ghost use Rattle.lha_check.specs.Told.{IsFirst};
ghost use Rattle.lha_check.specs.Elements.{IsSmall};

use crate::CheckFault;
use crate::boxes::{check_boxes, each_has_box};
use crate::lists::push;
use crate::names::{are_same, once};
use crate::statements::{checked_slopes, init_rows, invariant_rows};
use lang_trees::{LocTree, Tree};
use lha_model::{Loc, Name};
use std::alloc::Global;

/// Whether one of the locations has the name.
fn has_location(locs: &[LocTree], name: &Name) -> bool
    ensures { result ≡ list_any (λ l. bytes_eq l.name name.now) locs.now }
{
    locs.iter().any(|loc| are_same(loc.name(), name))
}

/// Refuses a location whose name stood before.
fn named_once(before: &[LocTree], loc: &LocTree) -> Result<(), CheckFault>
    ensures none { OnOk result (faults.repeated loc.now.line (map (λ l. l.name) before.now) loc.now.name ≡ []) }
    ensures fault { IfErr result (IsFirst (faults.repeated loc.now.line (map (λ l. l.name) before.now) loc.now.name)) }
{
    let name = loc.name();
    once(loc.line(), has_location(before, name), name)
}

/// Refuses a location in which a variable has no box.
fn has_slopes(tree: &Tree, loc: &LocTree) -> Result<(), CheckFault>
    ensures none { OnOk result (faults.missing_slope loc.now.line loc.now.flow.boxes tree.now.vars ≡ []) }
    ensures fault { IfErr result (IsFirst (faults.missing_slope loc.now.line loc.now.flow.boxes tree.now.vars)) }
{
    each_has_box(loc.line(), loc.flow().boxes(), tree.vars())
}

/// Checks the boxes of a location.
fn check_flow(tree: &Tree, loc: &LocTree) -> Result<(), CheckFault>
    ensures none { OnOk result (faults.boxes_faults loc.now.flow.line tree.now.vars [] loc.now.flow.boxes ≡ []) }
    ensures fault { IfErr result (IsFirst (faults.boxes_faults loc.now.flow.line tree.now.vars [] loc.now.flow.boxes)) }
{
    let flow = loc.flow();
    check_boxes(flow.line(), tree.vars(), flow.boxes())
}

/// Checks a location that stands after others.
fn location(
    alloc: Global,
    tree: &Tree,
    before: &[LocTree],
    loc: &LocTree,
) -> Result<Loc, CheckFault>
    requires { IsSmall tree.now }
    ensures value { IfOk result (λ v. v ≡ automata.location_of tree.now.vars loc.now) }
    ensures none { IfOk result (λ v. faults.location_faults tree.now (map (λ l. l.name) before.now) loc.now ≡ []) }
    ensures fault { IfErr result (IsFirst (faults.location_faults tree.now (map (λ l. l.name) before.now) loc.now)) }
{
    named_once(before, loc)?;
    has_slopes(tree, loc)?;
    let init = init_rows(alloc, tree, loc)?;
    let inv = invariant_rows(alloc, tree, loc)?;
    check_flow(tree, loc)?;
    let flow = checked_slopes(alloc, tree, loc)?;
    Ok(Loc::new(loc.name().copy(), loc.unsafe_loc(), init, inv, flow))
}

/// Checks the locations of an automaton.
pub(crate) fn locations(alloc: Global, tree: &Tree) -> Result<Vec<Loc>, CheckFault>
    requires { IsSmall tree.now }
    ensures value { IfOk result (λ v. v.items ≡ map (automata.location_of tree.now.vars) tree.now.locs) }
    ensures none { IfOk result (λ v. faults.locations_faults tree.now [] tree.now.locs ≡ []) }
    ensures fault { IfErr result (IsFirst (faults.locations_faults tree.now [] tree.now.locs)) }
{
    let locs = tree.locs();
    let mut made = Vec::new(alloc);
    for i in 0..locs.len() {
        let loc = &locs[i];
        let one = location(alloc, tree, &locs[..i], loc)?;
        push(&mut made, one)?;
    }
    Ok(made)
}
