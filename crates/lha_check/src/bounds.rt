//! The tolerances of an automaton.

ghost use Rattle.std.specs.Prelude.{◌≡◌, [], map, option_map, bytes_eq, IfOk, OnOk, IfErr};
ghost use Rattle.std.specs.List.{list_any, find};
ghost use Rattle.lang_specs.specs.Trees as trees;
ghost use Rattle.model_specs.specs.Automata as automata;
ghost use Rattle.model_specs.specs.Faults as faults;
ghost use Rattle.lha_check.specs.Told.{IsFirst};
ghost use Rattle.lha_check.specs.Elements.{bound_faults};

use crate::CheckFault;
use crate::lists::push;
use crate::names::{are_same, known_once};
use frac128::Frac;
use lang_trees::{BoundTree, BoundsTree, Tree};
use lha_model::Name;
use std::alloc::{AllocError, Global};

/// Whether one of the bounds is of the variable.
fn has_bound(bounds: &[BoundTree], var: &Name) -> bool
    ensures { result ≡ list_any (λ b. bytes_eq b.var var.now) bounds.now }
{
    bounds.iter().any(|bound| are_same(bound.var(), var))
}

/// Checks a bound that stands after others.
fn check_bound(
    line: u32,
    vars: &[Name],
    before: &[BoundTree],
    bound: &BoundTree,
) -> Result<(), CheckFault>
    ensures none { OnOk result (bound_faults line vars.now (map (λ b. b.var) before.now) bound.now ≡ []) }
    ensures fault { IfErr result (IsFirst (bound_faults line vars.now (map (λ b. b.var) before.now) bound.now)) }
{
    let var = bound.var();
    known_once(line, vars, has_bound(before, var), var)
}

/// Checks that each bound is of a variable, and each variable has one at most.
fn check_bounds(line: u32, vars: &[Name], bounds: &[BoundTree]) -> Result<(), CheckFault>
    ensures none { OnOk result (faults.bounds_faults line vars.now [] bounds.now ≡ []) }
    ensures fault { IfErr result (IsFirst (faults.bounds_faults line vars.now [] bounds.now)) }
{
    for i in 0..bounds.len() {
        let bound = &bounds[i];
        check_bound(line, vars, &bounds[..i], bound)?;
    }
    Ok(())
}

/// Checks the statement `obs`, where it stands.
pub(crate) fn check_obs(tree: &Tree) -> Result<(), CheckFault>
    ensures none { OnOk result (faults.obs_faults tree.now tree.now.obs ≡ []) }
    ensures fault { IfErr result (IsFirst (faults.obs_faults tree.now tree.now.obs)) }
{
    match tree.obs() {
        None => Ok(()),
        Some(obs) => check_bounds(obs.line(), tree.vars(), obs.bounds()),
    }
}

/// The bounds of `obs`; none where it does not stand.
fn bounds_of(obs: Option<&BoundsTree>) -> &[BoundTree]
    ensures { result.now ≡ trees.bounds_of (option_map (λ x. x.now) obs.entry) }
{
    match obs {
        None => &[],
        Some(obs) => obs.bounds(),
    }
}

/// The first bound of a variable.
fn bound_of<'a>(bounds: &'a [BoundTree], var: &Name) -> Option<&'a BoundTree>
    ensures { option_map (λ x. x.now) result ≡ find (λ b. bytes_eq b.var var.now) bounds.now }
{
    bounds.iter().find(|bound| are_same(bound.var(), var))
}

/// The tolerance of a variable: 0 where none is given.
fn tolerance(bounds: &[BoundTree], var: &Name) -> Frac
    ensures { result ≡ automata.within_of (find (λ b. bytes_eq b.var var.now) bounds.now) }
{
    match bound_of(bounds, var) {
        None => Frac::make(0, 1),
        Some(bound) => *bound.within(),
    }
}

/// The tolerances of an automaton, by variable.
pub(crate) fn tolerances(alloc: Global, tree: &Tree) -> Result<Vec<Frac>, AllocError>
    ensures { IfOk result (λ v. v.items ≡ automata.tolerances tree.now) }
{
    let bounds = bounds_of(tree.obs());
    let vars = tree.vars();
    let mut found = Vec::new(alloc);
    for var in vars {
        push(&mut found, tolerance(bounds, var))?;
    }
    Ok(found)
}
