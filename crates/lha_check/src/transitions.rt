//! The transitions of an automaton.

ghost use Rattle.std.specs.Prelude.{◌≡◌, ◌≤◌, ◌+◌, ◌++◌, [], map, flat_map, length, bytes_eq, IfOk, OnOk, IfErr};
ghost use Rattle.std.specs.List.{list_any, position};
ghost use Rattle.model_specs.specs.Constraints as constraints;
ghost use Rattle.model_specs.specs.Automata as automata;
ghost use Rattle.model_specs.specs.Faults as faults;
ghost use Rattle.lha_check.specs.Told.{IsFirst};
ghost use Rattle.lha_check.specs.Elements.{act_faults, jump_passes, IsSmall};

use crate::CheckFault;
use crate::expressions::{known_in_both, known_in_rows, known_in_terms};
use crate::faults::row_fault;
use crate::lists::push;
use crate::names::{are_same, known_once};
use lang_trees::{ActParts, ActTree, LocTree, TransTree, Tree};
use lha_model::{Name, Trans};
use lin_row::Row;
use model_rows::transition_rows;
use std::alloc::Global;

/// The place of the location of this name.
fn place_of(locs: &[LocTree], name: &Name) -> Option<usize>
    ensures { result ≡ position (λ l. bytes_eq l.name name.now) locs.now }
{
    locs.iter().position(|loc| are_same(loc.name(), name))
}

/// The number of the location of this name.
fn known_place(line: u32, locs: &[LocTree], name: &Name) -> Result<u8, CheckFault>
    requires { length locs.now ≤ 32 }
    ensures value { IfOk result (λ place. place ≡ constraints.place_in (map (λ l. l.name) locs.now) name.now) }
    ensures none { IfOk result (λ place. faults.unknown line (map (λ l. l.name) locs.now) name.now ≡ []) }
    ensures fault { IfErr result (IsFirst (faults.unknown line (map (λ l. l.name) locs.now) name.now)) }
{
    match place_of(locs, name) {
        Some(place) => Ok(place as u8),
        None => Err(CheckFault::UnknownName {
            line,
            name: name.copy(),
        }),
    }
}

/// The variable that an act names.
fn act_name(act: &ActTree) -> &Name
    ensures { result.now ≡ automata.act_name act.now }
{
    match act.parts() {
        ActParts::Set { var, .. } => var,
        ActParts::Within { var, .. } => var,
        ActParts::Free { var } => var,
    }
}

/// Whether one of the acts names the variable.
fn has_act(acts: &[ActTree], var: &Name) -> bool
    ensures { result ≡ list_any (λ a. bytes_eq (automata.act_name a) var.now) acts.now }
{
    acts.iter().any(|act| are_same(act_name(act), var))
}

/// Refuses an act whose expressions name an unknown variable.
fn known_in_act(line: u32, vars: &[Name], act: &ActTree) -> Result<(), CheckFault>
    ensures none { OnOk result (faults.unknown_in_act line vars.now act.now ≡ []) }
    ensures fault { IfErr result (IsFirst (faults.unknown_in_act line vars.now act.now)) }
{
    match act.parts() {
        ActParts::Set { value, .. } => known_in_terms(line, vars, value.terms()),
        ActParts::Within { lo, hi, .. } => known_in_both(line, vars, lo.terms(), hi.terms()),
        ActParts::Free { .. } => Ok(()),
    }
}

/// Checks an act that stands after others.
fn check_act(line: u32, vars: &[Name], before: &[ActTree], act: &ActTree) -> Result<(), CheckFault>
    ensures none { OnOk result (act_faults line vars.now (map automata.act_name before.now) act.now ≡ []) }
    ensures fault { IfErr result (IsFirst (act_faults line vars.now (map automata.act_name before.now) act.now)) }
{
    let var = act_name(act);
    known_once(line, vars, has_act(before, var), var)?;
    known_in_act(line, vars, act)
}

/// Checks that each act is of a variable, each variable has one at most, and their expressions name variables.
fn check_acts(line: u32, vars: &[Name], acts: &[ActTree]) -> Result<(), CheckFault>
    ensures none { OnOk result (faults.acts_faults line vars.now [] acts.now ≡ []) }
    ensures fault { IfErr result (IsFirst (faults.acts_faults line vars.now [] acts.now)) }
{
    for i in 0..acts.len() {
        let act = &acts[i];
        check_act(line, vars, &acts[..i], act)?;
    }
    Ok(())
}

/// The number of the location that a transition leaves.
fn source(tree: &Tree, jump: &TransTree) -> Result<u8, CheckFault>
    requires { IsSmall tree.now }
    ensures value { IfOk result (λ place. place ≡ constraints.place_in (automata.location_names tree.now) jump.now.from) }
    ensures none { IfOk result (λ place. faults.unknown jump.now.line (automata.location_names tree.now) jump.now.from ≡ []) }
    ensures fault { IfErr result (IsFirst (faults.unknown jump.now.line (automata.location_names tree.now) jump.now.from)) }
{
    known_place(jump.line(), tree.locs(), jump.from())
}

/// The number of the location that a transition enters.
fn target(tree: &Tree, jump: &TransTree) -> Result<u8, CheckFault>
    requires { IsSmall tree.now }
    ensures value { IfOk result (λ place. place ≡ constraints.place_in (automata.location_names tree.now) jump.now.to) }
    ensures none { IfOk result (λ place. faults.unknown jump.now.line (automata.location_names tree.now) jump.now.to ≡ []) }
    ensures fault { IfErr result (IsFirst (faults.unknown jump.now.line (automata.location_names tree.now) jump.now.to)) }
{
    known_place(jump.line(), tree.locs(), jump.to())
}

/// Refuses a guard that names an unknown variable.
fn known_in_guard(tree: &Tree, jump: &TransTree) -> Result<(), CheckFault>
    ensures none { OnOk result (faults.unknown_in_rows jump.now.line tree.now.vars jump.now.guard ≡ []) }
    ensures fault { IfErr result (IsFirst (faults.unknown_in_rows jump.now.line tree.now.vars jump.now.guard)) }
{
    known_in_rows(jump.line(), tree.vars(), jump.guard())
}

/// Checks the acts of a transition.
fn check_jump(tree: &Tree, jump: &TransTree) -> Result<(), CheckFault>
    ensures none { OnOk result (faults.acts_faults jump.now.line tree.now.vars [] jump.now.acts ≡ []) }
    ensures fault { IfErr result (IsFirst (faults.acts_faults jump.now.line tree.now.vars [] jump.now.acts)) }
{
    check_acts(jump.line(), tree.vars(), jump.acts())
}

/// Forms the rows of a transition.
fn relation(alloc: Global, tree: &Tree, jump: &TransTree) -> Result<Vec<Row>, CheckFault>
    requires { IsSmall tree.now }
    ensures value { IfOk result (λ v. v.items ≡ flat_map (constraints.comparison_rows (length tree.now.vars + length tree.now.vars)) (automata.transition_comparisons tree.now.vars jump.now)) }
    ensures none { IfOk result (λ v. jump_passes tree.now jump.now ≡ []) }
    ensures fault { IfErr result (IsFirst (jump_passes tree.now jump.now)) }
{
    match transition_rows(alloc, tree.vars(), jump) {
        Ok(rows) => Ok(rows),
        Err(fault) => Err(row_fault(fault, jump.line(), tree.name())),
    }
}

/// Checks a transition.
fn transition(alloc: Global, tree: &Tree, jump: &TransTree) -> Result<Trans, CheckFault>
    requires { IsSmall tree.now }
    ensures value { IfOk result (λ v. v ≡ automata.transition_of tree.now.vars (automata.location_names tree.now) jump.now) }
    ensures none { IfOk result (λ v. faults.transition_faults tree.now jump.now ≡ []) }
    ensures fault { IfErr result (IsFirst (faults.transition_faults tree.now jump.now)) }
{
    let from = source(tree, jump)?;
    let to = target(tree, jump)?;
    known_in_guard(tree, jump)?;
    check_jump(tree, jump)?;
    let rel = relation(alloc, tree, jump)?;
    Ok(Trans::new(jump.label().copy(), from, to, rel))
}

/// Checks the transitions of an automaton.
pub(crate) fn transitions(alloc: Global, tree: &Tree) -> Result<Vec<Trans>, CheckFault>
    requires { IsSmall tree.now }
    ensures value { IfOk result (λ v. v.items ≡ map (automata.transition_of tree.now.vars (automata.location_names tree.now)) tree.now.trans) }
    ensures none { IfOk result (λ v. flat_map (faults.transition_faults tree.now) tree.now.trans ≡ []) }
    ensures fault { IfErr result (IsFirst (flat_map (faults.transition_faults tree.now) tree.now.trans)) }
{
    let jumps = tree.trans();
    let mut made = Vec::new(alloc);
    for jump in jumps {
        let trans = transition(alloc, tree, jump)?;
        push(&mut made, trans)?;
    }
    Ok(made)
}
