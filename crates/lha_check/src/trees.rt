//! Checks the trees of a text, and makes their automata.

ghost use Rattle.std.specs.Prelude.{◌≡◌, ℕ, List, All, [], map, bytes_eq, IfOk, OnOk, IfErr};
ghost use Rattle.std.specs.List.{list_any};
ghost use Rattle.std.specs.Arc.{arc_value};
ghost use Rattle.run_specs.specs.WellFormed.{IsWellFormed};
ghost use Rattle.lang_specs.specs.FirstFault.{IsSpelling};
ghost use Rattle.model_specs.specs.Automata as automata;
ghost use Rattle.model_specs.specs.Faults as faults;
ghost use Rattle.lha_check.specs.Told.{IsFirst};
ghost use Rattle.lha_check.specs.Elements.{IsSmall};

use crate::CheckFault;
use crate::bounds::check_obs;
use crate::lists::push;
use crate::locations::locations;
use crate::names::{are_same, each_once, once};
use crate::parts::Parts;
use crate::transitions::transitions;
use lang_trees::Tree;
use lha_model::{Automaton, Name};
use std::alloc::{AllocError, Global};
use std::sync::Arc;

/// Whether one of the automata has the name.
fn has_automaton(trees: &[Tree], name: &Name) -> bool
    ensures { result ≡ list_any (λ t. bytes_eq t.name name.now) trees.now }
{
    trees.iter().any(|tree| are_same(tree.name(), name))
}

/// Refuses an automaton whose name stood before.
fn named_once(before: &[Tree], tree: &Tree) -> Result<(), CheckFault>
    ensures none { OnOk result (faults.repeated tree.now.line (map (λ t. t.name) before.now) tree.now.name ≡ []) }
    ensures fault { IfErr result (IsFirst (faults.repeated tree.now.line (map (λ t. t.name) before.now) tree.now.name)) }
{
    let name = tree.name();
    once(tree.line(), has_automaton(before, name), name)
}

/// Refuses an automaton of which two variables have one name.
fn vars_once(tree: &Tree) -> Result<(), CheckFault>
    ensures none { OnOk result (faults.repeated_in tree.now.var_line [] tree.now.vars ≡ []) }
    ensures fault { IfErr result (IsFirst (faults.repeated_in tree.now.var_line [] tree.now.vars)) }
{
    each_once(tree.var_line(), tree.vars())
}

/// Checks a tree that stands after others.
fn parts_of(alloc: Global, before: &[Tree], tree: &Tree) -> Result<Parts, CheckFault>
    requires { IsSmall tree.now }
    ensures value { IfOk result (λ v. v ≡ automata.automaton_of tree.now) }
    ensures none { IfOk result (λ v. faults.tree_faults (map (λ t. t.name) before.now) tree.now ≡ []) }
    ensures fault { IfErr result (IsFirst (faults.tree_faults (map (λ t. t.name) before.now) tree.now)) }
{
    named_once(before, tree)?;
    vars_once(tree)?;
    check_obs(tree)?;
    let locs = locations(alloc, tree)?;
    let trans = transitions(alloc, tree)?;
    let parts = Parts::of_tree(alloc, tree, locs, trans)?;
    Ok(parts)
}

/// Checks trees.
fn all_parts(alloc: Global, trees: &[Tree]) -> Result<Vec<Parts>, CheckFault>
    requires { All IsSmall trees.now }
    ensures value { IfOk result (λ v. v.items ≡ automata.automata_of trees.now) }
    ensures none { IfOk result (λ v. faults.faults_of trees.now ≡ []) }
    ensures fault { IfErr result (IsFirst (faults.faults_of trees.now)) }
{
    let mut found = Vec::new(alloc);
    for i in 0..trees.len() {
        let tree = &trees[i];
        let parts = parts_of(alloc, &trees[..i], tree)?;
        push(&mut found, parts)?;
    }
    Ok(found)
}

/// The automata of these parts, which keep to the limits.
fn automata_of(alloc: Global, found: Vec<Parts>) -> Result<Vec<Arc<Automaton>>, AllocError>
    requires { All IsWellFormed found.items }
    ensures { IfOk result (λ v. map (λ a. arc_value a) v.items ≡ found.items) }
{
    let mut made = Vec::new(alloc);
    for parts in found {
        let automaton = parts.shared(alloc)?;
        push(&mut made, automaton)?;
    }
    Ok(made)
}

/// Checks trees that a text spells, and makes their automata, in the order of the text.
///
/// # Errors
///
/// The first fault of the trees where they have one; `Memory` only where there was no memory.
pub fn check(alloc: Global, trees: &[Tree]) -> Result<Vec<Arc<Automaton>>, CheckFault>
    requires { (text : List ℕ) × IsSpelling text trees.now }
    ensures automata { IfOk result (λ v. map (λ a. arc_value a) v.items ≡ automata.automata_of trees.now) }
    ensures none { IfOk result (λ v. faults.faults_of trees.now ≡ []) }
    ensures fault { IfErr result (IsFirst (faults.faults_of trees.now)) }
{
    let found = all_parts(alloc, trees)?;
    let made = automata_of(alloc, found)?;
    Ok(made)
}
