//! The rows of transitions: the values before in the first columns, and the values after behind them.

ghost use Rattle.std.specs.Prelude.{◌≡◌, ◌+◌, ◌<◌, ◌≤◌, ◌++◌, ◌∷◌, [], map, flat_map, length, option_map, bytes_eq, Some, false, IsTrue, Err, IfOk, OnOk};
ghost use Rattle.std.specs.List.{find};
ghost use Rattle.run_specs.specs.Stages.{below};
ghost use Rattle.model_specs.specs.Parts.{in_column};
ghost use Rattle.model_specs.specs.Constraints as constraints;
ghost use Rattle.model_specs.specs.Automata as automata;
ghost use Rattle.lang_specs.specs.Expressions.{one};
ghost use Rattle.lang_trees.specs.Acts.{act_of};
ghost use Rattle.model_rows.specs.Passing.{transition_passes};

use crate::RowFault;
use crate::comparisons::{Comparison, push_constraints, rows_of};
use crate::names::are_same;
use crate::parts::{Part, parts_of};
use frac128::Frac;
use lang_trees::{ActParts, ActTree, Expr, Sign, TransTree};
use lha_model::Name;
use lin_row::Row;
use std::alloc::{AllocError, Global};

/// The value in a column, alone.
fn alone(alloc: Global, column: usize) -> Result<Vec<Part>, AllocError>
    ensures { IfOk result (λ v. v.items ≡ in_column column one ∷ []) }
{
    let mut parts = Vec::new(alloc);
    parts.push(Part {
        column: Some(column),
        value: Frac::make(1, 1),
    })?;
    Ok(parts)
}

/// The value of variable `j` after the jump is that of the expression before it.
fn set_to(alloc: Global, vars: &[Name], j: usize, value: &Expr) -> Result<Comparison, AllocError>
    requires few { length vars.now ≤ 7 }
    requires within { j < length vars.now }
    ensures { IfOk result (λ c. c ≡ record { left = constraints.after (length vars.now) j; sign = Sign.Equal; right = constraints.parts_of vars.now value.now }) }
{
    Ok(Comparison {
        left: alone(alloc, vars.len() + j)?,
        sign: Sign::Equal,
        right: parts_of(alloc, vars, value.terms())?,
    })
}

/// The value of variable `j` after the jump is at least that of the expression before it.
fn at_least(alloc: Global, vars: &[Name], j: usize, lo: &Expr) -> Result<Comparison, AllocError>
    requires few { length vars.now ≤ 7 }
    requires within { j < length vars.now }
    ensures { IfOk result (λ c. c ≡ record { left = constraints.parts_of vars.now lo.now; sign = Sign.AtMost; right = constraints.after (length vars.now) j }) }
{
    Ok(Comparison {
        left: parts_of(alloc, vars, lo.terms())?,
        sign: Sign::AtMost,
        right: alone(alloc, vars.len() + j)?,
    })
}

/// The value of variable `j` after the jump is at most that of the expression before it.
fn at_most(alloc: Global, vars: &[Name], j: usize, hi: &Expr) -> Result<Comparison, AllocError>
    requires few { length vars.now ≤ 7 }
    requires within { j < length vars.now }
    ensures { IfOk result (λ c. c ≡ record { left = constraints.after (length vars.now) j; sign = Sign.AtMost; right = constraints.parts_of vars.now hi.now }) }
{
    Ok(Comparison {
        left: alone(alloc, vars.len() + j)?,
        sign: Sign::AtMost,
        right: parts_of(alloc, vars, hi.terms())?,
    })
}

/// The value of variable `j` after the jump is its value before it.
fn kept(alloc: Global, vars: &[Name], j: usize) -> Result<Comparison, AllocError>
    requires few { length vars.now ≤ 7 }
    requires within { j < length vars.now }
    ensures { IfOk result (λ c. c ∷ [] ≡ constraints.kept vars.now j) }
{
    Ok(Comparison {
        left: alone(alloc, vars.len() + j)?,
        sign: Sign::Equal,
        right: alone(alloc, j)?,
    })
}

/// Appends what an act of these parts says of variable `j`, which it names.
fn push_act(
    alloc: Global,
    said: &mut Vec<Comparison>,
    vars: &[Name],
    j: usize,
    parts: &ActParts,
) -> Result<(), AllocError>
    requires few { length vars.now ≤ 7 }
    requires within { j < length vars.now }
    ensures { OnOk result (said.new.items ≡ said.old.items ++ constraints.act_comparisons vars.now j (act_of parts.now)) }
{
    match parts {
        ActParts::Set { value, .. } => push_one(said, set_to(alloc, vars, j, value)?),
        ActParts::Within { lo, hi, .. } => {
            let low = at_least(alloc, vars, j, lo)?;
            let high = at_most(alloc, vars, j, hi)?;
            push_both(said, low, high)
        }
        ActParts::Free { .. } => Ok(()),
    }
}

fn push_one(said: &mut Vec<Comparison>, one: Comparison) -> Result<(), AllocError>
    ensures { OnOk result (said.new.items ≡ said.old.items ++ one ∷ []) }
{
    said.push(one)?;
    Ok(())
}

fn push_both(
    said: &mut Vec<Comparison>,
    first: Comparison,
    second: Comparison,
) -> Result<(), AllocError>
    ensures { OnOk result (said.new.items ≡ said.old.items ++ first ∷ second ∷ []) }
{
    said.push(first)?;
    said.push(second)?;
    Ok(())
}

/// The variable that an act of these parts names.
fn name_of(parts: &ActParts) -> &Name
    ensures { result.now ≡ automata.act_name (act_of parts.now) }
{
    match parts {
        ActParts::Set { var, .. } => var,
        ActParts::Within { var, .. } => var,
        ActParts::Free { var } => var,
    }
}

/// The variable that an act names.
fn act_name(act: &ActTree) -> &Name
    ensures { result.now ≡ automata.act_name act.now }
{
    name_of(act.parts())
}

/// The first act that names a variable.
fn first_act<'a>(acts: &'a [ActTree], var: &Name) -> Option<&'a ActTree>
    ensures { option_map (λ x. x.now) result ≡ find (λ a. bytes_eq (automata.act_name a) var.now) acts.now }
{
    for act in acts {
        if are_same(act_name(act), var) {
            return Some(act);
        }
    }
    None
}

/// Appends what an act says of variable `j`, which it names; without an act, that the variable keeps its value.
fn push_any_act(
    alloc: Global,
    said: &mut Vec<Comparison>,
    vars: &[Name],
    j: usize,
    act: Option<&ActTree>,
) -> Result<(), AllocError>
    requires few { length vars.now ≤ 7 }
    requires within { j < length vars.now }
    ensures { OnOk result (said.new.items ≡ said.old.items ++ automata.said_of vars.now j (option_map (λ x. x.now) act.entry)) }
{
    match act {
        None => push_one(said, kept(alloc, vars, j)?),
        Some(act) => push_act(alloc, said, vars, j, act.parts()),
    }
}

/// Appends what the acts say of variable `j`.
fn push_said(
    alloc: Global,
    said: &mut Vec<Comparison>,
    vars: &[Name],
    j: usize,
    acts: &[ActTree],
) -> Result<(), AllocError>
    requires few { length vars.now ≤ 7 }
    requires within { j < length vars.now }
    ensures { OnOk result (said.new.items ≡ said.old.items
        ++ automata.said_of vars.now j (find (λ a. bytes_eq (automata.act_name a) (automata.variable_at vars.now j)) acts.now)) }
{
    push_any_act(alloc, said, vars, j, first_act(acts, &vars[j]))
}

/// Appends what the acts say, by variable.
fn push_acts(
    alloc: Global,
    said: &mut Vec<Comparison>,
    vars: &[Name],
    acts: &[ActTree],
) -> Result<(), AllocError>
    requires { length vars.now ≤ 7 }
    ensures { OnOk result (said.new.items ≡ said.old.items ++ automata.comparisons_of vars.now acts.now) }
{
    for j in 0..vars.len() {
        push_said(alloc, said, vars, j, acts)?;
    }
    Ok(())
}

/// All that a transition says: the guard, and then the acts.
fn transition_comparisons(
    alloc: Global,
    vars: &[Name],
    transition: &TransTree,
) -> Result<Vec<Comparison>, AllocError>
    requires { length vars.now ≤ 7 }
    ensures { IfOk result (λ v. v.items ≡ automata.transition_comparisons vars.now transition.now) }
{
    let mut said = Vec::new(alloc);
    push_constraints(alloc, &mut said, vars, transition.guard())?;
    push_acts(alloc, &mut said, vars, transition.acts())?;
    Ok(said)
}

/// The rows of a transition, over the values before and then the values after: the guard's, and then, by variable, what the
/// acts say. A variable that no act names keeps its value.
///
/// `Passes` only where a number on the way to a row passes 128 bits; where one does, there are no rows.
pub fn transition_rows(
    alloc: Global,
    vars: &[Name],
    transition: &TransTree,
) -> Result<Vec<Row>, RowFault>
    requires { length vars.now ≤ 7 }
    ensures ok { IfOk result (λ v. v.items ≡ flat_map (constraints.comparison_rows (length vars.now + length vars.now)) (automata.transition_comparisons vars.now transition.now)) }
    ensures kept { IfOk result (λ v. transition_passes vars.now transition.now ≡ false) }
    ensures passes { result ≡ Err RowFault.Passes → IsTrue (transition_passes vars.now transition.now) }
{
    let said = transition_comparisons(alloc, vars, transition)?;
    rows_of(alloc, vars.len() + vars.len(), said.as_slice())
}
