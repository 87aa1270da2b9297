//! The statements of rows in a location.

ghost use Rattle.std.specs.Prelude.{◌≡◌, [], length, option_map, IfOk, OnOk, IfErr};
ghost use Rattle.model_specs.specs.Automata as automata;
ghost use Rattle.model_specs.specs.Faults as faults;
ghost use Rattle.lha_check.specs.Told.{IsFirst};
ghost use Rattle.lha_check.specs.Elements.{standing_passes, standing_faults, also_line, also_unknown, also_passes, IsSmall};

use crate::CheckFault;
use crate::expressions::known_in_rows;
use crate::faults::row_fault;
use lang_trees::{LocTree, RowsTree, Tree};
use lin_row::Row;
use model_rows::{constraint_rows, slope_rows};
use std::alloc::Global;

/// Forms the rows of an `init` or `inv`.
fn formed(alloc: Global, tree: &Tree, statement: &RowsTree) -> Result<Vec<Row>, CheckFault>
    requires { IsSmall tree.now }
    ensures value { IfOk result (λ v. v.items ≡ automata.constraint_rows tree.now.vars (length tree.now.vars) statement.now.rows) }
    ensures none { IfOk result (λ v. standing_passes tree.now statement.now ≡ []) }
    ensures fault { IfErr result (IsFirst (standing_passes tree.now statement.now)) }
{
    let vars = tree.vars();
    match constraint_rows(alloc, vars, vars.len(), statement.rows()) {
        Ok(rows) => Ok(rows),
        Err(fault) => Err(row_fault(fault, statement.line(), tree.name())),
    }
}

/// Refuses a statement that names an unknown variable.
fn known_in_statement(tree: &Tree, statement: &RowsTree) -> Result<(), CheckFault>
    ensures none { OnOk result (faults.unknown_in_rows statement.now.line tree.now.vars statement.now.rows ≡ []) }
    ensures fault { IfErr result (IsFirst (faults.unknown_in_rows statement.now.line tree.now.vars statement.now.rows)) }
{
    known_in_rows(statement.line(), tree.vars(), statement.rows())
}

/// The rows of an `init` or `inv`.
fn standing(alloc: Global, tree: &Tree, statement: &RowsTree) -> Result<Vec<Row>, CheckFault>
    requires { IsSmall tree.now }
    ensures value { IfOk result (λ v. v.items ≡ automata.constraint_rows tree.now.vars (length tree.now.vars) statement.now.rows) }
    ensures none { IfOk result (λ v. standing_faults tree.now statement.now ≡ []) }
    ensures fault { IfErr result (IsFirst (standing_faults tree.now statement.now)) }
{
    known_in_statement(tree, statement)?;
    formed(alloc, tree, statement)
}

/// The rows of a location's `init`; `None` where it does not stand.
pub(crate) fn init_rows(
    alloc: Global,
    tree: &Tree,
    loc: &LocTree,
) -> Result<Option<Vec<Row>>, CheckFault>
    requires { IsSmall tree.now }
    ensures value { IfOk result (λ v. option_map (λ rows. rows.items) v ≡ automata.init_rows tree.now.vars loc.now.init) }
    ensures none { IfOk result (λ v. faults.rows_faults tree.now loc.now.init ≡ []) }
    ensures fault { IfErr result (IsFirst (faults.rows_faults tree.now loc.now.init)) }
{
    match loc.init() {
        None => Ok(None),
        Some(init) => {
            let rows = standing(alloc, tree, init)?;
            Ok(Some(rows))
        }
    }
}

/// The rows of a location's `inv`; none where it does not stand.
pub(crate) fn invariant_rows(
    alloc: Global,
    tree: &Tree,
    loc: &LocTree,
) -> Result<Vec<Row>, CheckFault>
    requires { IsSmall tree.now }
    ensures value { IfOk result (λ v. v.items ≡ automata.invariant_rows tree.now.vars loc.now.inv) }
    ensures none { IfOk result (λ v. faults.rows_faults tree.now loc.now.inv ≡ []) }
    ensures fault { IfErr result (IsFirst (faults.rows_faults tree.now loc.now.inv)) }
{
    match loc.inv() {
        None => Ok(Vec::new(alloc)),
        Some(inv) => standing(alloc, tree, inv),
    }
}

/// The line of a location's `also`; 0 where it does not stand.
fn also_line(loc: &LocTree) -> u32
    ensures { result ≡ also_line loc.now.also }
{
    match loc.also() {
        None => 0,
        Some(also) => also.line(),
    }
}

/// Refuses an `also` that names an unknown variable.
fn known_in_also(tree: &Tree, loc: &LocTree) -> Result<(), CheckFault>
    ensures none { OnOk result (also_unknown tree.now loc.now.also ≡ []) }
    ensures fault { IfErr result (IsFirst (also_unknown tree.now loc.now.also)) }
{
    match loc.also() {
        None => Ok(()),
        Some(also) => known_in_statement(tree, also),
    }
}

/// Forms the rows of a location's slopes.
fn formed_slopes(alloc: Global, tree: &Tree, loc: &LocTree) -> Result<Vec<Row>, CheckFault>
    requires { IsSmall tree.now }
    ensures value { IfOk result (λ v. v.items ≡ automata.slope_rows tree.now.vars loc.now) }
    ensures none { IfOk result (λ v. also_passes tree.now loc.now.also ≡ []) }
    ensures fault { IfErr result (IsFirst (also_passes tree.now loc.now.also)) }
{
    match slope_rows(alloc, tree.vars(), loc) {
        Ok(rows) => Ok(rows),
        Err(fault) => Err(row_fault(fault, also_line(loc), tree.name())),
    }
}

/// The rows of a location's slopes, of which `also` is checked.
pub(crate) fn checked_slopes(
    alloc: Global,
    tree: &Tree,
    loc: &LocTree,
) -> Result<Vec<Row>, CheckFault>
    requires { IsSmall tree.now }
    ensures value { IfOk result (λ v. v.items ≡ automata.slope_rows tree.now.vars loc.now) }
    ensures none { IfOk result (λ v. faults.also_faults tree.now loc.now.also ≡ []) }
    ensures fault { IfErr result (IsFirst (faults.also_faults tree.now loc.now.also)) }
{
    known_in_also(tree, loc)?;
    formed_slopes(alloc, tree, loc)
}
