//! The variables that expressions and constraints name.

ghost use Rattle.std.specs.Prelude.{◌≡◌, ◌++◌, [], OnOk, IfErr};
ghost use Rattle.model_specs.specs.Faults as faults;
ghost use Rattle.lha_check.specs.Told.{IsFirst};
ghost use Rattle.lha_check.specs.Elements.{term_faults};

use crate::CheckFault;
use crate::names::known;
use lang_trees::{RowTree, Term};
use lha_model::Name;

/// Refuses a term of an unknown variable.
fn known_in_term(line: u32, vars: &[Name], term: &Term) -> Result<(), CheckFault>
    ensures none { OnOk result (term_faults line vars.now term.now ≡ []) }
    ensures fault { IfErr result (IsFirst (term_faults line vars.now term.now)) }
{
    match term.var() {
        None => Ok(()),
        Some(var) => known(line, vars, var),
    }
}

/// Refuses an expression that names an unknown variable.
pub(crate) fn known_in_terms(line: u32, vars: &[Name], terms: &[Term]) -> Result<(), CheckFault>
    ensures none { OnOk result (faults.unknown_in line vars.now terms.now ≡ []) }
    ensures fault { IfErr result (IsFirst (faults.unknown_in line vars.now terms.now)) }
{
    for term in terms {
        known_in_term(line, vars, term)?;
    }
    Ok(())
}

/// Refuses two expressions that name an unknown variable.
pub(crate) fn known_in_both(
    line: u32,
    vars: &[Name],
    left: &[Term],
    right: &[Term],
) -> Result<(), CheckFault>
    ensures none { OnOk result (faults.unknown_in line vars.now left.now ++ faults.unknown_in line vars.now right.now ≡ []) }
    ensures fault { IfErr result (IsFirst (faults.unknown_in line vars.now left.now ++ faults.unknown_in line vars.now right.now)) }
{
    known_in_terms(line, vars, left)?;
    known_in_terms(line, vars, right)
}

/// Refuses a constraint that names an unknown variable.
fn known_in_row(line: u32, vars: &[Name], row: &RowTree) -> Result<(), CheckFault>
    ensures none { OnOk result (faults.unknown_in line vars.now row.now.left ++ faults.unknown_in line vars.now row.now.right ≡ []) }
    ensures fault { IfErr result (IsFirst (faults.unknown_in line vars.now row.now.left ++ faults.unknown_in line vars.now row.now.right)) }
{
    known_in_both(line, vars, row.left().terms(), row.right().terms())
}

/// Refuses constraints that name an unknown variable.
pub(crate) fn known_in_rows(line: u32, vars: &[Name], rows: &[RowTree]) -> Result<(), CheckFault>
    ensures none { OnOk result (faults.unknown_in_rows line vars.now rows.now ≡ []) }
    ensures fault { IfErr result (IsFirst (faults.unknown_in_rows line vars.now rows.now)) }
{
    for row in rows {
        known_in_row(line, vars, row)?;
    }
    Ok(())
}
