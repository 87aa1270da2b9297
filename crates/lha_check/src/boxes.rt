//! The boxes of a location.

ghost use Rattle.std.specs.Prelude.{◌≡◌, [], map, bytes_eq, OnOk, IfErr};
ghost use Rattle.std.specs.List.{list_any};
ghost use Rattle.model_specs.specs.Faults as faults;
ghost use Rattle.lha_check.specs.Told.{IsFirst};
ghost use Rattle.lha_check.specs.Elements.{box_faults};

use crate::CheckFault;
use crate::names::{are_same, known_once};
use lang_trees::BoxTree;
use lha_model::Name;

/// Whether one of the boxes is of the variable.
fn has_box(boxes: &[BoxTree], var: &Name) -> bool
    ensures { result ≡ list_any (λ b. bytes_eq b.var var.now) boxes.now }
{
    boxes.iter().any(|bounds| are_same(bounds.var(), var))
}

/// Refuses boxes that leave out a variable.
pub(crate) fn each_has_box(line: u32, boxes: &[BoxTree], vars: &[Name]) -> Result<(), CheckFault>
    ensures none { OnOk result (faults.missing_slope line boxes.now vars.now ≡ []) }
    ensures fault { IfErr result (IsFirst (faults.missing_slope line boxes.now vars.now)) }
{
    for var in vars {
        if !has_box(boxes, var) {
            return Err(CheckFault::MissingSlope {
                line,
                name: var.copy(),
            });
        }
    }
    Ok(())
}

/// Whether the least slope is above the greatest.
fn is_empty(bounds: &BoxTree) -> bool
    ensures { result ≡ faults.is_empty_box bounds.now }
{
    bounds.hi().cmp(bounds.lo()).is_lt()
}

/// Refuses an empty box.
fn not_empty(line: u32, bounds: &BoxTree) -> Result<(), CheckFault>
    ensures none { OnOk result (faults.if_so (faults.is_empty_box bounds.now) (faults.EmptyBox line bounds.now.var) ≡ []) }
    ensures fault { IfErr result (IsFirst (faults.if_so (faults.is_empty_box bounds.now) (faults.EmptyBox line bounds.now.var))) }
{
    if is_empty(bounds) {
        return Err(CheckFault::EmptyBox {
            line,
            name: bounds.var().copy(),
        });
    }
    Ok(())
}

/// Checks a box that stands after others.
fn check_box(
    line: u32,
    vars: &[Name],
    before: &[BoxTree],
    bounds: &BoxTree,
) -> Result<(), CheckFault>
    ensures none { OnOk result (box_faults line vars.now (map (λ b. b.var) before.now) bounds.now ≡ []) }
    ensures fault { IfErr result (IsFirst (box_faults line vars.now (map (λ b. b.var) before.now) bounds.now)) }
{
    let var = bounds.var();
    known_once(line, vars, has_box(before, var), var)?;
    not_empty(line, bounds)
}

/// Checks that each box is of a variable, each variable has one at most, and none is empty.
pub(crate) fn check_boxes(line: u32, vars: &[Name], boxes: &[BoxTree]) -> Result<(), CheckFault>
    ensures none { OnOk result (faults.boxes_faults line vars.now [] boxes.now ≡ []) }
    ensures fault { IfErr result (IsFirst (faults.boxes_faults line vars.now [] boxes.now)) }
{
    for i in 0..boxes.len() {
        let bounds = &boxes[i];
        check_box(line, vars, &boxes[..i], bounds)?;
    }
    Ok(())
}
