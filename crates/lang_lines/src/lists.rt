//! Reads lines that hold a list, and lines of transitions.

ghost use Rattle.std.specs.Prelude.{Bool, map, IsTrue, IfOk, IfErr};
ghost use Rattle.lang_specs.specs.declared.Kind.TheVariants as kinds;
ghost use Rattle.lang_tokens.specs.LineFaults.{marks, AreLiterals};
ghost use Rattle.lang_tokens.specs.Places.{placed_of};
ghost use Rattle.lang_lines.specs.Lines.{says, HasLine, IsRead, IsBodyFault};

use crate::statements::Line;
use lang_lists::{line_bounds, line_boxes, line_names};
use lang_rows::line_rows;
use lang_tokens::{LineFault, Token};
use lang_transitions::line_transition;
use std::alloc::Global;

/// The variables behind `var`.
pub(crate) fn variables<'a>(
    alloc: Global,
    line: u32,
    tokens: &[Token<'a>],
) -> Result<Line, LineFault>
    requires { AreLiterals (marks (map (placed_of line) tokens.now)) }
    ensures ok { IfOk result (λ s. (second : Bool) → IsRead second kinds.Var (marks (map (placed_of line) tokens.now)) (says s)) }
    ensures line { IfOk result (λ s. HasLine line s) }
    ensures fault { IfErr result (λ e. (second : Bool) → IsBodyFault second line kinds.Var (map (placed_of line) tokens.now) e) }
{
    let names = line_names(alloc, line, tokens)?;
    Ok(Line::Vars(names))
}

/// The bounds behind `obs`, in the second version.
pub(crate) fn bounds<'a>(alloc: Global, line: u32, tokens: &[Token<'a>]) -> Result<Line, LineFault>
    requires { AreLiterals (marks (map (placed_of line) tokens.now)) }
    ensures ok { IfOk result (λ s. (second : Bool) → IsTrue second → IsRead second kinds.Obs (marks (map (placed_of line) tokens.now)) (says s)) }
    ensures line { IfOk result (λ s. HasLine line s) }
    ensures fault { IfErr result (λ e. (second : Bool) → IsTrue second → IsBodyFault second line kinds.Obs (map (placed_of line) tokens.now) e) }
{
    let bounds = line_bounds(alloc, line, tokens)?;
    Ok(Line::Obs(bounds))
}

/// The constraints behind `init`.
pub(crate) fn starts<'a>(
    alloc: Global,
    second: bool,
    line: u32,
    tokens: &[Token<'a>],
) -> Result<Line, LineFault>
    requires { AreLiterals (marks (map (placed_of line) tokens.now)) }
    ensures ok { IfOk result (λ s. IsRead second kinds.Init (marks (map (placed_of line) tokens.now)) (says s)) }
    ensures line { IfOk result (λ s. HasLine line s) }
    ensures fault { IfErr result (IsBodyFault second line kinds.Init (map (placed_of line) tokens.now)) }
{
    let rows = line_rows(alloc, second, line, tokens)?;
    Ok(Line::Init(rows))
}

/// The constraints behind `inv`.
pub(crate) fn invariants<'a>(
    alloc: Global,
    second: bool,
    line: u32,
    tokens: &[Token<'a>],
) -> Result<Line, LineFault>
    requires { AreLiterals (marks (map (placed_of line) tokens.now)) }
    ensures ok { IfOk result (λ s. IsRead second kinds.Inv (marks (map (placed_of line) tokens.now)) (says s)) }
    ensures line { IfOk result (λ s. HasLine line s) }
    ensures fault { IfErr result (IsBodyFault second line kinds.Inv (map (placed_of line) tokens.now)) }
{
    let rows = line_rows(alloc, second, line, tokens)?;
    Ok(Line::Inv(rows))
}

/// The boxes behind `flow`.
pub(crate) fn boxes<'a>(alloc: Global, line: u32, tokens: &[Token<'a>]) -> Result<Line, LineFault>
    requires { AreLiterals (marks (map (placed_of line) tokens.now)) }
    ensures ok { IfOk result (λ s. (second : Bool) → IsRead second kinds.Flow (marks (map (placed_of line) tokens.now)) (says s)) }
    ensures line { IfOk result (λ s. HasLine line s) }
    ensures fault { IfErr result (λ e. (second : Bool) → IsBodyFault second line kinds.Flow (map (placed_of line) tokens.now) e) }
{
    let boxes = line_boxes(alloc, line, tokens)?;
    Ok(Line::Flow(boxes))
}

/// The constraints behind `also`, of which none is strict.
pub(crate) fn slopes<'a>(alloc: Global, line: u32, tokens: &[Token<'a>]) -> Result<Line, LineFault>
    requires { AreLiterals (marks (map (placed_of line) tokens.now)) }
    ensures ok { IfOk result (λ s. (second : Bool) → IsRead second kinds.Also (marks (map (placed_of line) tokens.now)) (says s)) }
    ensures line { IfOk result (λ s. HasLine line s) }
    ensures fault { IfErr result (λ e. (second : Bool) → IsBodyFault second line kinds.Also (map (placed_of line) tokens.now) e) }
{
    let rows = line_rows(alloc, false, line, tokens)?;
    Ok(Line::Also(rows))
}

/// The transition behind `trans`.
pub(crate) fn transition<'a>(
    alloc: Global,
    second: bool,
    line: u32,
    tokens: &[Token<'a>],
) -> Result<Line, LineFault>
    requires { AreLiterals (marks (map (placed_of line) tokens.now)) }
    ensures ok { IfOk result (λ s. IsRead second kinds.Trans (marks (map (placed_of line) tokens.now)) (says s)) }
    ensures line { IfOk result (λ s. HasLine line s) }
    ensures fault { IfErr result (IsBodyFault second line kinds.Trans (map (placed_of line) tokens.now)) }
{
    let tree = line_transition(alloc, second, line, tokens)?;
    Ok(Line::Trans(tree))
}
