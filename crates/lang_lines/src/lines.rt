//! Reads what stands behind the first word of a line, whatever word it is.

ghost use Rattle.std.specs.Prelude.{◌≡◌, map, IsTrue, IfOk, IfErr};
ghost use Rattle.lang_specs.specs.declared.Kind.TheVariants as kinds;
ghost use Rattle.lang_tokens.specs.LineFaults.{marks, AreLiterals};
ghost use Rattle.lang_tokens.specs.Places.{placed_of};
ghost use Rattle.lang_lines.specs.Lines.{says, HasLine, begins_statement, IsRead, IsBodyFault};

use crate::lists::{bounds, boxes, invariants, slopes, starts, transition, variables};
use crate::short::line_short;
use crate::statements::Line;
use lang_specs::Kind;
use lang_tokens::{LineFault, Token};
use std::alloc::Global;

/// What the tokens of a line say behind its first word, in the second version or in the first.
///
/// The word begins a statement; `obs` does so in the second version only. The line ends with its last token.
///
/// # Errors
/// The first fault of the line: the column of the token that nothing allows behind those before it, or a limit that a token
/// passes; or that memory ran out.
pub fn line_body<'a>(
    alloc: Global,
    second: bool,
    line: u32,
    word: Kind,
    tokens: &[Token<'a>],
) -> Result<Line, LineFault>
    requires literals { AreLiterals (marks (map (placed_of line) tokens.now)) }
    requires word { IsTrue (begins_statement word) }
    requires version { word ≡ kinds.Obs → IsTrue second }
    ensures ok { IfOk result (λ s. IsRead second word (marks (map (placed_of line) tokens.now)) (says s)) }
    ensures line { IfOk result (λ s. HasLine line s) }
    ensures fault { IfErr result (IsBodyFault second line word (map (placed_of line) tokens.now)) }
{
    match word {
        Kind::Lha | Kind::Automaton | Kind::Loc | Kind::End => {
            line_short(alloc, line, word, tokens)
        }
        Kind::Var => variables(alloc, line, tokens),
        Kind::Obs => bounds(alloc, line, tokens),
        Kind::Init => starts(alloc, second, line, tokens),
        Kind::Inv => invariants(alloc, second, line, tokens),
        Kind::Flow => boxes(alloc, line, tokens),
        Kind::Also => slopes(alloc, line, tokens),
        Kind::Trans => transition(alloc, second, line, tokens),
        _ => unreachable!(),
    }
}
