//! Texts of models, read into their automata.

ghost use Rattle.std.specs.Prelude.{◌≡◌, ◌≢◌, ◌≤◌, [], List, All, Some, length, map, IfOk, IfErr, MatchResult};
ghost use Rattle.std.specs.Arc.{arc_value};
ghost use Rattle.run_specs.specs.Automaton as automata;
ghost use Rattle.run_specs.specs.WellFormed.{IsWellFormed};
ghost use Rattle.model_specs.specs.Automata.{HasOneOfEachName};
ghost use Rattle.text_specs.specs.ModelTexts.{most_bytes, SaysAutomata, TextFault, HasFault};
ghost use Rattle.model_reader.specs.Told.{told_of, IsMemory, Tells};

use crate::ModelFault;
use lang_texts::read_models;
use lha_check::check;
use lha_model::Automaton;
use std::alloc::Global;
use std::sync::Arc;

/// The most bytes of a model's text.
const MOST_BYTES: usize = 1_048_576;

/// The automata of a text that is not too long, or what is wrong with it.
fn read_short(alloc: Global, text: &[u8]) -> Result<Vec<Arc<Automaton>>, ModelFault>
    requires { length text.now ≤ most_bytes }
    ensures automata { IfOk result (λ v. SaysAutomata text.now (map (λ a. arc_value a) v.items)) }
    ensures fault { IfErr result (λ e. (f : TextFault) → told_of e ≡ Some f → HasFault text.now f) }
{
    let trees = read_models(alloc, text)?;
    let automata = check(alloc, &trees)?;
    Ok(automata)
}

/// The automata or the fault of a text of any length.
fn read_text(alloc: Global, text: &[u8]) -> Result<Vec<Arc<Automaton>>, ModelFault>
    ensures automata { IfOk result (λ v. SaysAutomata text.now (map (λ a. arc_value a) v.items)) }
    ensures fault { IfErr result (λ e. (f : TextFault) → told_of e ≡ Some f → HasFault text.now f) }
{
    if text.len() > MOST_BYTES {
        return Err(ModelFault::Long);
    }
    read_short(alloc, text)
}

/// The automata that a model's text says, in the order of the text, or what is wrong with it.
///
/// There is at least one automaton; no two have one name, and in each no two variables and no two locations. A text has
/// automata or exactly one first fault, and what it has is told; `Memory` comes only where there is none. Takes time in
/// proportion to the text's length.
///
/// # Errors
///
/// `Long` where the text has more than 1,048,576 bytes, the first fault of any other text that says no automata, and
/// `Memory`.
pub fn read_automata(alloc: Global, text: &[u8]) -> Result<Vec<Arc<Automaton>>, ModelFault>
    ensures automata { IfOk result (λ v. SaysAutomata text.now (map (λ a. arc_value a) v.items)) }
    ensures some { IfOk result (λ v. v.items ≢ []) }
    ensures formed { IfOk result (λ v. All IsWellFormed (map (λ a. arc_value a) v.items)) }
    ensures names { IfOk result (λ v. HasOneOfEachName (map (λ a. arc_value a) v.items)) }
    ensures fault { IfErr result (λ e. (f : TextFault) → told_of e ≡ Some f → HasFault text.now f) }
    ensures found { (said : List automata.Automaton) → SaysAutomata text.now said → MatchResult result (λ v. map (λ a. arc_value a) v.items ≡ said) IsMemory }
    ensures first { (f : TextFault) → HasFault text.now f → MatchResult result (λ v. ⊥) (Tells f) }
{
    read_text(alloc, text)
}
