//! The automata of a model that a shelf has.
ghost use Rattle.std.specs.Prelude.{◌≡◌, ◌≤◌, ℕ, List, length, map, option_map, IfOk, IfErr, IfSome};
ghost use Rattle.std.specs.Arc.{arc_value};
ghost use Rattle.model_specs.specs.Automata.{HasOneOfEachName};
ghost use Rattle.text_specs.specs.ModelTexts.{fault_line};
ghost use Rattle.model_reader.specs.Told.{told_of};
ghost use Rattle.hamon_engine.specs.Models.{AreModelsOf, IsWhyNot, IsWhyRefused, LacksModels};

use lha_model::Automaton;
use model_reader::{ModelFault, read_automata};
use mon_io::{Shelf, ShelfFault};
use std::alloc::Global;
use std::sync::Arc;

/// The most bytes of a model's text: 2^20.
const MODEL_LIMIT: usize = 1 << 20;

/// Why there are no automata.
#[derive(Drop)]
pub(crate) enum NoModels {
    /// The text is refused, and this line tells why.
    Refused(Vec<u8>),
    /// The shelf failed.
    Failed,
    /// There was no memory.
    Memory,
}

/// What a fault of a text makes of a run.
fn refused(alloc: Global, fault: &ModelFault) -> NoModels
    ensures { IsWhyRefused fault.now result }
{
    match fault.line(alloc) {
        Ok(Some(line)) => NoModels::Refused(line),
        Ok(None) | Err(_) => NoModels::Memory,
    }
}

/// The automata of a text.
fn models_of(alloc: Global, text: &[u8]) -> Result<Vec<Arc<Automaton>>, NoModels>
    ensures models { IfOk result (λ v. AreModelsOf text.now (map (λ a. arc_value a) v.items)) }
    ensures some { IfOk result (λ v. 1 ≤ length v.items) }
    ensures why { IfErr result (IsWhyNot text.now) }
{
    match read_automata(alloc, text) {
        Ok(models) => Ok(models),
        Err(fault) => Err(refused(alloc, &fault)),
    }
}

/// The automata of the text that the shelf has under a name.
pub(crate) fn models_from<S: Shelf>(
    alloc: Global,
    shelf: &mut S,
    name: &str,
) -> Result<Vec<Arc<Automaton>>, NoModels>
    ensures models { IfOk result (λ v. IfSome (S.text shelf.old name.now) (λ text. AreModelsOf text (map (λ a. arc_value a) v.items))) }
    ensures some { IfOk result (λ v. 1 ≤ length v.items) }
    ensures names { IfOk result (λ v. HasOneOfEachName (map (λ a. arc_value a) v.items)) }
    ensures lack { IfErr result (LacksModels (S.text shelf.old name.now) (S.faults shelf.old) (S.faults shelf.new)) }
    ensures same { (other : List ℕ) → S.text shelf.new other ≡ S.text shelf.old other }
    ensures later { S.faults shelf.old ≤ S.faults shelf.new }
{
    match shelf.text(alloc, name, MODEL_LIMIT) {
        Ok(text) => models_of(alloc, &text),
        Err(ShelfFault::Long) => Err(refused(alloc, &ModelFault::Long)),
        Err(ShelfFault::Failed) => Err(NoModels::Failed),
        Err(ShelfFault::Memory) => Err(NoModels::Memory),
    }
}
