//! The automaton that a session is judged by.

ghost use Rattle.std.specs.Prelude.{◌≡◌, map, All, IfSome, IfNone, None, bytes_eq};
ghost use Rattle.std.specs.List.{IsDistinct};
ghost use Rattle.std.specs.Option.{option_map};
ghost use Rattle.std.specs.Arc.{arc_value};
ghost use Rattle.run_specs.specs.Automaton.{Automaton};
ghost use Rattle.log_specs.specs.LogSessions.{automaton_of, first_automaton};

use lha_model::{Automaton, Name};
use std::sync::Arc;

/// Whether the automaton has this name.
fn is_named(automaton: &Arc<Automaton>, name: &Name) -> bool
    ensures { result ≡ bytes_eq name.now (arc_value automaton.now).name }
{
    name.bytes() == automaton.name().bytes()
}

/// The first automaton of this name.
pub(crate) fn named<'a>(models: &'a [Arc<Automaton>], name: &Name) -> Option<&'a Arc<Automaton>>
    ensures { option_map (λ a. arc_value a.now) result ≡ automaton_of (map (λ a. arc_value a) models.now) name.now }
{
    match models {
        [] => None,
        [first, ..] if is_named(first, name) => Some(first),
        [_, rest @ ..] => named(rest, name),
    }
}

/// The first automaton.
pub(crate) fn first_of<'a>(models: &'a [Arc<Automaton>]) -> Option<&'a Arc<Automaton>>
    requires distinct { All (λ (a : Automaton). IsDistinct bytes_eq a.variables) (map (λ a. arc_value a) models.now) }
    ensures found { option_map (λ a. arc_value a.now) result ≡ first_automaton (map (λ a. arc_value a) models.now) }
    ensures distinct { IfSome result (λ a. IsDistinct bytes_eq (arc_value a.now).variables) }
{
    match models {
        [] => None,
        [first, ..] => Some(first),
    }
}
