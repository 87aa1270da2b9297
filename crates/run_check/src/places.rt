//! The places of an automaton, by their numbers.

ghost use Rattle.std.specs.Prelude.{◌≡◌, ◌<◌, ◌≤◌, length};
ghost use Rattle.run_specs.specs.Automaton.{width, location_at, transition_at};
ghost use Rattle.run_specs.specs.WellFormed.{IsLocation, IsTransition};

use lha_model::{Automaton, Loc, Trans};

/// The location of this number.
pub fn location(a: &Automaton, l: u8) -> &Loc
    requires { l < length a.now.locations }
    ensures value { result.now ≡ location_at a.now l }
    ensures kept { IsLocation (width a.now) result.now }
    ensures few { width a.now ≤ 6 }
{
    &a.locs()[usize::from(l)]
}

/// The transition of this number.
pub fn transition(a: &Automaton, e: u8) -> &Trans
    requires { e < length a.now.transitions }
    ensures value { result.now ≡ transition_at a.now e }
    ensures kept { IsTransition (width a.now) (length a.now.locations) result.now }
    ensures few { width a.now ≤ 6 }
{
    &a.trans()[usize::from(e)]
}
