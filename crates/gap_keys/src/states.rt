//! The states where runs may stand.

ghost use Rattle.std.specs.Prelude.{◌≡◌, IfOk};
ghost use Rattle.poly_specs.specs.Systems.{IsKeptSystem};
ghost use Rattle.gap_keys.specs.Views.{system_of};

use fm_eliminate::System;
use std::alloc::{AllocError, Global};
use std::marker::Model;

/// Where a run may stand: a location, whether a run to here visited an unsafe one, and the system of
/// the values.
///
/// A contract sees the state of the definitions, and for how many columns its system was made.
#[derive(Debug, Drop)]
pub struct State {
    loc: u8,
    seen_unsafe: bool,
    system: System,
}

impl Model for State {
    ghost use Rattle.gap_keys.specs.Views.{StateView};

    ghost Value = { StateView };

    ghost view = { λ s. record { state = record { loc = s.loc; seen_unsafe = s.seen_unsafe; rows = s.system.rows }; width = s.system.width } };
}

impl State {
    /// A state of these fields. Takes no memory.
    pub fn new(loc: u8, seen_unsafe: bool, system: System) -> State
        ensures { result ≡ record { state = record { loc = loc; seen_unsafe = seen_unsafe; rows = system.rows }; width = system.width } }
    {
        State {
            loc,
            seen_unsafe,
            system,
        }
    }

    /// The number of its location.
    pub fn loc(&self) -> u8
        ensures { result ≡ self.now.state.loc }
    {
        self.loc
    }

    /// Whether a run to here visited an unsafe location.
    pub fn seen_unsafe(&self) -> bool
        ensures { result ≡ self.now.state.seen_unsafe }
    {
        self.seen_unsafe
    }

    /// The system of the values.
    pub fn system(&self) -> &System
        ensures value { result.now ≡ system_of self.now }
        ensures kept { IsKeptSystem result.now }
    {
        self.system.width();
        &self.system
    }

    /// The same state.
    pub fn copy(&self, alloc: Global) -> Result<State, AllocError>
        ensures { IfOk result (λ s. s ≡ self.now) }
    {
        let system = self.system.copy(alloc)?;
        Ok(State::new(self.loc, self.seen_unsafe, system))
    }
}

/// The states where runs may stand, in order.
#[derive(Debug, Drop)]
pub struct Belief {
    states: Vec<State>,
}

impl Model for Belief {
    ghost use Rattle.std.specs.Prelude.{List};
    ghost use Rattle.gap_keys.specs.Views.{StateView};

    ghost Value = { List StateView };

    ghost view = { λ b. b.states.items };
}

impl Belief {
    /// A belief of these states. Takes no memory.
    pub fn new(states: Vec<State>) -> Belief
        ensures { result ≡ states.items }
    {
        Belief { states }
    }

    /// The states, the first one first.
    pub fn states(&self) -> &[State]
        ensures { result.now ≡ self.now }
    {
        self.states.as_slice()
    }

    /// The same belief.
    pub fn copy(&self, alloc: Global) -> Result<Belief, AllocError>
        ensures { IfOk result (λ b. b ≡ self.now) }
    {
        let states = copied(alloc, self.states())?;
        Ok(Belief::new(states))
    }
}

fn copied(alloc: Global, states: &[State]) -> Result<Vec<State>, AllocError>
    ensures { IfOk result (λ v. v.items ≡ states.now) }
{
    let mut copies = Vec::with_capacity(alloc, states.len())?;
    for state in states {
        copies.push_reserved(state.copy(alloc)?);
    }
    Ok(copies)
}
