//! What a session remembers of its gaps.

ghost use Rattle.std.specs.Prelude.{◌≡◌, is_some};
ghost use Rattle.std.specs.Arc.{arc_value};
ghost use Rattle.run_specs.specs.Automaton.{width};
ghost use Rattle.run_specs.specs.SessionHistories.{IsHistory, opening_states};
ghost use Rattle.gap_keys.specs.Views.{AreWide, states_of};
ghost use Rattle.live_session.specs.Entries.{entries_of};

use crate::relation::GapRelation;
use gap_keys::Belief;
use lha_model::Automaton;
use std::marker::Model;
use std::sync::Arc;
use succ_memo::Held;

/// What a session remembers: the states at its opening, unless forming them passed 128 bits, and an
/// entry for each gap until none was wanted.
///
/// Each entry's key has the session's automaton and number of jumps, and the states that the entry
/// before leaves. Only a session makes one.
#[derive(Drop)]
pub struct History<'a> {
    pub(crate) automaton: &'a Arc<Automaton>,
    pub(crate) jumps: u8,
    pub(crate) opened: bool,
    pub(crate) opening: &'a Belief,
    pub(crate) gaps: &'a [Arc<Held<GapRelation>>],
}

impl<'a> Model for History<'a> {
    ghost use Rattle.std.specs.Arc.{arc_value};
    ghost use Rattle.run_specs.specs.SessionHistories.{SessionHistory};
    ghost use Rattle.live_session.specs.Entries.{entries_of, history_of, KeepsHistory};

    ghost Value = { SessionHistory };

    ghost view = { λ h. history_of (arc_value h.automaton.now) h.jumps h.opened h.opening.now (entries_of h.gaps.now) };

    ghost invariant = { λ h. KeepsHistory h.opening.now (history_of (arc_value h.automaton.now) h.jumps h.opened h.opening.now (entries_of h.gaps.now)) };
}

impl<'a> History<'a> {
    /// The automaton.
    pub fn automaton(&self) -> &'a Arc<Automaton>
        ensures value { arc_value result.now ≡ self.now.automaton }
        ensures kept { IsHistory self.now }
    {
        self.automaton
    }

    /// How many jumps each gap may have.
    pub fn jumps(&self) -> u8
        ensures value { result ≡ self.now.jumps }
        ensures kept { IsHistory self.now }
    {
        self.jumps
    }

    /// Whether the states at the opening are known: forming them did not pass 128 bits.
    pub fn opened(&self) -> bool
        ensures value { result ≡ is_some self.now.opening }
        ensures kept { IsHistory self.now }
    {
        self.opened
    }

    /// The states at the opening; none where they are not known. Their systems are over the automaton's
    /// variables.
    pub fn opening(&self) -> &'a Belief
        ensures value { states_of result.now ≡ opening_states self.now }
        ensures wide { AreWide (width self.now.automaton) result.now }
        ensures kept { IsHistory self.now }
    {
        self.opening
    }

    /// The entries of the gaps, the first one first.
    pub fn gaps(&self) -> &'a [Arc<Held<GapRelation>>]
        ensures value { entries_of result.now ≡ self.now.gaps }
        ensures kept { IsHistory self.now }
    {
        self.gaps
    }
}
