//! Automata, and which parts make one.

ghost use Rattle.std.specs.Prelude.{◌≡◌, ◌↔◌, ◌+◌, ◌*◌, ◌<◌, ◌≤◌, All, length, pos, IsTrue, IsFalse, SomeIff, IfSome, option_map, ℕ};
ghost use Rattle.poly_specs.specs.Fractions.{AtMost, zero_fraction};
ghost use Rattle.poly_specs.specs.LowestTerms.{IsLowest};
ghost use Rattle.poly_specs.specs.Rows.{AllWide};
ghost use Rattle.run_specs.specs.Automaton as automata;
ghost use Rattle.run_specs.specs.Names.{is_name};
ghost use Rattle.run_specs.specs.WellFormed.{HasBox, IsLocation, IsTransition, IsWellFormed};

use crate::boxes::{are_slopes, are_wide};
use crate::names::Name;
use crate::places::{Loc, Trans};
use crate::sequences::Sequence;
use frac128::Frac;
use lin_row::Row;
use std::marker::Model;

/// A linear hybrid automaton within its limits.
///
/// It has 1 to 6 variables, 1 to 32 locations and at most 128 transitions, each between two of
/// its locations; a tolerance of at least 0 for each variable; rows of the widths that their
/// places ask for; and in each location, for each variable, the two rows that bound its slope.
#[derive(Debug, PartialEq, Eq, Hash, Drop)]
pub struct Automaton {
    name: Name,
    vars: Sequence<Name>,
    obs: Sequence<Frac>,
    locs: Sequence<Loc>,
    trans: Sequence<Trans>,
}

impl Model for Automaton {
    ghost use Rattle.run_specs.specs.Automaton as automata;
    ghost use Rattle.run_specs.specs.WellFormed.{IsWellFormed};

    ghost Value = { automata.Automaton };

    ghost view = { λ a. record { name = a.name; variables = a.vars; obs = a.obs; locations = a.locs; transitions = a.trans } };

    ghost invariant = { λ a. IsWellFormed (record { name = a.name; variables = a.vars; obs = a.obs; locations = a.locs; transitions = a.trans }) };

    ghost inverse = { λ a. record { name = a.name; vars = a.variables; obs = a.obs; locs = a.locations; trans = a.transitions } };
}

/// The most variables, locations and transitions.
const MOST_VARIABLES: usize = 6;

const MOST_LOCATIONS: usize = 32;

const MOST_TRANSITIONS: usize = 128;

/// Whether the numbers of variables, locations and transitions are within the limits.
fn are_counts(vars: usize, locs: usize, trans: usize) -> bool
    ensures { IsTrue result ↔ (1 ≤ vars) × (vars ≤ 6) × (1 ≤ locs) × (locs ≤ 32) × (trans ≤ 128) }
{
    (1..=MOST_VARIABLES).contains(&vars)
        && (1..=MOST_LOCATIONS).contains(&locs)
        && trans <= MOST_TRANSITIONS
}

/// Shows of each name that it is one, which its type keeps and a reader tells.
fn show_names(names: &[Name])
    ensures { All (λ x. IsTrue (is_name x)) names.now }
{
    for name in names {
        let _ = name.bytes();
    }
}

/// Whether it is a tolerance: at least 0.
fn is_tolerance(w: &Frac) -> bool
    ensures { IsTrue result ↔ (IsLowest w.now × AtMost zero_fraction w.now) }
{
    w.num() >= 0
}

/// Whether each is a tolerance.
fn are_tolerances(obs: &[Frac]) -> bool
    ensures { IsTrue result ↔ All (λ w. IsLowest w × AtMost zero_fraction w) obs.now }
{
    obs.iter().all(is_tolerance)
}

/// Whether the rows of a start, if there is one, have so many columns.
fn is_start(init: Option<&[Row]>, m: usize) -> bool
    ensures { IsTrue result ↔ IfSome (option_map (λ rows. rows.now) init.entry) (AllWide m) }
{
    match init {
        None => true,
        Some(rows) => are_wide(rows, m),
    }
}

/// Whether it is a location of an automaton of m variables.
fn is_location(loc: &Loc, m: usize) -> bool
    requires { m ≤ 6 }
    ensures { IsTrue result ↔ IsLocation m loc.now }
{
    // The reader tells that the name is one.
    let _ = loc.name().bytes();
    is_start(loc.init(), m) && are_wide(loc.inv(), m) && are_slopes(loc.flow(), m)
}

/// Whether each is a location of an automaton of m variables.
fn are_locations(locs: &[Loc], m: usize) -> bool
    requires { m ≤ 6 }
    ensures { IsTrue result ↔ All (IsLocation m) locs.now }
{
    locs.iter().all(|loc| is_location(loc, m))
}

/// Whether it is a transition of an automaton of m variables and n locations.
fn is_transition(e: &Trans, m: usize, n: usize) -> bool
    requires { m ≤ 6 }
    ensures { IsTrue result ↔ IsTransition m n e.now }
{
    // The reader tells that the label is a name.
    let _ = e.label().bytes();
    usize::from(e.from()) < n && usize::from(e.to()) < n && are_wide(e.rel(), m + m)
}

/// Whether each is a transition of an automaton of m variables and n locations.
fn are_transitions(trans: &[Trans], m: usize, n: usize) -> bool
    requires { m ≤ 6 }
    ensures { IsTrue result ↔ All (IsTransition m n) trans.now }
{
    trans.iter().all(|e| is_transition(e, m, n))
}

/// Whether these parts are those of an automaton within its limits.
fn is_well_formed(name: &Name, vars: &[Name], obs: &[Frac], locs: &[Loc], trans: &[Trans]) -> bool
    ensures { IsTrue result ↔ IsWellFormed (record { name = name.now; variables = vars.now; obs = obs.now; locations = locs.now; transitions = trans.now }) }
{
    // The readers tell that the names are names.
    let _ = name.bytes();
    show_names(vars);
    let (m, n) = (vars.len(), locs.len());
    are_counts(m, n, trans.len())
        && obs.len() == m
        && are_tolerances(obs)
        && are_locations(locs, m)
        && are_transitions(trans, m, n)
}

impl Automaton {
    /// The automaton of these parts; `None` exactly where one of the kept facts fails. Takes no memory.
    pub fn make(
        name: Name,
        vars: Vec<Name>,
        obs: Vec<Frac>,
        locs: Vec<Loc>,
        trans: Vec<Trans>,
    ) -> Option<Automaton>
        ensures { let a : automata.Automaton = record { name = name; variables = vars.items; obs = obs.items; locations = locs.items; transitions = trans.items } in
            SomeIff result (IsWellFormed a) a }
    {
        if !is_well_formed(&name, &vars, &obs, &locs, &trans) {
            return None;
        }
        Some(Automaton {
            name,
            vars: Sequence { items: vars },
            obs: Sequence { items: obs },
            locs: Sequence { items: locs },
            trans: Sequence { items: trans },
        })
    }

    /// Its name.
    pub fn name(&self) -> &Name
        ensures value { result.now ≡ self.now.name }
        ensures kept { IsWellFormed self.now }
    {
        &self.name
    }

    /// The names of its variables.
    pub fn vars(&self) -> &[Name]
        ensures value { result.now ≡ self.now.variables }
        ensures kept { IsWellFormed self.now }
    {
        self.vars.as_slice()
    }

    /// Of each variable: by how much an observed value may differ from the true one.
    pub fn obs(&self) -> &[Frac]
        ensures value { result.now ≡ self.now.obs }
        ensures kept { IsWellFormed self.now }
    {
        self.obs.as_slice()
    }

    /// Its locations.
    pub fn locs(&self) -> &[Loc]
        ensures value { result.now ≡ self.now.locations }
        ensures kept { IsWellFormed self.now }
    {
        self.locs.as_slice()
    }

    /// Its transitions.
    pub fn trans(&self) -> &[Trans]
        ensures value { result.now ≡ self.now.transitions }
        ensures kept { IsWellFormed self.now }
    {
        self.trans.as_slice()
    }
}
