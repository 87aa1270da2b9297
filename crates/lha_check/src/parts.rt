//! The parts of an automaton, before it is made.

ghost use Rattle.std.specs.Prelude.{◌≡◌, map, IfOk};
ghost use Rattle.std.specs.Arc.{arc_value};
ghost use Rattle.run_specs.specs.WellFormed.{IsWellFormed};
ghost use Rattle.model_specs.specs.Automata as automata;

use crate::bounds::tolerances;
use frac128::Frac;
use lang_trees::Tree;
use lha_model::{Automaton, Loc, Name, Trans};
use std::alloc::{AllocError, Global};
use std::marker::Model;
use std::sync::Arc;

/// The parts of an automaton.
#[derive(Drop)]
pub(crate) struct Parts {
    name: Name,
    vars: Vec<Name>,
    obs: Vec<Frac>,
    locs: Vec<Loc>,
    trans: Vec<Trans>,
}

impl Model for Parts {
    ghost use Rattle.run_specs.specs.Automaton as automata;

    ghost Value = { automata.Automaton };

    ghost view = { λ a. record { name = a.name; variables = a.vars.items; obs = a.obs.items; locations = a.locs.items; transitions = a.trans.items } };
}

/// The same names.
fn copies(alloc: Global, names: &[Name]) -> Result<Vec<Name>, AllocError>
    ensures { IfOk result (λ v. v.items ≡ names.now) }
{
    let mut found = Vec::new(alloc);
    for name in names {
        found.push(name.copy())?;
    }
    Ok(found)
}

impl Parts {
    /// The parts that a tree says, with these locations and transitions.
    pub(crate) fn of_tree(
        alloc: Global,
        tree: &Tree,
        locs: Vec<Loc>,
        trans: Vec<Trans>,
    ) -> Result<Parts, AllocError>
        ensures { IfOk result (λ p. p ≡ record { name = tree.now.name; variables = tree.now.vars; obs = automata.tolerances tree.now; locations = locs.items; transitions = trans.items }) }
    {
        Ok(Parts {
            name: tree.name().copy(),
            vars: copies(alloc, tree.vars())?,
            obs: tolerances(alloc, tree)?,
            locs,
            trans,
        })
    }

    /// The automaton of these parts, which keep to the limits.
    fn automaton(self) -> Automaton
        requires { IsWellFormed self }
        ensures { result ≡ self }
    {
        Automaton::make(self.name, self.vars, self.obs, self.locs, self.trans).unwrap()
    }

    /// The automaton of these parts, to be shared.
    pub(crate) fn shared(self, alloc: Global) -> Result<Arc<Automaton>, AllocError>
        requires { IsWellFormed self }
        ensures { IfOk result (λ a. arc_value a ≡ self) }
    {
        Ok(Arc::new(alloc, self.automaton())?)
    }
}
