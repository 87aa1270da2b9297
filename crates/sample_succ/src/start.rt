//! The opening: the states where runs may start.

ghost use Rattle.std.specs.Prelude.{◌≡◌, ◌+◌, ◌<◌, ◌++◌, [], ◌∷◌, Some, None, Err, IfOk, OnOk, length};
ghost use Rattle.run_specs.specs.Automaton.{width};
ghost use Rattle.run_specs.specs.Openings.{IsOpening};
ghost use Rattle.run_specs.specs.Passes.{OpeningPasses};
ghost use Rattle.gap_keys.specs.Views.{AreWide, states_of};
ghost use Rattle.sample_succ.specs.Starts.{IsStart, AreStartsBefore};

use fm_eliminate::{RowFault, System};
use gap_keys::{Belief, State};
use lha_model::Automaton;
use lin_row::Row;
use poly_decide::is_empty;
use stage_rows::of_rows;
use std::alloc::{AllocError, Global};

fn add_copies(rows: &mut Vec<Row>, more: &[Row]) -> Result<(), AllocError>
    ensures { OnOk result (rows.new.items ≡ rows.old.items ++ more.now) }
{
    for row in more {
        rows.push(row.copy())?;
    }
    Ok(())
}

fn both(alloc: Global, first: &[Row], second: &[Row]) -> Result<Vec<Row>, AllocError>
    ensures { IfOk result (λ v. v.items ≡ first.now ++ second.now) }
{
    let mut rows = Vec::new(alloc);
    add_copies(&mut rows, first)?;
    add_copies(&mut rows, second)?;
    Ok(rows)
}

/// The state where runs may start in location number `l`; `None` where none may.
fn start_state(alloc: Global, a: &Automaton, l: u8) -> Result<Option<State>, RowFault>
    requires known { l < length a.now.locations }
    ensures ok { IfOk result (λ o. IsStart a.now l o) }
    ensures passes { result ≡ Err RowFault.Passes → OpeningPasses a.now }
{
    let place = &a.locs()[usize::from(l)];
    let Some(init) = place.init() else {
        return Ok(None);
    };
    let rows = both(alloc, init, place.inv())?;
    let system = of_rows(a.vars().len(), rows);
    if is_empty(alloc, &system)? {
        return Ok(None);
    }
    Ok(Some(State::new(l, false, system)))
}

/// Adds the state where runs may start in this location, if there is one.
fn add_start(alloc: Global, a: &Automaton, l: u8, states: &mut Vec<State>) -> Result<(), RowFault>
    requires known { l < length a.now.locations }
    requires before { AreStartsBefore a.now l states.old.items }
    ensures ok { OnOk result (AreStartsBefore a.now (l + 1) states.new.items) }
    ensures passes { result ≡ Err RowFault.Passes → OpeningPasses a.now }
{
    let state = start_state(alloc, a, l)?;
    match state {
        None => Ok(()),
        Some(state) => Ok(put(states, state)?),
    }
}

fn put(states: &mut Vec<State>, state: State) -> Result<(), AllocError>
    ensures { OnOk result (states.new.items ≡ states.old.items ++ state ∷ []) }
{
    states.push(state)?;
    Ok(())
}

/// The states where runs may start: one for each location that has `init` rows which hold
/// somewhere with its invariant, in order, without a mark. Their systems are over the automaton's
/// variables.
///
/// It says `RowFault::Passes` where a number that deciding so forms passes 128 bits.
pub fn opening(alloc: Global, a: &Automaton) -> Result<Belief, RowFault>
    ensures ok { IfOk result (λ b. IsOpening a.now (Some (states_of b))) }
    ensures wide { IfOk result (λ b. AreWide (width a.now) b) }
    ensures passes { result ≡ Err RowFault.Passes → IsOpening a.now None }
{
    let mut states = Vec::new(alloc);
    let count = a.locs().len() as u8;
    for l in 0..count {
        add_start(alloc, a, l, &mut states)?;
    }
    Ok(Belief::new(states))
}
