// One gap of a model of two locations is taken ten thousand times: from where runs may stand after the sample of 6 at time 4 to the
// sample of 6 at time 10, with at most 2 jumps.
use crate::rows::row_of;
use frac128::Frac;
use lha_model::{Automaton, Loc, Name, Trans};
use lin_row::Row;
use sample_succ::{Belief, Key, Outcome, opening, step};
use std::alloc::Global;
use std::sync::Arc;

const ROUNDS: u32 = 10_000;

/// Most jumps in a gap.
const JUMPS: u8 = 2;

/// A row by its coefficients and its constant.
type Given<'a> = (&'a [i128], i128);

// x = 0, x <= 10, x >= 8
const ZERO: &[Given<'_>] = &[(&[1], 0), (&[-1], 0)];

const TO_TEN: &[Given<'_>] = &[(&[1], -10)];

const FROM_EIGHT: &[Given<'_>] = &[(&[-1], 8)];

// slopes from -1 to 2, and from -1 to 1
const UP: &[Given<'_>] = &[(&[1, -2], 0), (&[-1, -1], 0)];

const AROUND: &[Given<'_>] = &[(&[1, -1], 0), (&[-1, -1], 0)];

// x >= 8, or x <= 9, and x stays
const ENTER: &[Given<'_>] = &[(&[-1, 0], 8), (&[1, -1], 0), (&[-1, 1], 0)];

const LEAVE: &[Given<'_>] = &[(&[1, 0], -9), (&[1, -1], 0), (&[-1, 1], 0)];

fn rows(alloc: Global, given: &[Given<'_>]) -> Option<Vec<Row>> {
    let mut made = Vec::new(alloc);
    for (coef, cst) in given {
        made.push(row_of(alloc, coef, *cst)?).ok()?;
    }
    Some(made)
}

fn transition(alloc: Global, from: u8, to: u8, relation: &[Given<'_>]) -> Option<Trans> {
    let name = Name::make(alloc, "jump")?;
    Some(Trans::new(name, from, to, rows(alloc, relation)?))
}

/// The safe location, where runs start at 0.
fn safe(alloc: Global) -> Option<Loc> {
    let (init, inv, flow) = (rows(alloc, ZERO)?, rows(alloc, TO_TEN)?, rows(alloc, UP)?);
    Some(Loc::new(Name::make(alloc, "ok")?, false, Some(init), inv, flow))
}

/// The unsafe location.
fn high(alloc: Global) -> Option<Loc> {
    let (inv, flow) = (rows(alloc, FROM_EIGHT)?, rows(alloc, AROUND)?);
    Some(Loc::new(Name::make(alloc, "high")?, true, None, inv, flow))
}

fn automaton(alloc: Global) -> Option<Automaton> {
    let vars = vec![in alloc; Name::make(alloc, "x")?].ok()?;
    let obs = vec![in alloc; Frac::make(0, 1)].ok()?;
    let locs = vec![in alloc; safe(alloc)?, high(alloc)?].ok()?;
    let enter = transition(alloc, 0, 1, ENTER)?;
    let leave = transition(alloc, 1, 0, LEAVE)?;
    let trans = vec![in alloc; enter, leave].ok()?;
    Automaton::make(Name::make(alloc, "tank")?, vars, obs, locs, trans)
}

/// The key of a gap of this length, after which the value is observed.
fn key(alloc: Global, a: &Arc<Automaton>, belief: Belief, gap: Frac, value: Frac) -> Option<Key> {
    let seen = vec![in alloc; Some(value)].ok()?;
    Key::make(Arc::try_clone(a).ok()?, JUMPS, belief, gap, seen)
}

/// The states after the gap of this key.
fn after(alloc: Global, key: &Key) -> Option<Belief> {
    let Outcome::Next(next) = step(alloc, key).ok()? else {
        return None
    };
    let mut states = Vec::new(alloc);
    for item in next.items() {
        states.push(item.state().copy(alloc).ok()?).ok()?;
    }
    Some(Belief::new(states))
}

/// The key of the gap that is timed.
fn timed_key(alloc: Global) -> Option<Key> {
    let a = Arc::new(alloc, automaton(alloc)?).ok()?;
    let (zero, four, six) = (Frac::make(0, 1), Frac::make(4, 1), Frac::make(6, 1));
    let start = opening(alloc, &a).ok()?;
    let at_zero = after(alloc, &key(alloc, &a, start, zero, zero)?)?;
    let at_four = after(alloc, &key(alloc, &a, at_zero, four, six)?)?;
    key(alloc, &a, at_four, six, six)
}

/// How many states are after the gap. One that lacks memory has none.
fn count_after(alloc: Global, key: &Key) -> usize {
    match step(alloc, key) {
        Ok(Outcome::Next(next)) => next.items().len(),
        Ok(Outcome::Overflow) => 0,
        Err(_) => 0,
    }
}

/// How many states there were after the gaps, and how many gaps. `None` where memory is wanted for the model.
pub(crate) fn timed(alloc: Global) -> Option<(usize, u32)> {
    let key = timed_key(alloc)?;
    let mut count = 0usize;
    for _ in 0..ROUNDS {
        count = count.wrapping_add(count_after(alloc, &key));
    }
    Some((count, ROUNDS))
}
