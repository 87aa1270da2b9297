//! What entries leave and tell: the states after the last one, and the verdict of one.

ghost use Rattle.std.specs.Prelude.{◌≡◌, ◌<◌, ℕ, All, IfOk, map};
ghost use Rattle.std.specs.Option.{option_copied};
ghost use Rattle.std.specs.Vec.{vec_len, vec_capacity};
ghost use Rattle.run_specs.specs.Automaton.{width};
ghost use Rattle.run_specs.specs.SessionHistories.{belief_after};
ghost use Rattle.run_specs.specs.SessionHistories as histories;
ghost use Rattle.run_specs.specs.Outcomes as outcomes;
ghost use Rattle.gap_keys.specs.Answering.{outcome_of, IsOutcomeWide};
ghost use Rattle.gap_keys.specs.Views.{AreWide, states_of, items_of, state_view};
ghost use Rattle.live_session.specs.Entries.{entries_of, given_of, with_given};
ghost use Rattle.live_session.specs.Entries as entries;

use crate::relation::GapRelation;
use gap_keys::{Belief, Item, Outcome, State};
use run_specs::Verdict;
use std::alloc::{AllocError, Global};
use std::sync::Arc;
use succ_memo::Held;

/// The states of items.
fn item_states(alloc: Global, items: &[Item]) -> Result<Vec<State>, AllocError>
    ensures { IfOk result (λ v. v.items ≡ map state_view items.now) }
{
    let mut copies = Vec::with_capacity(alloc, items.len())?;
    for item in items {
        copies.push_reserved(item.state().copy(alloc)?);
    }
    Ok(copies)
}

/// The states that an outcome leaves.
fn states_left(alloc: Global, outcome: &Outcome) -> Result<Belief, AllocError>
    ensures states { IfOk result (λ b. states_of b ≡ histories.states_left (outcome_of outcome.now)) }
    ensures wide { IfOk result (λ b. (m : ℕ) → IsOutcomeWide m outcome.now → AreWide m b) }
{
    match outcome {
        Outcome::Next(next) => {
            let states = item_states(alloc, next.items())?;
            Ok(Belief::new(states))
        }
        Outcome::Overflow => Ok(Belief::new(Vec::new(alloc))),
    }
}

/// The states after the last entry; those at the opening before the first.
pub(crate) fn last_belief(
    alloc: Global,
    opening: &Belief,
    gaps: &[Arc<Held<GapRelation>>],
) -> Result<Belief, AllocError>
    ensures states { IfOk result (λ b. states_of b ≡ belief_after (states_of opening.now) (entries_of gaps.now)) }
    ensures wide { IfOk result (λ b. (m : ℕ) → AreWide m opening.now → All (λ e. width e.key.automaton ≡ m) (entries_of gaps.now) → AreWide m b) }
{
    match gaps.last() {
        None => {
            let same = opening.copy(alloc)?;
            Ok(same)
        }
        Some(entry) => {
            let left = states_left(alloc, entry.val())?;
            Ok(left)
        }
    }
}

/// Whether the last entry passed.
pub(crate) fn last_passed(gaps: &[Arc<Held<GapRelation>>]) -> bool
    ensures { result ≡ entries.last_passed (entries_of gaps.now) }
{
    match gaps.last() {
        None => false,
        Some(entry) => matches!(entry.val(), Outcome::Overflow),
    }
}

/// Whether an item is marked.
fn some_marked(items: &[Item]) -> bool
    ensures { result ≡ histories.some_marked (items_of items.now) }
{
    for item in items {
        if item.state().seen_unsafe() {
            return true;
        }
    }
    false
}

/// The verdict of items.
fn verdict_of_items(items: &[Item]) -> Verdict
    ensures { result ≡ histories.verdict_of (outcomes.Next (items_of items.now)) }
{
    if items.is_empty() {
        Verdict::Impossible
    } else if some_marked(items) {
        Verdict::Alarm
    } else {
        Verdict::Safe
    }
}

/// The verdict that an outcome tells.
pub(crate) fn verdict_of(outcome: &Outcome) -> Verdict
    ensures { result ≡ histories.verdict_of (outcome_of outcome.now) }
{
    match outcome {
        Outcome::Next(next) => verdict_of_items(next.items()),
        Outcome::Overflow => Verdict::Overflow,
    }
}

/// The verdict for a sample, where this entry is given for it and nothing more is wanted.
pub(crate) fn verdict_with(
    opened: bool,
    gaps: &[Arc<Held<GapRelation>>],
    given: Option<&Arc<Held<GapRelation>>>,
) -> Verdict
    ensures { result ≡ entries.verdict_with opened (entries_of gaps.now) (given_of (option_copied given.entry)) }
{
    if !opened {
        return Verdict::Overflow;
    }
    match given {
        Some(entry) => verdict_of(entry.val()),
        None if last_passed(gaps) => Verdict::Overflow,
        None => Verdict::Impossible,
    }
}

/// Adds the entry that is given, if there is one, where there is room for it.
pub(crate) fn add_given(
    gaps: &mut Vec<Arc<Held<GapRelation>>>,
    given: Option<Arc<Held<GapRelation>>>,
)
    requires { vec_len gaps.old < vec_capacity gaps.old }
    ensures { entries_of gaps.new.items ≡ with_given (entries_of gaps.old.items) (given_of given) }
{
    if let Some(entry) = given {
        gaps.push_reserved(entry);
    }
}
