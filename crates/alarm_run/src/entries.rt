//! The entries of a history that leave states, and their items.

ghost use Rattle.std.specs.Prelude.{◌≡◌, ◌<◌, List, length, true, slice_get, slice_index_or, Some};
ghost use Rattle.gap_keys.specs.Answering.{outcome_of};
ghost use Rattle.gap_keys.specs.Views.{items_of, AreItemsWide};
ghost use Rattle.live_session.specs.Entries.{entry_of};
ghost use Rattle.run_specs.specs.Automaton.{width};
ghost use Rattle.run_specs.specs.Outcomes.{Item as ItemValue, Next};
ghost use Rattle.run_specs.specs.SessionHistories.{IsHistory, some_marked};
ghost use Rattle.alarm_run.specs.Marks.{IsFirstMarked};

use gap_keys::{Item, Outcome};
use live_session::{GapRelation, History};
use succ_memo::Held;

/// The entry of the gap of this number.
pub fn entry_at<'a>(history: &History<'a>, i: usize) -> &'a Held<GapRelation>
    requires { i < length history.now.gaps }
    ensures value { slice_get history.now.gaps i ≡ Some (entry_of result.now) }
    ensures kept { IsHistory history.now }
{
    &history.gaps()[i]
}

/// The items of an entry that has them.
pub fn items_in(entry: &Held<GapRelation>) -> &[Item]
    requires { (items : List ItemValue) × (outcome_of entry.now.1 ≡ Next items) }
    ensures value { outcome_of entry.now.1 ≡ Next (items_of result.now) }
    ensures wide { AreItemsWide (width entry.now.0.automaton) result.now }
{
    match entry.val() {
        Outcome::Next(next) => next.items(),
        Outcome::Overflow => unreachable!(),
    }
}

/// The item of this number.
pub fn item_at(items: &[Item], number: usize) -> &Item
    requires { number < length items.now }
    ensures { result.now ≡ slice_index_or items.now number result.now }
{
    &items[number]
}

/// The number of the first item that is marked.
pub fn first_marked(items: &[Item]) -> usize
    requires { some_marked (items_of items.now) ≡ true }
    ensures { IsFirstMarked (items_of items.now) result }
{
    for number in 0..items.len() {
        if items[number].state().seen_unsafe() {
            return number;
        }
    }
    0
}
