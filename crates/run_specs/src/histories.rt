//! The order of histories is total.

ghost use Rattle.std.specs.Prelude.{◌≡◌, ◌↔◌, ◌⊎◌};
ghost use Rattle.std.specs.Cmp.{IsTotalOrder};
ghost use Rattle.std.specs.declared.cmp.Ordering.TheVariants.{Equal};
ghost use Rattle.run_specs.specs.Histories.{History, history_cmp, IsEarlier};

/// Histories are in a total order: comparing the other way round gives the other answer, and what is less is so transitively.
pub fn histories_are_ordered()
    ensures { IsTotalOrder history_cmp }
{}

/// Only equal histories compare as equal.
pub fn equal_histories()
    ensures { (h k : History) → history_cmp h k ≡ Equal ↔ (h ≡ k) }
{}

/// Of two histories one is earlier, or they are equal.
pub fn one_is_earlier()
    ensures { (h k : History) → IsEarlier h k ⊎ ((h ≡ k) ⊎ IsEarlier k h) }
{}

/// No history is earlier than itself, and no two are earlier than each other.
pub fn none_is_earlier_both_ways()
    ensures { (h k : History) → IsEarlier h k → IsEarlier k h → ⊥ }
{}
