//! Looks into the memo, and puts.

ghost use Rattle.std.specs.Prelude.{◌≡◌, ◌<◌, ◌+◌, false, None, Err, IfOk, OnOk, OnErr};
ghost use Rattle.std.specs.Arc.{arc_value};
ghost use Rattle.std.specs.Vec.{vec_len};
ghost use Rattle.poly_specs.specs.Lists.{In};
ghost use Rattle.run_specs.specs.Worlds.{HasKey, IsPut};
ghost use Rattle.live_session.specs.Entries.{entry_of};
ghost use Rattle.interleave_core.specs.Views.{shown, StaysAlike, after_hit, after_miss, after_put};

use crate::faults::StepFault;
use gap_keys::Key;
use gap_keys::equality::equal_keys;
use live_session::GapRelation;
use std::alloc::{AllocError, Global};
use std::sync::Arc;
use succ_memo::{Held, Look, MemoState, PutFault, Ticket};

/// The entry of a key that has one.
pub(crate) fn found(
    memo: &mut MemoState<GapRelation>,
    key: &Key,
) -> Result<Arc<Held<GapRelation>>, StepFault>
    ensures key { IfOk result (λ entry. (arc_value entry).0 ≡ key.now) }
    ensures stands { IfOk result (λ entry. In (entry_of (arc_value entry)) (shown memo.old)) }
    ensures memo { OnOk result (StaysAlike memo.old memo.new) }
    ensures counts { OnOk result (memo.new.totals ≡ after_hit memo.old.totals) }
    ensures err { OnErr result (memo.new ≡ memo.old) }
    ensures not_allowed { result ≡ Err StepFault.NotAllowed → HasKey key.now (shown memo.old) → ⊥ }
{
    equal_keys();
    if !memo.has(key) {
        return Err(StepFault::NotAllowed);
    }
    match memo.look(key)? {
        Look::Hit(entry) => Ok(entry),
        Look::Miss(ticket) => {
            memo.give_up(ticket);
            Err(StepFault::NotAllowed)
        }
    }
}

/// A ticket to put an entry, for a key that has none.
pub(crate) fn missed(memo: &mut MemoState<GapRelation>, key: &Key) -> Result<Ticket, StepFault>
    ensures lacking { OnOk result (HasKey key.now (shown memo.old) → ⊥) }
    ensures memo { OnOk result (StaysAlike memo.old memo.new) }
    ensures counts { OnOk result (memo.new.totals ≡ after_miss memo.old.totals) }
    ensures err { OnErr result (memo.new ≡ memo.old) }
    ensures not_allowed { result ≡ Err StepFault.NotAllowed → HasKey key.now (shown memo.old) }
{
    equal_keys();
    if memo.has(key) {
        return Err(StepFault::NotAllowed);
    }
    match memo.look(key)? {
        Look::Miss(ticket) => Ok(ticket),
        Look::Hit(_) => unreachable!(),
    }
}

/// Spends a ticket to put an entry into a memo without a bound.
pub(crate) fn put_into(
    memo: &mut MemoState<GapRelation>,
    tickets: &mut Vec<Ticket>,
    alloc: Global,
    made: &Arc<Held<GapRelation>>,
) -> Result<(), AllocError>
    requires unbounded { memo.old.most ≡ None }
    requires some_ticket { 0 < vec_len tickets.old }
    ensures put { OnOk result (IsPut false (shown memo.old) (entry_of (arc_value made.now)) (shown memo.new)) }
    ensures unbounded { memo.new.most ≡ None }
    ensures counts { OnOk result (memo.new.totals ≡ after_put memo.old.totals) }
    ensures tickets { OnOk result (vec_len tickets.new + 1 ≡ vec_len tickets.old) }
    ensures err { OnErr result (memo.new ≡ memo.old) }
    ensures no_ticket { OnErr result (vec_len tickets.new ≡ vec_len tickets.old) }
{
    equal_keys();
    let entry = Arc::try_clone(made)?;
    let ticket = tickets.pop().unwrap();
    match memo.put(alloc, ticket, entry) {
        Ok(()) => Ok(()),
        Err(PutFault { ticket, entry: _ }) => {
            tickets.push_reserved(ticket);
            Err(AllocError)
        }
    }
}
