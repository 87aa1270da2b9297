//! A memo: the entries that were put, with or without a bound, and how often it was asked.
ghost use Rattle.std.specs.Prelude.{◌≡◌, ◌≤◌, [], Some, None, IfOk, IfErr, OnOk, OnErr, is_some};
ghost use Rattle.std.specs.Arc.{arc_value};
ghost use Rattle.std.specs.Map.{lookup_entry};
ghost use Rattle.succ_memo.specs.Memo.{IsMemo, memo_of, no_totals};
ghost use Rattle.succ_memo.specs.Memo.{memo_after_look, memo_after_put, memo_after_give_up};

use crate::relation::{Held, Relation};
use crate::storage::{Cache, empty_cache, find, store};
use std::alloc::{AllocError, Global};
use std::marker::Model;
use std::num::NonZeroUsize;
use std::sync::Arc;

/// How often a memo was asked, had an entry, was put to, and got a ticket back unused.
///
/// A count stays at the type's last value.
#[derive(Clone, Copy, Debug, Default, PartialEq, Eq)]
pub struct Totals {
    /// Looks that were answered.
    pub looks: u64,
    /// Looks that found an entry.
    pub hits: u64,
    /// Tickets that were spent on an entry, also where its key had one by then.
    pub puts: u64,
    /// Tickets that were given up.
    pub given_up: u64,
}

/// The right to one `put` or `give_up`, and the duty to make use of it: it cannot be dropped.
///
/// It comes from a look that found nothing. Nothing says of which memo that look was.
pub struct Ticket {
    spent_once: (),
}

/// What a look found.
pub enum Look<R: Relation> {
    /// The entry of the key, shared once more.
    Hit(Arc<Held<R>>),
    /// No entry: the right to put one.
    Miss(Ticket),
}

/// What a `put` hands back where memory is wanting.
pub struct PutFault<R: Relation> {
    /// The ticket, which is still to be used.
    pub ticket: Ticket,
    /// The entry that was not put.
    pub entry: Arc<Held<R>>,
}

/// Entries with distinct keys, the most recently used first, beside the counts of the calls.
///
/// A contract sees the pairs of key and value in this order, the bound, and the counts.
#[derive(Drop)]
pub struct MemoState<R: Relation> {
    cache: Option<Cache<R>>,
    most: Option<NonZeroUsize>,
    totals: Totals,
}

impl<R: Relation> Model for MemoState<R> {
    ghost use Rattle.succ_memo.specs.Memo.{Memo, memo_of};
    ghost use Rattle.succ_memo.specs.Stored.{bound_of, cache_pairs, IsStoredIn};

    ghost Value = { Memo R.Key R.Val };

    ghost view = { λ s. memo_of (cache_pairs s.cache) (bound_of s.most) s.totals };

    ghost invariant = { λ s. IsStoredIn R.Key.eq R.holds s.most s.cache };
}

impl<R: Relation> MemoState<R> {
    ghost use Rattle.succ_memo.specs.Look.{found_pair};

    /// An empty memo without a bound. It takes no memory before the first `put`.
    pub fn new() -> MemoState<R>
        ensures { result ≡ memo_of [] None no_totals }
    {
        MemoState {
            cache: None,
            most: None,
            totals: Totals::default(),
        }
    }

    /// An empty memo of at most `most` entries, which is 1 or more.
    ///
    /// # Errors
    ///
    /// Want of memory.
    pub fn bounded(alloc: Global, most: usize) -> Result<MemoState<R>, AllocError>
        requires { 1 ≤ most }
        ensures { IfOk result (λ memo. memo ≡ memo_of [] (Some most) no_totals) }
    {
        let most = Some(NonZeroUsize::new(most).unwrap());
        Ok(MemoState {
            cache: Some(empty_cache(alloc, most)?),
            most,
            totals: Totals::default(),
        })
    }

    /// The entry of the key, which becomes the most recently used, or else the ticket to put one.
    ///
    /// # Errors
    ///
    /// Want of memory, as an entry is shared once more. Entries, their order and counts stay.
    pub fn look(&mut self, key: &R::Key) -> Result<Look<R>, AllocError>
        ensures found { IfOk result (λ look.
            found_pair look ≡ lookup_entry (R.Key.eq key.now) self.old.entries) }
        ensures memo { IfOk result (λ look.
            self.new ≡ memo_after_look (R.Key.eq key.now) (found_pair look) self.old) }
        ensures err { OnErr result (self.new ≡ self.old) }
        ensures was_valid { IsMemo R.Key.eq R.holds self.old }
        ensures valid { IsMemo R.Key.eq R.holds self.new }
    {
        let shared = find(&mut self.cache, self.most, key)?;
        self.totals.looks = self.totals.looks.saturating_add(1);
        let Some(entry) = shared else {
            return Ok(Look::Miss(Ticket { spent_once: () }));
        };
        self.totals.hits = self.totals.hits.saturating_add(1);
        Ok(Look::Hit(entry))
    }

    /// Whether the key has an entry. It takes no memory, and moves no entry and no count.
    pub fn has(&self, key: &R::Key) -> bool
        ensures present { result ≡ is_some (lookup_entry (R.Key.eq key.now) self.now.entries) }
        ensures valid { IsMemo R.Key.eq R.holds self.now }
    {
        match &self.cache {
            Some(cache) => cache.contains(key),
            None => false,
        }
    }

    /// Spends a ticket on an entry.
    ///
    /// The entry goes first, and the last one leaves a full memo. Where its key has an entry by
    /// then, all stay as they are, and the new one is dropped.
    ///
    /// # Errors
    ///
    /// Want of memory: ticket and entry come back. Entries, their order and counts stay.
    pub fn put(
        &mut self,
        alloc: Global,
        ticket: Ticket,
        entry: Arc<Held<R>>,
    ) -> Result<(), PutFault<R>>
        ensures ok { OnOk result (self.new ≡ memo_after_put R.Key.eq (arc_value entry) self.old) }
        ensures err { OnErr result (self.new ≡ self.old) }
        ensures handed_back { IfErr result (λ fault. fault.entry ≡ entry) }
        ensures valid { IsMemo R.Key.eq R.holds self.new }
    {
        if let Err(entry) = store(&mut self.cache, self.most, alloc, entry) {
            return Err(PutFault { ticket, entry });
        }
        let Ticket { spent_once: () } = ticket;
        self.totals.puts = self.totals.puts.saturating_add(1);
        Ok(())
    }

    /// Spends a ticket on nothing. It takes no memory, and changes no entry.
    pub fn give_up(&mut self, ticket: Ticket)
        ensures memo { self.new ≡ memo_after_give_up self.old }
        ensures valid { IsMemo R.Key.eq R.holds self.new }
    {
        let Ticket { spent_once: () } = ticket;
        self.totals.given_up = self.totals.given_up.saturating_add(1);
    }

    /// The counts. It takes no memory.
    pub fn totals(&self) -> Totals
        ensures counts { result ≡ self.now.totals }
        ensures valid { IsMemo R.Key.eq R.holds self.now }
    {
        self.totals
    }
}
