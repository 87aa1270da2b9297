//! What lies under the lock: the memo, beside the ledgers of its hits and fills.

ghost use Rattle.std.specs.Prelude.{◌≡◌, ◌+◌, ◌-◌, ◌^◌, ◌<◌, ◌≤◌, IfOk, OnOk, OnErr, min};
ghost use Rattle.std.specs.Arc.{arc_value};
ghost use Rattle.std.specs.Map.{lookup_entry};
ghost use Rattle.gap_keys.specs.Answering.{IsAnswer};
ghost use Rattle.succ_memo.specs.Memo.{IsMemo, memo_after_look, memo_after_put, memo_after_give_up};
ghost use Rattle.session_drive.specs.Remembered.{one_fill};

use crate::receipts::{Looked, Pending, Receipt, Shares};
use gap_keys::Key;
use live_session::GapRelation;
use session_drive::put_or_give_up;
use std::alloc::{AllocError, Global};
use std::sync::Arc;
use std::sync::ledger::{Blank, Book, Ledger, Share};
use succ_memo::{Held, Look, MemoState, Ticket, Totals};

/// How many parts each ledger has.
const PARTS: u64 = 1 << 63;

/// A memo beside the ledgers `H` of its hits and `F` of its fills.
///
/// Its memo keeps that the keys are distinct and that each entry is exact for its key, and so this
/// holds whenever the lock is free, and whenever it has just been got. As long as they are below the
/// type's last value, the totals of the books are the memo's hits and puts. `given` counts the parts
/// that were handed out of each ledger, one for each look: it is the memo's looks, and at most
/// `2^63`.
#[derive(Drop)]
pub struct Kept<H: Ledger, F: Ledger> {
    pub(crate) memo: MemoState<GapRelation>,
    pub(crate) given: u64,
    hits: Book<H>,
    fills: Book<F>,
    pub(crate) hits_left: Share<H>,
    pub(crate) fills_left: Share<F>,
    ghost given_is: { given ≡ memo.totals.looks },
    ghost most: { given ≤ 2 ^ 63 },
    ghost hits_are: { memo.totals.hits ≡ min hits.total (2 ^ 64 - 1) },
    ghost fills_are: { memo.totals.puts ≡ min fills.total (2 ^ 64 - 1) },
    ghost hits_parts: { hits_left.parts + given ≡ 2 ^ 63 },
    ghost fills_parts: { fills_left.parts + given ≡ 2 ^ 63 },
    ghost hits_none: { hits_left.amount ≡ 0 },
    ghost fills_none: { fills_left.amount ≡ 0 },
}

impl<H: Ledger, F: Ledger> Kept<H, F> {
    ghost use Rattle.watch_pool.specs.Found.{found_in, CountsHit, HasKey};

    /// This memo, which no look was made in yet, beside two ledgers that are opened.
    pub(crate) fn new(memo: MemoState<GapRelation>, hits: Blank, fills: Blank) -> Kept<H, F>
        requires empty { (memo.totals.looks ≡ 0) × (memo.totals.hits ≡ 0) × (memo.totals.puts ≡ 0) }
        requires hits { (hits.name ≡ H.name) × (hits.parts ≡ H.parts) × (hits.parts ≡ 2 ^ 63) }
        requires fills { (fills.name ≡ F.name) × (fills.parts ≡ F.parts) × (fills.parts ≡ 2 ^ 63) }
        ensures { result.memo ≡ memo }
    {
        let (hits, hits_left) = hits.open::<H>();
        let (fills, fills_left) = fills.open::<F>();
        Kept {
            memo,
            given: 0,
            hits,
            fills,
            hits_left,
            fills_left,
        }
    }

    /// How many shares of each ledger were handed out: one for each look. It takes no memory.
    pub fn given(&self) -> u64
        ensures value { result ≡ self.now.given }
        ensures looks { result ≡ self.now.memo.totals.looks }
        ensures most { result ≤ 2 ^ 63 }
    {
        self.given
    }

    /// The counts of the memo, whose keys are distinct and whose entries are exact. It takes no memory.
    pub fn totals(&self) -> Totals
        ensures value { result ≡ self.now.memo.totals }
        ensures valid { IsMemo ⟦<Key as PartialEq>⟧.eq IsAnswer self.now.memo }
    {
        self.memo.totals()
    }

    /// One look for a key, with the shares that belong to it, and a hit where it finds an entry.
    ///
    /// # Errors
    ///
    /// Want of memory, and where all shares were handed out. The memo is then as before.
    pub(crate) fn look(&mut self, key: &Key) -> Result<Looked<H, F>, AllocError>
        ensures found { IfOk result (λ looked. found_in looked ≡ lookup_entry (⟦<Key as PartialEq>⟧.eq key.now) self.old.memo.entries) }
        ensures key { IfOk result (HasKey key.now) }
        ensures memo { IfOk result (λ looked. self.new.memo ≡ memo_after_look (⟦<Key as PartialEq>⟧.eq key.now) (found_in looked) self.old.memo) }
        ensures counts { IfOk result CountsHit }
        ensures room { OnOk result (self.old.given < 2 ^ 63) }
        ensures err { OnErr result (self.new.memo ≡ self.old.memo) }
    {
        if self.given == PARTS {
            return Err(AllocError);
        }
        let Kept {
            memo,
            given,
            hits,
            fills: _,
            hits_left,
            fills_left,
        } = self;
        let look = memo.look(key)?;
        *given += 1;
        let mut hit = hits_left.split_off(1, 0);
        let fill = fills_left.split_off(1, 0);
        match look {
            Look::Hit(entry) => {
                hits.add(&mut hit, 1);
                let receipt = Receipt::of_hit(Shares {
                    hits: hit,
                    fills: fill,
                });
                Ok(Looked::Hit(entry, receipt))
            }
            Look::Miss(ticket) => {
                let shares = Shares {
                    hits: hit,
                    fills: fill,
                };
                Ok(Looked::Miss(ticket, Pending { shares }))
            }
        }
    }

    /// One put, with the fill that belongs to it.
    ///
    /// # Errors
    ///
    /// Want of memory: the ticket is given up, and its shares are lost.
    pub(crate) fn put(
        &mut self,
        alloc: Global,
        ticket: Ticket,
        entry: Arc<Held<GapRelation>>,
        pending: Pending<H, F>,
    ) -> Result<Receipt<H, F>, AllocError>
        ensures ok { OnOk result (self.new.memo ≡ memo_after_put ⟦<Key as PartialEq>⟧.eq (arc_value entry) self.old.memo) }
        ensures counts { IfOk result (λ receipt. receipt.counts ≡ one_fill) }
        ensures err { OnErr result (self.new.memo ≡ memo_after_give_up self.old.memo) }
    {
        let Kept {
            memo,
            given: _,
            hits: _,
            fills,
            hits_left: _,
            fills_left: _,
        } = self;
        put_or_give_up(alloc, memo, ticket, entry)?;
        let Pending { shares } = pending;
        let Shares {
            hits: hit,
            fills: mut fill,
        } = shares;
        fills.add(&mut fill, 1);
        Ok(Receipt::of_fill(Shares {
            hits: hit,
            fills: fill,
        }))
    }

    /// Gives a ticket up. No entry changes, and it takes no memory.
    pub(crate) fn give_up(&mut self, ticket: Ticket)
        ensures { self.new.memo ≡ memo_after_give_up self.old.memo }
    {
        self.memo.give_up(ticket);
    }

    /// Hands all shares that were given out together, and learns that the memo's hits and puts are what they amount to.
    pub(crate) fn audit(&mut self, hits: &mut Share<H>, fills: &mut Share<F>)
        requires parts { (H.parts ≡ 2 ^ 63) × (F.parts ≡ 2 ^ 63) }
        requires hits_whole { hits.old.parts ≡ self.old.given }
        requires fills_whole { fills.old.parts ≡ self.old.given }
        requires few { hits.old.amount + fills.old.amount ≤ 2 ^ 63 }
        ensures hits { self.new.memo.totals.hits ≡ hits.old.amount }
        ensures fills { self.new.memo.totals.puts ≡ fills.old.amount }
        ensures memo { self.new.memo ≡ self.old.memo }
    {
        let Kept {
            memo: _,
            given,
            hits: hits_book,
            fills: fills_book,
            hits_left,
            fills_left,
        } = self;
        let left = PARTS - *given;
        whole_again(hits_book, hits_left, hits, left);
        whole_again(fills_book, fills_left, fills, left);
    }
}

// Lends the parts that were not handed out to those that were, so that the book's total is what they amount to.
fn whole_again<L: Ledger>(book: &mut Book<L>, rest: &mut Share<L>, all: &mut Share<L>, left: u64)
    requires parts { rest.old.parts + all.old.parts ≡ L.parts }
    requires left { left ≡ rest.old.parts }
    requires none { rest.old.amount ≡ 0 }
    ensures total { book.new.total ≡ all.old.amount }
    ensures same { book.new.total ≡ book.old.total }
    ensures rest_parts { rest.new.parts ≡ rest.old.parts }
    ensures rest_none { rest.new.amount ≡ 0 }
{
    book.audit(all);
    rest.give(all, left, 0);
    book.audit(all);
    all.give(rest, left, 0);
}
