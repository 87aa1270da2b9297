//! The memo that sessions share, and what its receipts add up to.

ghost use Rattle.std.specs.Prelude.{◌≡◌, ◌+◌, ◌^◌, ◌≤◌, sum_by};

use crate::kept::Kept;
use crate::receipts::{Receipt, Shares};
use live_session::GapRelation;
use std::alloc::{AllocError, Global};
use std::sync::Mutex;
use std::sync::ledger::{Blank, Ledger, Share};
use succ_memo::{Fill, Filler, MemoState};

/// A memo under a lock, beside what makes its entries.
///
/// Whenever the lock is free, the memo's keys are distinct and each entry is exact for its key: the
/// type of what lies under the lock keeps it.
#[derive(Drop)]
pub struct Shared<H: Ledger, F: Ledger, A: Fill<GapRelation>> {
    pub(crate) kept: Mutex<Kept<H, F>>,
    pub(crate) filler: Filler<GapRelation, A>,
}

/// What a shared memo and its receipts came to.
#[derive(Drop)]
pub enum Closed<H: Ledger, F: Ledger> {
    /// All shares came back: the counts of the memo are the sums of those of the receipts.
    Full(Kept<H, F>),
    /// A share is missing.
    Short {
        /// What lay under the lock.
        kept: Kept<H, F>,
        /// The receipts, as they came.
        receipts: Vec<Receipt<H, F>>,
    },
}

impl<H: Ledger, F: Ledger, A: Fill<GapRelation>> Shared<H, F, A> {
    ghost use Rattle.watch_pool.specs.Closed.{IsClosed};

    /// An empty memo of at most `most` entries, 1 to 100,000, beside two ledgers that are opened.
    ///
    /// # Errors
    ///
    /// Want of memory.
    pub fn bounded(
        alloc: Global,
        most: u32,
        filler: Filler<GapRelation, A>,
        hits: Blank,
        fills: Blank,
    ) -> Result<Shared<H, F, A>, AllocError>
    where
        A: Drop,
        requires most { (1 ≤ most) × (most ≤ 100000) }
        requires hits { (hits.name ≡ H.name) × (hits.parts ≡ H.parts) × (hits.parts ≡ 2 ^ 63) }
        requires fills { (fills.name ≡ F.name) × (fills.parts ≡ F.parts) × (fills.parts ≡ 2 ^ 63) }
    {
        let memo = MemoState::bounded(alloc, most as usize)?;
        Ok(Shared {
            kept: Mutex::new(Kept::new(memo, hits, fills)),
            filler,
        })
    }

    /// What lies under the lock, beside the receipts where not all of its shares are among them. It takes no memory.
    pub fn close(self, receipts: Vec<Receipt<H, F>>) -> Closed<H, F>
    where
        A: Drop,
        requires { (H.parts ≡ 2 ^ 63) × (F.parts ≡ 2 ^ 63) }
        ensures { IsClosed receipts.items result }
    {
        let Shared { kept, filler: _ } = self;
        let mut kept = kept.into_inner();
        if kept.given() != looks_of(receipts.as_slice()) {
            return Closed::Short { kept, receipts };
        }
        settle(&mut kept, receipts);
        Closed::Full(kept)
    }
}

/// How many looks the receipts count.
fn looks_of<H: Ledger, F: Ledger>(receipts: &[Receipt<H, F>]) -> u64
    ensures { result ≡ sum_by (λ r. r.counts.looks) receipts.now }
{
    let mut looks: u64 = 0;
    for receipt in receipts {
        looks += receipt.counts.looks;
    }
    looks
}

/// Puts the shares of all receipts together, and learns what they amount to.
fn settle<H: Ledger, F: Ledger>(kept: &mut Kept<H, F>, receipts: Vec<Receipt<H, F>>)
    requires parts { (H.parts ≡ 2 ^ 63) × (F.parts ≡ 2 ^ 63) }
    requires all { kept.old.given ≡ sum_by (λ r. r.counts.looks) receipts.items }
    ensures hits { kept.new.memo.totals.hits ≡ sum_by (λ r. r.counts.hits) receipts.items }
    ensures fills { kept.new.memo.totals.puts ≡ sum_by (λ r. r.counts.fills) receipts.items }
    ensures memo { kept.new.memo ≡ kept.old.memo }
{
    let mut hits = kept.hits_left.empty();
    let mut fills = kept.fills_left.empty();
    for receipt in receipts {
        add_shares(&mut hits, &mut fills, receipt);
    }
    kept.audit(&mut hits, &mut fills);
}

/// Adds the shares of a receipt to those that are together.
fn add_shares<H: Ledger, F: Ledger>(
    hits: &mut Share<H>,
    fills: &mut Share<F>,
    receipt: Receipt<H, F>,
)
    ensures hits_parts { hits.new.parts ≡ hits.old.parts + receipt.counts.looks }
    ensures fills_parts { fills.new.parts ≡ fills.old.parts + receipt.counts.looks }
    ensures hits { hits.new.amount ≡ hits.old.amount + receipt.counts.hits }
    ensures fills { fills.new.amount ≡ fills.old.amount + receipt.counts.fills }
    ensures each_look { receipt.counts.hits + receipt.counts.fills ≡ receipt.counts.looks }
{
    let Receipt { counts: _, shares } = receipt;
    let Some(
        Shares {
            hits: hit,
            fills: fill,
        },
    ) = shares
    else {
        return;
    };
    hits.merge(hit);
    fills.merge(fill);
}
