//! Receipts: what one call did to the shared memo, beside its shares of the two ledgers.

ghost use Rattle.std.specs.Prelude.{◌≡◌, ◌+◌, ◌≤◌};
ghost use Rattle.std.specs.Option.{ForSome, ForNone};
ghost use Rattle.session_drive.specs.Remembered.{no_look, one_hit, one_fill};

use live_session::GapRelation;
use session_drive::{Counts, NO_LOOK, ONE_FILL, ONE_HIT};
use std::sync::Arc;
use std::sync::ledger::{Ledger, Share};
use succ_memo::{Held, Ticket};

/// A part of each ledger, with the amounts of one call.
#[derive(Drop)]
pub(crate) struct Shares<H: Ledger, F: Ledger> {
    pub(crate) hits: Share<H>,
    pub(crate) fills: Share<F>,
    ghost hits_part: { hits.parts ≡ 1 },
    ghost fills_part: { fills.parts ≡ 1 },
}

/// The counts of one call, beside its shares of the two ledgers where it looked.
///
/// It looked at most once, and each look is a hit or a fill. The amounts of the shares are its hits
/// and its fills. Only a call that drives a sample makes one.
#[derive(Drop)]
pub struct Receipt<H: Ledger, F: Ledger> {
    /// What the call counted.
    pub counts: Counts,
    pub(crate) shares: Option<Shares<H, F>>,
    ghost at_most_one: { counts.looks ≤ 1 },
    ghost each_look: { counts.hits + counts.fills ≡ counts.looks },
    ghost none: { ForNone shares (counts.looks ≡ 0) },
    ghost one: { ForSome shares (λ s. counts.looks ≡ 1) },
    ghost hits_are: { ForSome shares (λ s. s.hits.amount ≡ counts.hits) },
    ghost fills_are: { ForSome shares (λ s. s.fills.amount ≡ counts.fills) },
}

/// The shares of a look that found no entry, until its put.
#[derive(Drop)]
pub(crate) struct Pending<H: Ledger, F: Ledger> {
    pub(crate) shares: Shares<H, F>,
    ghost no_hit: { shares.hits.amount ≡ 0 },
    ghost no_fill: { shares.fills.amount ≡ 0 },
}

/// What a look under the lock found.
pub(crate) enum Looked<H: Ledger, F: Ledger> {
    /// The entry of the key, and the receipt of the call.
    Hit(Arc<Held<GapRelation>>, Receipt<H, F>),
    /// No entry: the right to put one, and the shares that its put will count to.
    Miss(Ticket, Pending<H, F>),
}

impl<H: Ledger, F: Ledger> Receipt<H, F> {
    /// The receipt of a call that did not look.
    pub(crate) fn none() -> Receipt<H, F>
        ensures { result.counts ≡ no_look }
    {
        Receipt {
            counts: NO_LOOK,
            shares: None,
        }
    }

    /// The receipt of a look that found an entry.
    pub(crate) fn of_hit(shares: Shares<H, F>) -> Receipt<H, F>
        requires { (shares.hits.amount ≡ 1) × (shares.fills.amount ≡ 0) }
        ensures { result.counts ≡ one_hit }
    {
        Receipt {
            counts: ONE_HIT,
            shares: Some(shares),
        }
    }

    /// The receipt of a look that found none, and of the put after it.
    pub(crate) fn of_fill(shares: Shares<H, F>) -> Receipt<H, F>
        requires { (shares.hits.amount ≡ 0) × (shares.fills.amount ≡ 1) }
        ensures { result.counts ≡ one_fill }
    {
        Receipt {
            counts: ONE_FILL,
            shares: Some(shares),
        }
    }
}
