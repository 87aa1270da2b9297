//! The sessions of a window, side by side over the shared memo.

ghost use Rattle.std.specs.Prelude.{◌≡◌, ℕ, ◌+◌, ◌<◌, ◌≤◌, All, true, map, IfOk, OnOk, OnErr, length, slice_index, slice_index_or, vec_len};
ghost use Rattle.watch_pool.specs.OneSample.{IsReadyAt, DrivesOne, DrivesNone};
ghost use Rattle.watch_pool.specs.Slots.{IsReady, DrivesPrefix, DrivesAll};

use crate::driving::drive;
use crate::receipts::Receipt;
use crate::shared::Shared;
use lha_model::Sample;
use live_session::{GapRelation, Session, Verdict};
use session_drive::DriveFault;
use std::alloc::{AllocError, Global};
use std::sync::Wait;
use std::sync::ledger::Ledger;
use std::thread;
use std::thread::Threads;
use succ_memo::Fill;

/// A session with the samples that wait for it, its replies and its receipts.
#[derive(Drop)]
pub struct Slot<H: Ledger, F: Ledger> {
    /// The session.
    pub session: Session,
    /// The samples that are to be driven, in order.
    pub pending: Vec<Sample>,
    /// A reply for each sample that was driven, behind those that stood here.
    pub replies: Vec<Verdict>,
    /// The receipts of these samples, likewise.
    pub receipts: Vec<Receipt<H, F>>,
}

impl<H: Ledger, F: Ledger> Slot<H, F> {
    /// Drives one of the pending samples, and appends its reply and its receipt. After an error all is as before.
    fn drive_at<A: Fill<GapRelation>, R: Wait>(
        &mut self,
        rt: &R,
        alloc: Global,
        shared: &Shared<H, F, A>,
        i: usize,
    ) -> Result<(), AllocError>
        requires within { i < length self.old.pending.items }
        requires ready { IsReadyAt i self.old }
        ensures ok { OnOk result (DrivesOne i self.old self.new) }
        ensures err { OnErr result (DrivesNone self.old self.new) }
    {
        self.replies.reserve(1)?;
        self.receipts.reserve(1)?;
        match drive(rt, alloc, &mut self.session, shared, &self.pending[i]) {
            Ok((reply, receipt)) => {
                self.replies.push_reserved(reply);
                self.receipts.push_reserved(receipt);
                Ok(())
            }
            Err(DriveFault::Refused(_)) => unreachable!(),
            Err(DriveFault::Memory) => Err(AllocError),
        }
    }

    /// Drives the pending samples in order, and stops where memory is wanting.
    fn drive_pending<A: Fill<GapRelation>, R: Wait>(
        &mut self,
        rt: &R,
        alloc: Global,
        shared: &Shared<H, F, A>,
    )
        requires { IsReady self.old }
        ensures { DrivesPrefix self.old self.new }
    {
        for i in 0..self.pending.len() {
            if let Err(AllocError) = self.drive_at(rt, alloc, shared, i) {
                return;
            }
        }
    }
}

/// Drives the slots side by side on at most `workers` threads, 1 to 32, each slot's samples in order.
///
/// `pending` stays as it is. It waits for the lock.
///
/// # Errors
///
/// Want of memory. Each slot has then driven a prefix of its samples.
pub fn run_window<
    H: Ledger + Send + Sync,
    F: Ledger + Send + Sync,
    A: Fill<GapRelation> + Sync,
    R: Threads + Wait + Sync,
>(
    rt: &R,
    alloc: Global,
    slots: &mut [Slot<H, F>],
    shared: &Shared<H, F, A>,
    workers: u8,
) -> Result<(), AllocError>
    requires workers { (1 ≤ workers) × (workers ≤ 32) }
    requires ready { All IsReady slots.old }
    ensures prefix { (i : ℕ) (d : _) → i < length slots.old → DrivesPrefix (slice_index_or slots.old i d) (slice_index_or slots.new i d) }
    ensures all { OnOk result ((i : ℕ) (d : _) → i < length slots.old → DrivesAll (slice_index_or slots.old i d) (slice_index_or slots.new i d)) }
{
    let starts = reply_counts(alloc, slots)?;
    side_by_side(rt, alloc, slots, shared, workers);
    if all_replied(slots, starts.as_slice()) {
        Ok(())
    } else {
        Err(AllocError)
    }
}

/// Drives each slot as far as memory goes.
fn side_by_side<
    H: Ledger + Send + Sync,
    F: Ledger + Send + Sync,
    A: Fill<GapRelation> + Sync,
    R: Threads + Wait + Sync,
>(rt: &R, alloc: Global, slots: &mut [Slot<H, F>], shared: &Shared<H, F, A>, workers: u8)
    requires workers { 1 ≤ workers }
    requires ready { All IsReady slots.old }
    ensures { (i : ℕ) (d : _) → i < length slots.old → DrivesPrefix (slice_index_or slots.old i d) (slice_index_or slots.new i d) }
{
    let part = move |_: usize, slot: &mut Slot<H, F>|
        requires { IsReady slot.now }
        ensures { DrivesPrefix slot.entry.now slot.exit.now }
    { slot.drive_pending(rt, alloc, shared) };
    thread::for_each_mut(rt, slots, workers as usize, &part);
}

/// How many replies each slot has.
fn reply_counts<H: Ledger, F: Ledger>(
    alloc: Global,
    slots: &[Slot<H, F>],
) -> Result<Vec<usize>, AllocError>
    ensures { IfOk result (λ counts. counts.items ≡ map (λ s. vec_len s.replies) slots.now) }
{
    let mut counts = Vec::new(alloc);
    for slot in slots {
        counts.push(slot.replies.len())?;
    }
    Ok(counts)
}

/// Whether each slot has a reply more for each of its pending samples.
fn all_replied<H: Ledger, F: Ledger>(slots: &[Slot<H, F>], starts: &[usize]) -> bool
    requires { length starts.now ≡ length slots.now }
    ensures { result ≡ true → (i : ℕ) (d : _) → i < length slots.now → vec_len (slice_index_or slots.now i d).replies ≡ slice_index starts.now i + vec_len (slice_index_or slots.now i d).pending }
{
    for i in 0..slots.len() {
        let slot = &slots[i];
        if slot.replies.len().checked_sub(starts[i]) != Some(slot.pending.len()) {
            return false;
        }
    }
    true
}
