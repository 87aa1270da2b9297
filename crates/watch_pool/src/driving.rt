//! One sample of one session, over the shared memo.

ghost use Rattle.std.specs.Prelude.{◌≡◌, ◌+◌, All, None, IfSome, IfOk, IfErr, OnErr};
ghost use Rattle.std.specs.Arc.{arc_value};
ghost use Rattle.number_specs.specs.LogNumbers.{IsLogNumber};
ghost use Rattle.run_specs.specs.Logs as logs;
ghost use Rattle.run_specs.specs.Sessions.{IsMonitorSession, Idle, Begun, wanted, wanted_for};
ghost use Rattle.live_session.specs.Driven.{IsDriven, IsGiven};
ghost use Rattle.session_drive.specs.Remembered.{IsUndriven};
ghost use Rattle.watch_pool.specs.Counted.{looks_for};

use crate::receipts::{Looked, Receipt};
use crate::shared::Shared;
use gap_keys::Key;
use lha_model::Sample;
use live_session::{GapRelation, Session, Verdict};
use session_drive::{DriveFault, begin, made_twice};
use std::alloc::{AllocError, Global};
use std::sync::ledger::Ledger;
use std::sync::{Arc, Wait};
use succ_memo::{Fill, Held};

/// The entry of a key, from the memo, or else made while the lock is free, and put.
fn serve<H: Ledger, F: Ledger, A: Fill<GapRelation>, R: Wait>(
    rt: &R,
    alloc: Global,
    shared: &Shared<H, F, A>,
    key: &Key,
) -> Result<(Arc<Held<GapRelation>>, Receipt<H, F>), AllocError>
    ensures key { IfOk result (λ served. (arc_value served.0).0 ≡ key.now) }
    ensures looks { IfOk result (λ served. served.1.counts.looks ≡ 1) }
{
    let looked = shared.kept.lock(rt).look(key)?;
    match looked {
        Looked::Hit(entry, receipt) => Ok((entry, receipt)),
        Looked::Miss(ticket, pending) => match made_twice(alloc, &shared.filler, key) {
            Ok((entry, mine)) => {
                let receipt = shared.kept.lock(rt).put(alloc, ticket, entry, pending)?;
                Ok((mine, receipt))
            }
            Err(fault) => {
                shared.kept.lock(rt).give_up(ticket);
                Err(fault)
            }
        },
    }
}

/// Gives a session the entry that it wants, if it wants one. After an error it is as it was.
fn give_wanted<H: Ledger, F: Ledger, A: Fill<GapRelation>, R: Wait>(
    rt: &R,
    alloc: Global,
    session: &mut Session,
    shared: &Shared<H, F, A>,
) -> Result<Receipt<H, F>, AllocError>
    requires begun { (sample : logs.Sample) × (session.old.phase ≡ Begun sample) }
    requires nothing_given { session.old.given ≡ None }
    ensures ok { IfOk result (λ _. IsGiven session.old session.new) }
    ensures looks { IfOk result (λ receipt. receipt.counts.looks ≡ looks_for (wanted session.old)) }
    ensures err { OnErr result (session.new ≡ session.old) }
{
    let Some(key) = session.want() else {
        return Ok(Receipt::none());
    };
    // The key is within its limits, and the entry exact for its key, as their readers say.
    key.jumps();
    let (entry, receipt) = serve(rt, alloc, shared, key)?;
    entry.val();
    session.give(entry);
    Ok(receipt)
}

/// The reply of a session to a sample, and the receipt of what this did to the shared memo.
///
/// The sample joins its log, as the entry that it wants joins the history. It waits for the lock.
/// Where memory is wanting after the look, the ticket is given up, and the shares are lost.
///
/// # Errors
///
/// The reason why the sample is refused, or want of memory. The session is then as before.
pub fn drive<H: Ledger, F: Ledger, A: Fill<GapRelation>, R: Wait>(
    rt: &R,
    alloc: Global,
    session: &mut Session,
    shared: &Shared<H, F, A>,
    sample: &Sample,
) -> Result<(Verdict, Receipt<H, F>), DriveFault>
    requires idle { session.old.phase ≡ Idle }
    requires time { IsLogNumber sample.now.time }
    requires cells { All (λ cell. IfSome cell IsLogNumber) sample.now.cells }
    ensures ok { IfOk result (λ done. IsDriven session.old session.new sample.now done.0) }
    ensures looks { IfOk result (λ done. done.1.counts.looks ≡ looks_for (wanted_for session.old sample.now None)) }
    ensures each_look { IfOk result (λ done. done.1.counts.hits + done.1.counts.fills ≡ done.1.counts.looks) }
    ensures err { OnErr result (session.new ≡ session.old) }
    ensures undriven { IfErr result (IsUndriven session.old sample.now) }
    ensures kept { IsMonitorSession session.old }
{
    // An idle session has no entry, as its readers say.
    session.log();
    begin(session, alloc, sample)?;
    match give_wanted(rt, alloc, session, shared) {
        Ok(receipt) => Ok((session.finish(), receipt)),
        Err(AllocError) => {
            session.cancel();
            Err(DriveFault::Memory)
        }
    }
}
