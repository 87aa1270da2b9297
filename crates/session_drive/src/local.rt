//! Drives samples over a memo that is lent.

ghost use Rattle.std.specs.Prelude.{◌≡◌, All, Some, None, IfSome, IfOk, IfErr, OnOk, OnErr};
ghost use Rattle.std.specs.Arc.{arc_value};
ghost use Rattle.number_specs.specs.LogNumbers.{IsLogNumber};
ghost use Rattle.run_specs.specs.Logs as logs;
ghost use Rattle.run_specs.specs.Sessions.{IsMonitorSession, Idle, Begun, wanted, wanted_for};
ghost use Rattle.run_specs.specs.Worlds.{IsBegin};
ghost use Rattle.succ_memo.specs.Memo.{memo_after_put, memo_after_give_up};
ghost use Rattle.session_drive.specs.Remembered.{IsServed, IsGivenOver, IsDrivenOver, IsUndriven, IsLeft, MayHaveGivenUp};

use crate::counts::{Counts, DriveFault};
use gap_keys::Key;
use lha_model::Sample;
use live_session::{GapRelation, SampleRefusal, Session, Verdict};
use std::alloc::{AllocError, Global};
use std::sync::Arc;
use succ_memo::{Fill, Filler, Held, Look, MemoState, PutFault, Ticket};

/// What is counted where no entry was wanted.
pub const NO_LOOK: Counts = Counts {
    looks: 0,
    hits: 0,
    fills: 0,
};

/// What is counted where the entry stood in the memo.
pub const ONE_HIT: Counts = Counts {
    looks: 1,
    hits: 1,
    fills: 0,
};

/// What is counted where the entry was made, and put into the memo.
pub const ONE_FILL: Counts = Counts {
    looks: 1,
    hits: 0,
    fills: 1,
};

/// An entry that is made for the key, and the same shared once more.
///
/// # Errors
///
/// Want of memory.
pub fn made_twice<F: Fill<GapRelation>>(
    alloc: Global,
    filler: &Filler<GapRelation, F>,
    key: &Key,
) -> Result<(Arc<Held<GapRelation>>, Arc<Held<GapRelation>>), AllocError>
    ensures key { IfOk result (λ both. (arc_value both.0).0 ≡ key.now) }
    ensures same { IfOk result (λ both. arc_value both.1 ≡ arc_value both.0) }
{
    let key = key.copy(alloc)?;
    let entry = filler.fill(alloc, key)?;
    let mine = Arc::try_clone(&entry)?;
    Ok((entry, mine))
}

/// Spends a ticket on putting the entry, or, where memory is wanting, on nothing.
///
/// # Errors
///
/// Want of memory.
pub fn put_or_give_up(
    alloc: Global,
    memo: &mut MemoState<GapRelation>,
    ticket: Ticket,
    entry: Arc<Held<GapRelation>>,
) -> Result<(), AllocError>
    ensures put { OnOk result (memo.new ≡ memo_after_put ⟦<Key as PartialEq>⟧.eq (arc_value entry) memo.old) }
    ensures err { OnErr result (memo.new ≡ memo_after_give_up memo.old) }
{
    if let Err(PutFault { ticket, entry: _ }) = memo.put(alloc, ticket, entry) {
        memo.give_up(ticket);
        return Err(AllocError);
    }
    Ok(())
}

/// An entry of the key that a look missed: it is made, and the ticket is spent on putting it. Where
/// memory is wanting the ticket is given up.
fn fill_missed<F: Fill<GapRelation>>(
    alloc: Global,
    memo: &mut MemoState<GapRelation>,
    filler: &Filler<GapRelation, F>,
    key: &Key,
    ticket: Ticket,
) -> Result<Arc<Held<GapRelation>>, AllocError>
    ensures key { IfOk result (λ entry. (arc_value entry).0 ≡ key.now) }
    ensures put { IfOk result (λ entry. memo.new ≡ memo_after_put ⟦<Key as PartialEq>⟧.eq (arc_value entry) memo.old) }
    ensures err { OnErr result (memo.new ≡ memo_after_give_up memo.old) }
{
    match made_twice(alloc, filler, key) {
        Ok((entry, mine)) => {
            put_or_give_up(alloc, memo, ticket, entry)?;
            Ok(mine)
        }
        Err(AllocError) => {
            memo.give_up(ticket);
            Err(AllocError)
        }
    }
}

/// The entry of the key: by one look, and where that finds none, by filling and one put.
fn entry_for<F: Fill<GapRelation>>(
    alloc: Global,
    memo: &mut MemoState<GapRelation>,
    filler: &Filler<GapRelation, F>,
    key: &Key,
) -> Result<(Arc<Held<GapRelation>>, Counts), AllocError>
    ensures key { IfOk result (λ served. (arc_value served.0).0 ≡ key.now) }
    ensures served { IfOk result (λ served. IsServed ⟦<Key as PartialEq>⟧.eq key.now (arc_value served.0) memo.old memo.new served.1) }
    ensures err { OnErr result (MayHaveGivenUp ⟦<Key as PartialEq>⟧.eq (Some key.now) memo.old memo.new) }
{
    match memo.look(key)? {
        Look::Hit(entry) => Ok((entry, ONE_HIT)),
        Look::Miss(ticket) => {
            let entry = fill_missed(alloc, memo, filler, key, ticket)?;
            Ok((entry, ONE_FILL))
        }
    }
}

/// Gives a session the entry that it wants, if it wants one. After an error it is as it was.
fn give_served<F: Fill<GapRelation>>(
    alloc: Global,
    session: &mut Session,
    memo: &mut MemoState<GapRelation>,
    filler: &Filler<GapRelation, F>,
) -> Result<Counts, AllocError>
    requires begun { (sample : logs.Sample) × (session.old.phase ≡ Begun sample) }
    requires nothing_given { session.old.given ≡ None }
    ensures ok { IfOk result (IsGivenOver ⟦<Key as PartialEq>⟧.eq session.old session.new memo.old memo.new) }
    ensures err { OnErr result (session.new ≡ session.old) }
    ensures left { OnErr result (MayHaveGivenUp ⟦<Key as PartialEq>⟧.eq (wanted session.old) memo.old memo.new) }
{
    let Some(key) = session.want() else {
        return Ok(NO_LOOK);
    };
    // The key is within its limits, as its readers say.
    key.jumps();
    let (entry, counts) = entry_for(alloc, memo, filler, key)?;
    // The entry is exact for its key, as its readers say.
    entry.key();
    session.give(entry);
    Ok(counts)
}

/// Begins the sample.
///
/// # Errors
///
/// The first reason why the sample is refused, or want of memory. The session is then as before.
pub fn begin(session: &mut Session, alloc: Global, sample: &Sample) -> Result<(), DriveFault>
    requires idle { session.old.phase ≡ Idle }
    requires time { IsLogNumber sample.now.time }
    requires cells { All (λ cell. IfSome cell IsLogNumber) sample.now.cells }
    ensures ok { OnOk result (IsBegin sample.now session.old session.new) }
    ensures err { OnErr result (session.new ≡ session.old) }
    ensures undriven { IfErr result (IsUndriven session.old sample.now) }
{
    match session.begin(alloc, sample) {
        Ok(()) => Ok(()),
        Err(SampleRefusal::Memory) => Err(DriveFault::Memory),
        Err(why) => Err(DriveFault::Refused(why)),
    }
}

/// The reply of a session to a sample, over a lent memo, and what was counted.
///
/// The sample joins the session's log, and the entry that it wants its history. That entry is the one
/// that stands in the memo for its key, or else it is made, and put there. Waits for nobody.
///
/// # Errors
///
/// The first reason why the sample is refused, or want of memory. The session is then as before. So is
/// the memo, but after want of memory it may have counted a look that found nothing, and a ticket
/// given up.
pub fn drive_local<F: Fill<GapRelation>>(
    alloc: Global,
    session: &mut Session,
    memo: &mut MemoState<GapRelation>,
    filler: &Filler<GapRelation, F>,
    sample: &Sample,
) -> Result<(Verdict, Counts), DriveFault>
    requires idle { session.old.phase ≡ Idle }
    requires time { IsLogNumber sample.now.time }
    requires cells { All (λ cell. IfSome cell IsLogNumber) sample.now.cells }
    ensures ok { IfOk result (λ done. IsDrivenOver ⟦<Key as PartialEq>⟧.eq session.old session.new sample.now memo.old memo.new done.0 done.1) }
    ensures err { OnErr result (session.new ≡ session.old) }
    ensures undriven { IfErr result (IsUndriven session.old sample.now) }
    ensures left { IfErr result (λ fault. IsLeft ⟦<Key as PartialEq>⟧.eq (wanted_for session.old sample.now None) fault memo.old memo.new) }
    ensures kept { IsMonitorSession session.old }
{
    // An idle session has no entry, as its readers say.
    session.log();
    begin(session, alloc, sample)?;
    match give_served(alloc, session, memo, filler) {
        Ok(counts) => Ok((session.finish(), counts)),
        Err(AllocError) => {
            session.cancel();
            Err(DriveFault::Memory)
        }
    }
}
