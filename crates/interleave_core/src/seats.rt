//! A session in a world: it, and what it is at.

ghost use Rattle.std.specs.Prelude.{◌≡◌, All, Some, None, Err, IfSome, IfNone, IfOk, OnOk, OnErr};
ghost use Rattle.std.specs.Option.{option_copied};
ghost use Rattle.std.specs.Arc.{arc_value};
ghost use Rattle.number_specs.specs.LogNumbers.{IsLogNumber};
ghost use Rattle.run_specs.specs.Logs as logs;
ghost use Rattle.run_specs.specs.Keys as keys;
ghost use Rattle.run_specs.specs.SessionHistories as histories;
ghost use Rattle.run_specs.specs.Sessions as sessions;
ghost use Rattle.run_specs.specs.Sessions.{IsMonitorSession, MayBegin, wanted};
ghost use Rattle.run_specs.specs.Worlds.{IsBegin, IsFill, IsFinish};
ghost use Rattle.live_session.specs.Entries.{entry_of};
ghost use Rattle.interleave_core.specs.Seats.{ShowsItsPhase, at_rest};

use crate::faults::StepFault;
use gap_keys::Key;
use lha_model::Sample;
use live_session::{GapRelation, SampleRefusal, Session, Verdict};
use session_drive::Step;
use std::alloc::{AllocError, Global};
use std::marker::Model;
use std::mem;
use std::sync::Arc;
use succ_memo::{Filler, Held};

/// What a session is at.
#[derive(Drop)]
enum Stage {
    Idle,
    Begun,
    /// The memo had no entry for the key that it wants.
    Missed,
    /// This entry was made for it.
    Filled(Arc<Held<GapRelation>>),
}

/// A session and what it is at.
///
/// A contract sees the session of a world.
#[derive(Drop)]
pub(crate) struct Seat {
    session: Session,
    stage: Stage,
}

impl Model for Seat {
    ghost use Rattle.run_specs.specs.Sessions.{MonitorSession};
    ghost use Rattle.interleave_core.specs.Seats.{seated, Fits};

    ghost Value = { MonitorSession };

    ghost view = { λ s. seated s.session s.stage };

    ghost invariant = { λ s. Fits s.session s.stage };
}

/// An entry for the key that the session wants.
fn made_for(alloc: Global, session: &Session) -> Result<Arc<Held<GapRelation>>, AllocError>
    requires { (key : keys.Key) × (wanted session.now ≡ Some key) }
    ensures key { IfOk result (λ made. wanted session.now ≡ Some (arc_value made).0) }
    ensures entry { IfOk result (λ made. histories.IsEntry (entry_of (arc_value made))) }
{
    let key = session.want().unwrap();
    // The key is within its limits, as its readers say.
    key.jumps();
    let key = key.copy(alloc)?;
    Filler::new(Step).fill(alloc, key)
}

impl Seat {
    /// The session is idle, or has begun a sample and wants an entry for it.
    pub(crate) fn new(session: Session) -> Seat
        requires { ShowsItsPhase session }
        ensures value { result ≡ session }
        ensures kept { IsMonitorSession session }
    {
        let stage = if session.want().is_some() {
            Stage::Begun
        } else {
            Stage::Idle
        };
        Seat { session, stage }
    }

    /// Begins a sample.
    pub(crate) fn begin(&mut self, alloc: Global, sample: &Sample) -> Result<(), StepFault>
        requires time { IsLogNumber sample.now.time }
        requires cells { All (λ cell. IfSome cell IsLogNumber) sample.now.cells }
        ensures ok { OnOk result (IsBegin sample.now self.old self.new) }
        ensures err { OnErr result (self.new ≡ self.old) }
        ensures not_allowed { result ≡ Err StepFault.NotAllowed → self.old.phase ≡ sessions.Idle → MayBegin self.old sample.now → ⊥ }
    {
        if !matches!(self.stage, Stage::Idle) {
            return Err(StepFault::NotAllowed);
        }
        match self.session.begin(alloc, sample) {
            Ok(()) => {
                self.stage = Stage::Begun;
                Ok(())
            }
            Err(SampleRefusal::Memory) => Err(StepFault::Memory),
            Err(_) => Err(StepFault::NotAllowed),
        }
    }

    /// The key that it wants an entry for.
    pub(crate) fn want(&self) -> Option<&Key>
        ensures { option_copied result ≡ wanted self.now }
    {
        match self.stage {
            Stage::Begun => self.session.want(),
            _ => None,
        }
    }

    /// Gives it the entry that it wants.
    pub(crate) fn give(&mut self, entry: Arc<Held<GapRelation>>)
        requires { wanted self.old ≡ Some (arc_value entry).0 }
        ensures { self.new ≡ record self.old { given = Some (entry_of (arc_value entry)) } }
    {
        self.session.give(entry);
    }

    /// Notes that the memo has no entry for the key that it wants.
    pub(crate) fn miss(&mut self)
        requires { (key : keys.Key) × (wanted self.old ≡ Some key) }
        ensures { (sample : logs.Sample) × (self.old.phase ≡ sessions.Begun sample) × (wanted self.old ≡ Some (sessions.key_for self.old sample)) × (self.new ≡ record self.old { phase = sessions.Missed sample }) }
    {
        self.stage = Stage::Missed;
    }

    /// Makes the entry that the memo lacked.
    pub(crate) fn fill(&mut self, alloc: Global) -> Result<(), StepFault>
        ensures ok { OnOk result ((sample : logs.Sample) × (made : histories.Entry) × IsFill sample made self.old self.new) }
        ensures err { OnErr result (self.new ≡ self.old) }
        ensures not_allowed { result ≡ Err StepFault.NotAllowed → (sample : logs.Sample) → self.old.phase ≡ sessions.Missed sample → ⊥ }
    {
        if !matches!(self.stage, Stage::Missed) {
            return Err(StepFault::NotAllowed);
        }
        let made = made_for(alloc, &self.session)?;
        self.stage = Stage::Filled(made);
        Ok(())
    }

    /// The entry that was made for it, and is not put yet.
    pub(crate) fn made(&self) -> Option<&Arc<Held<GapRelation>>>
        ensures made { IfSome result (λ made. (sample : logs.Sample) × (self.now.phase ≡ sessions.Filled sample (entry_of (arc_value made.now)))) }
        ensures none { IfNone result ((sample : logs.Sample) (made : histories.Entry) → self.now.phase ≡ sessions.Filled sample made → ⊥) }
    {
        match &self.stage {
            Stage::Filled(made) => Some(made),
            _ => None,
        }
    }

    /// Gives it the entry that was made for it, if there is one.
    pub(crate) fn give_made(&mut self)
        ensures { (sample : logs.Sample) (made : histories.Entry) → self.old.phase ≡ sessions.Filled sample made → self.new ≡ record self.old { given = Some made; phase = sessions.Begun sample } }
    {
        match mem::replace(&mut self.stage, Stage::Begun) {
            Stage::Filled(made) => self.session.give(made),
            other => self.stage = other,
        }
    }

    /// Accepts the begun sample, and replies to it; nothing where none is begun, or an entry is wanted for it.
    pub(crate) fn finish(&mut self) -> Option<Verdict>
        ensures some { IfSome result (λ v. (sample : logs.Sample) × IsFinish sample v self.old self.new) }
        ensures none { IfNone result (self.new ≡ self.old) }
        ensures not_allowed { IfNone result ((sample : logs.Sample) → self.old.phase ≡ sessions.Begun sample → wanted self.old ≡ None → ⊥) }
    {
        if !matches!(self.stage, Stage::Begun) || self.session.want().is_some() {
            return None;
        }
        let verdict = self.session.finish();
        self.stage = Stage::Idle;
        Some(verdict)
    }

    /// The session, with no sample begun.
    pub(crate) fn end(self) -> Session
        ensures { result ≡ at_rest self }
    {
        let Seat { mut session, stage } = self;
        // An idle session has no entry, as its readers say.
        session.log();
        if !matches!(stage, Stage::Idle) {
            session.cancel();
        }
        session
    }
}
