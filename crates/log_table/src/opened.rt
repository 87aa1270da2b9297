//! An open session.

ghost use Rattle.std.specs.Prelude.{◌≡◌, All, None, Err, false, true, Some, IfSome, IfOk, IfErr, OnErr};
ghost use Rattle.number_specs.specs.LogNumbers.{IsLogNumber};
ghost use Rattle.run_specs.specs.Sessions.{IsMonitorSession, Idle};
ghost use Rattle.live_session.specs.Driven.{IsDriven};
ghost use Rattle.log_table.specs.Refusals.{refusal_of, IsSampleRefused};
ghost use Rattle.log_table.specs.FirstRuns.{EndsInAlarm, IsSessionRun, SessionRunPasses};

use crate::NotTaken;
use alarm_run::alarm_run;
use fm_eliminate::RowFault;
use lha_model::{Run, Sample};
use live_session::{SampleRefusal, Session, Verdict};
use log_specs::Refusal;
use session_drive::Drive;
use std::alloc::Global;
use std::marker::Model;

/// An open session, and the last reply to it.
#[derive(Drop)]
pub(crate) struct OpenSession {
    session: Session,
    last: Option<Verdict>,
}

impl Model for OpenSession {
    ghost use Rattle.log_table.specs.Parts.{Opened};

    ghost Value = { Opened };

    ghost view = { λ o. record { session = o.session; last = o.last } };
}

/// Why a sample was not taken that a session refused.
fn not_taken(refusal: SampleRefusal) -> NotTaken
    ensures { result ≡ refusal_of refusal }
{
    match refusal {
        SampleRefusal::Cells => NotTaken::Refused(Refusal::Cells),
        SampleRefusal::Time => NotTaken::Refused(Refusal::Time),
        SampleRefusal::Limit => NotTaken::Refused(Refusal::Limit),
        SampleRefusal::Memory => NotTaken::Memory,
    }
}

/// Why a sample is not taken of a session, where no more samples are accepted.
fn refused_by_limit(alloc: Global, session: &mut Session, sample: &Sample) -> NotTaken
    requires idle { session.old.phase ≡ Idle }
    requires time { IsLogNumber sample.now.time }
    requires cells { All (λ cell. IfSome cell IsLogNumber) sample.now.cells }
    ensures why { IsSampleRefused true session.old sample.now result }
    ensures same { session.new ≡ session.old }
{
    // An idle session has no entry, as its readers say.
    session.log();
    match session.begin(alloc, sample) {
        Ok(()) => {
            session.cancel();
            NotTaken::Refused(Refusal::Limit)
        }
        Err(refusal) => not_taken(refusal),
    }
}

impl OpenSession {
    /// The last reply.
    pub(crate) fn last(&self) -> Option<Verdict>
        ensures { result ≡ self.now.last }
    {
        self.last
    }

    /// The session, to which nothing was replied yet.
    pub(crate) fn new(session: Session) -> OpenSession
        ensures { result ≡ record { session = session; last = None } }
    {
        OpenSession {
            session,
            last: None,
        }
    }

    /// The reply to a sample, unless no more samples are accepted.
    pub(crate) fn reply<D: Drive>(
        &mut self,
        alloc: Global,
        driver: &mut D,
        sample: &Sample,
        is_full: bool,
    ) -> Result<Verdict, NotTaken>
        requires idle { self.old.session.phase ≡ Idle }
        requires time { IsLogNumber sample.now.time }
        requires cells { All (λ cell. IfSome cell IsLogNumber) sample.now.cells }
        ensures ok { IfOk result (λ v. (is_full ≡ false) × IsDriven self.old.session self.new.session sample.now v × (self.new.last ≡ Some v)) }
        ensures refusal { IfErr result (IsSampleRefused is_full self.old.session sample.now) }
        ensures err { OnErr result (self.new ≡ self.old) }
        ensures kept { IsMonitorSession self.old.session }
    {
        // An idle session has no entry, as its readers say.
        self.session.log();
        if is_full {
            return Err(refused_by_limit(alloc, &mut self.session, sample));
        }
        match driver.reply(alloc, &mut self.session, sample) {
            Ok(verdict) => {
                self.last = Some(verdict);
                Ok(verdict)
            }
            Err(refusal) => Err(not_taken(refusal)),
        }
    }
    /// The first run that explains the last reply, which is an alarm: the first one of the samples that visits an unsafe location.
    ///
    /// # Errors
    ///
    /// `Passes` only where the samples pass 128 bits, or forming their first run does; or want of memory.
    pub(crate) fn first_run(&self, alloc: Global) -> Result<Run, RowFault>
        requires alarm { EndsInAlarm self.now.session }
        ensures ok { IfOk result (IsSessionRun self.now.session) }
        ensures passes { result ≡ Err RowFault.Passes → SessionRunPasses self.now.session }
    {
        let last = self.session.log().len() - 1;
        alarm_run(alloc, &self.session.history(), last)
    }
}
