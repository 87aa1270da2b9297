//! What it is to drive a sample.

ghost use Rattle.std.specs.Prelude.{◌≡◌, All, IfSome, IfOk, IfErr, OnErr};
ghost use Rattle.number_specs.specs.LogNumbers.{IsLogNumber};
ghost use Rattle.run_specs.specs.Sessions.{IsMonitorSession, Idle};
ghost use Rattle.live_session.specs.Driven.{IsDriven};
ghost use Rattle.live_session.specs.Refusals.{IsRefused};

use lha_model::Sample;
use live_session::{SampleRefusal, Session, Verdict};
use std::alloc::Global;

/// A way to drive samples.
pub trait Drive {
    /// The reply of a session to a sample, which joins its log, as the entry that it wants joins the history.
    ///
    /// # Errors
    ///
    /// The first reason why the sample is refused, or want of memory. The session is then as before.
    fn reply(
        &mut self,
        alloc: Global,
        session: &mut Session,
        sample: &Sample,
    ) -> Result<Verdict, SampleRefusal>
        requires idle { session.old.phase ≡ Idle }
        requires time { IsLogNumber sample.now.time }
        requires cells { All (λ cell. IfSome cell IsLogNumber) sample.now.cells }
        ensures ok { IfOk result (IsDriven session.old session.new sample.now) }
        ensures err { OnErr result (session.new ≡ session.old) }
        ensures refusal { IfErr result (IsRefused session.old sample.now) }
        ensures kept { IsMonitorSession session.old };
}
