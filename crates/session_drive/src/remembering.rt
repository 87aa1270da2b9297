//! Drives samples over a memo of its own.

ghost use Rattle.std.specs.Prelude.{◌≡◌, ◌≤◌, [], Some, None, IfOk};
ghost use Rattle.succ_memo.specs.Memo.{memo_of, no_totals};

use crate::counts::DriveFault;
use crate::driver::Drive;
use crate::fillers::Step;
use crate::local::drive_local;
use lha_model::Sample;
use live_session::{GapRelation, SampleRefusal, Session, Verdict};
use std::alloc::{AllocError, Global};
use std::marker::Model;
use succ_memo::{Fill, Filler, MemoState, Totals};

/// Drives each sample over one memo: the entry of a gap is made where the memo has none for its key.
///
/// A contract sees the memo.
#[derive(Drop)]
pub struct Remembering<F: Fill<GapRelation>> {
    filler: Filler<GapRelation, F>,
    memo: MemoState<GapRelation>,
}

impl<F: Fill<GapRelation>> Model for Remembering<F> {
    ghost use Rattle.session_drive.specs.Remembered.{GapMemo};

    ghost Value = { GapMemo };

    ghost view = { λ r. r.memo };
}

impl Remembering<Step> {
    /// Makes entries by a step over the gap, and begins with an empty memo without a bound. Takes no
    /// memory.
    pub fn new() -> Remembering<Step>
        ensures { result ≡ memo_of [] None no_totals }
    {
        Remembering::over(MemoState::new(), Filler::new(Step))
    }

    /// Makes entries by a step over the gap, and begins with an empty memo of at most `most` entries,
    /// which is 1 or more.
    ///
    /// # Errors
    ///
    /// Want of memory.
    pub fn bounded(alloc: Global, most: usize) -> Result<Remembering<Step>, AllocError>
        requires { 1 ≤ most }
        ensures { IfOk result (λ driver. driver ≡ memo_of [] (Some most) no_totals) }
    {
        let memo = MemoState::bounded(alloc, most)?;
        Ok(Remembering::over(memo, Filler::new(Step)))
    }
}

impl<F: Fill<GapRelation>> Remembering<F> {
    /// Makes entries by this filler, and begins with this memo. Takes no memory.
    pub fn over(memo: MemoState<GapRelation>, filler: Filler<GapRelation, F>) -> Remembering<F>
        ensures { result ≡ memo }
    {
        Remembering { filler, memo }
    }

    /// The counts of its memo. Takes no memory.
    pub fn totals(&self) -> Totals
        ensures { result ≡ self.now.totals }
    {
        self.memo.totals()
    }
}

impl<F: Fill<GapRelation>> Drive for Remembering<F> {
    fn reply(
        &mut self,
        alloc: Global,
        session: &mut Session,
        sample: &Sample,
    ) -> Result<Verdict, SampleRefusal> {
        match drive_local(alloc, session, &mut self.memo, &self.filler, sample) {
            Ok((verdict, _)) => Ok(verdict),
            Err(DriveFault::Refused(why)) => Err(why),
            Err(DriveFault::Memory) => Err(SampleRefusal::Memory),
        }
    }
}
