//! A session.

ghost use Rattle.std.specs.Prelude.{◌≡◌, ◌≤◌, ◌<◌, ℕ, [], All, List, Option, Some, None, IfOk, IfErr, IfSome, OnOk, OnErr, length};
ghost use Rattle.std.specs.Option.{option_copied};
ghost use Rattle.std.specs.Vec.{vec_len, vec_capacity};
ghost use Rattle.std.specs.Arc.{arc_value};
ghost use Rattle.number_specs.specs.LogNumbers.{IsLogNumber};
ghost use Rattle.run_specs.specs.Automaton.{width};
ghost use Rattle.run_specs.specs.Keys as keys;
ghost use Rattle.run_specs.specs.Logs.{IsSample};
ghost use Rattle.run_specs.specs.Logs as logs;
ghost use Rattle.run_specs.specs.Openings.{IsOpening};
ghost use Rattle.run_specs.specs.SessionHistories.{opening_states, verdict_at};
ghost use Rattle.run_specs.specs.Sessions.{IsMonitorSession, AreColumns, Idle, Begun, MayBegin, accepted, wanted_for, wanted};
ghost use Rattle.run_specs.specs.Verdicts.{IsLawful};
ghost use Rattle.run_specs.specs.Worlds.{IsBegin, IsFinish};
ghost use Rattle.gap_keys.specs.Views.{AreWide, states_of};
ghost use Rattle.live_session.specs.Entries.{entry_of, opening_of, history_of};
ghost use Rattle.live_session.specs.Parts.{new_session, IsPrepared};
ghost use Rattle.live_session.specs.Refusals.{IsRefused};

use crate::beliefs::{add_given, last_belief, verdict_with};
use crate::history::History;
use crate::placing::{copied, copied_sample, placed_sample};
use crate::prepared::Prepared;
use crate::refusals::SampleRefusal;
use crate::relation::GapRelation;
use crate::times::{is_in_time, time_of_last, time_since};
use fm_eliminate::RowFault;
use gap_keys::{Belief, Key};
use lha_model::{Automaton, Sample};
use run_specs::Verdict;
use sample_succ::opening;
use std::alloc::{AllocError, Global};
use std::marker::Model;
use std::sync::Arc;
use succ_memo::Held;

/// A session: its columns, the samples that it accepted, what it remembers of their gaps, and
/// maybe a sample that is begun.
#[derive(Drop)]
pub struct Session {
    automaton: Arc<Automaton>,
    jumps: u8,
    columns: Vec<u8>,
    opened: bool,
    opening: Belief,
    log: Vec<Sample>,
    gaps: Vec<Arc<Held<GapRelation>>>,
    begun: Option<Prepared>,
    given: Option<Arc<Held<GapRelation>>>,
}

impl Model for Session {
    ghost use Rattle.std.specs.Prelude.{◌<◌};
    ghost use Rattle.std.specs.Vec.{vec_len, vec_capacity};
    ghost use Rattle.std.specs.Arc.{arc_value};
    ghost use Rattle.run_specs.specs.Sessions.{MonitorSession};
    ghost use Rattle.live_session.specs.Entries.{entries_of, given_of, history_of};
    ghost use Rattle.live_session.specs.Parts.{session_of, IsStored};

    ghost Value = { MonitorSession };

    ghost view = { λ s. session_of (history_of (arc_value s.automaton) s.jumps s.opened s.opening (entries_of s.gaps.items)) s.columns.items s.log.items (given_of s.given) s.begun };

    ghost invariant = { λ s. IsStored (session_of (history_of (arc_value s.automaton) s.jumps s.opened s.opening (entries_of s.gaps.items)) s.columns.items s.log.items (given_of s.given) s.begun)
        s.opening s.begun (vec_len s.log < vec_capacity s.log) (vec_len s.gaps < vec_capacity s.gaps) };
}

/// The most samples of a session.
const MOST_SAMPLES: usize = 200_000;

/// Makes room for one sample more, and one entry.
fn reserve_one(
    log: &mut Vec<Sample>,
    gaps: &mut Vec<Arc<Held<GapRelation>>>,
) -> Result<(), AllocError>
    ensures log { log.new.items ≡ log.old.items }
    ensures gaps { gaps.new.items ≡ gaps.old.items }
    ensures room { OnOk result ((vec_len log.new < vec_capacity log.new) × (vec_len gaps.new < vec_capacity gaps.new)) }
{
    log.reserve(1)?;
    gaps.reserve(1)?;
    Ok(())
}

/// The states at the opening, and whether they are known: forming them did not pass 128 bits.
fn opened(alloc: Global, a: &Automaton) -> Result<(bool, Belief), AllocError>
    ensures opening { IfOk result (λ r. IsOpening a.now (opening_of r.0 (states_of r.1))) }
    ensures states { IfOk result (λ r. states_of r.1 ≡ opening_states (history_of a.now 0 r.0 r.1 [])) }
    ensures wide { IfOk result (λ r. AreWide (width a.now) r.1) }
{
    match opening(alloc, a) {
        Ok(belief) => Ok((true, belief)),
        Err(RowFault::Passes) => Ok((false, Belief::new(Vec::new(alloc)))),
        Err(RowFault::Memory) => Err(AllocError),
    }
}

impl Session {
    /// A session that has accepted no sample, over these columns.
    ///
    /// Where forming the states at the opening passes 128 bits, it replies with overflow to each sample.
    ///
    /// # Errors
    ///
    /// Want of memory.
    pub fn new(
        alloc: Global,
        automaton: Arc<Automaton>,
        jumps: u8,
        columns: Vec<u8>,
    ) -> Result<Session, AllocError>
        requires jumps { jumps ≤ 6 }
        requires columns { AreColumns (width (arc_value automaton)) columns.items }
        ensures { IfOk result (λ s. (known : Option (List keys.State)) × IsOpening (arc_value automaton) known × (s ≡ new_session (arc_value automaton) jumps columns.items known)) }
    {
        // The automaton is within its limits, as its readers say.
        automaton.vars();
        let (opened, opening) = opened(alloc, &automaton)?;
        Ok(Session {
            automaton,
            jumps,
            columns,
            opened,
            opening,
            log: Vec::new(alloc),
            gaps: Vec::new(alloc),
            begun: None,
            given: None,
        })
    }

    /// The variables that its samples observe, by their numbers.
    pub fn columns(&self) -> &[u8]
        ensures value { result.now ≡ self.now.columns }
        ensures kept { IsMonitorSession self.now }
    {
        self.columns.as_slice()
    }

    /// The samples that were accepted, with a cell for each variable, blank where it is no column.
    pub fn log(&self) -> &[Sample]
        ensures value { result.now ≡ self.now.log }
        ensures kept { IsMonitorSession self.now }
    {
        self.log.as_slice()
    }

    /// What it remembers of their gaps.
    pub fn history(&self) -> History<'_>
        ensures value { result ≡ self.now.history }
        ensures kept { IsMonitorSession self.now }
    {
        History {
            automaton: &self.automaton,
            jumps: self.jumps,
            opened: self.opened,
            opening: &self.opening,
            gaps: self.gaps.as_slice(),
        }
    }

    /// The key that it wants an entry for. None where no sample is begun, an entry is given, no
    /// state is left, or it has overflowed. Takes no memory.
    pub fn want(&self) -> Option<&Key>
        ensures value { option_copied result ≡ wanted self.now }
        ensures kept { IsMonitorSession self.now }
    {
        match (&self.begun, &self.given) {
            (Some(begun), None) => begun.key.as_ref(),
            _ => None,
        }
    }

    /// Gives it the entry that it wants. Takes no memory.
    pub fn give(&mut self, entry: Arc<Held<GapRelation>>)
        requires { wanted self.old ≡ Some (arc_value entry).0 }
        ensures { self.new ≡ record self.old { given = Some (entry_of (arc_value entry)) } }
    {
        // The key is within its limits, as its readers say.
        entry.key().jumps();
        self.given = Some(entry);
    }

    /// Takes the begun sample back. Takes no memory.
    pub fn cancel(&mut self)
        requires { (sample : logs.Sample) × (self.old.phase ≡ Begun sample) }
        ensures { self.new ≡ record self.old { phase = Idle; given = None } }
    {
        self.begun = None;
        self.given = None;
    }

    /// Whether it may begin the sample; else why not.
    fn allows(&self, sample: &Sample) -> Result<(), SampleRefusal>
        ensures ok { OnOk result (MayBegin self.now sample.now) }
        ensures err { IfErr result (IsRefused self.now sample.now) }
    {
        if sample.cells().len() != self.columns.len() {
            return Err(SampleRefusal::Cells);
        }
        if !is_in_time(self.log.as_slice(), sample.time()) {
            return Err(SampleRefusal::Time);
        }
        if self.log.len() >= MOST_SAMPLES {
            return Err(SampleRefusal::Limit);
        }
        Ok(())
    }

    /// The key that the sample wants, if it wants one. Its cells stand by variable in `placed`.
    fn key_for(
        &self,
        alloc: Global,
        sample: &Sample,
        placed: &Sample,
    ) -> Result<Option<Key>, AllocError>
        requires may_begin { MayBegin self.now sample.now }
        requires sample { IsSample (length self.now.columns) sample.now }
        requires time { IsLogNumber sample.now.time }
        requires placed { placed.now ≡ accepted self.now sample.now }
        ensures { IfOk result (λ key. key ≡ wanted_for self.now sample.now None) }
    {
        let belief = last_belief(alloc, &self.opening, self.gaps.as_slice())?;
        if belief.states().is_empty() {
            return Ok(None);
        }
        let before = time_of_last(self.log.as_slice());
        let gap = time_since(sample.time(), &before);
        let seen = copied(alloc, placed.cells())?;
        let automaton = Arc::try_clone(&self.automaton)?;
        Ok(Key::make(automaton, self.jumps, belief, gap, seen))
    }

    /// All that a begun sample needs later on.
    fn prepare(&self, alloc: Global, sample: &Sample) -> Result<Prepared, AllocError>
        requires may_begin { MayBegin self.now sample.now }
        requires time { IsLogNumber sample.now.time }
        requires cells { All (λ cell. IfSome cell IsLogNumber) sample.now.cells }
        ensures sample { IfOk result (λ b. b.sample ≡ sample.now) }
        ensures prepared { IfOk result (IsPrepared self.now) }
    {
        let width = self.automaton.vars().len();
        let placed = placed_sample(alloc, width, self.columns.as_slice(), sample)?;
        let key = self.key_for(alloc, sample, &placed)?;
        let sample = copied_sample(alloc, sample)?;
        Ok(Prepared {
            sample,
            placed,
            key,
        })
    }

    /// Begins a sample, and makes room for all that the later calls need.
    ///
    /// # Errors
    ///
    /// The first of the reasons in the order of `SampleRefusal`, or want of memory. Nothing has
    /// changed then.
    pub fn begin(&mut self, alloc: Global, sample: &Sample) -> Result<(), SampleRefusal>
        requires idle { self.old.phase ≡ Idle }
        requires time { IsLogNumber sample.now.time }
        requires cells { All (λ cell. IfSome cell IsLogNumber) sample.now.cells }
        ensures ok { OnOk result (IsBegin sample.now self.old self.new) }
        ensures err { OnErr result (self.new ≡ self.old) }
        ensures refusal { IfErr result (IsRefused self.old sample.now) }
    {
        self.allows(sample)?;
        let prepared = self.prepare(alloc, sample)?;
        reserve_one(&mut self.log, &mut self.gaps)?;
        self.begun = Some(prepared);
        Ok(())
    }

    /// Accepts the begun sample, and replies to it. Takes no memory.
    ///
    /// The entry that was given joins the history, and the verdict is the one that the history then
    /// tells. After an overflow there is nothing but overflows.
    pub fn finish(&mut self) -> Verdict
        requires begun { (sample : logs.Sample) × (self.old.phase ≡ Begun sample) }
        requires nothing_wanted { wanted self.old ≡ None }
        ensures finishes { (sample : logs.Sample) → self.old.phase ≡ Begun sample → IsFinish sample result self.old self.new }
        ensures lawful { IsLawful self.new.history.automaton self.new.history.jumps self.new.log result }
        ensures stays { (i : ℕ) → verdict_at self.old.history i ≡ Some Verdict.Overflow → result ≡ Verdict.Overflow }
    {
        let verdict = verdict_with(self.opened, self.gaps.as_slice(), self.given.as_ref());
        let prepared = self.begun.take().unwrap();
        self.log.push_reserved(prepared.placed);
        add_given(&mut self.gaps, self.given.take());
        verdict
    }
}
