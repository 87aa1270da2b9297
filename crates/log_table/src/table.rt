//! The table of open sessions.

ghost use Rattle.std.specs.Prelude.{◌≡◌, ◌≤◌, All, Some, Err, IfSome, IfOk, IfErr, OnOk, OnErr, length, bytes_eq, nat_le};
ghost use Rattle.std.specs.List.{IsDistinct};
ghost use Rattle.std.specs.Option.{option_map};
ghost use Rattle.std.specs.Arc.{arc_value};
ghost use Rattle.number_specs.specs.LogNumbers.{IsLogNumber};
ghost use Rattle.log_specs.specs.LogSessions.{judge_opening, judge_sample, judge_closing, session_of};
ghost use Rattle.log_table.specs.Tables.{state_with, empty_table, cells_in, IsOpening, IsClosing, IsAccepted};
ghost use Rattle.log_specs.specs.Blocks.{last_of};
ghost use Rattle.run_specs.specs.declared.Verdict.TheVariants as verdict;
ghost use Rattle.log_table.specs.Refusals.{IsNotTaken};
ghost use Rattle.log_table.specs.FirstRuns.{IsFirstRunOf, FirstRunOfPasses};

use crate::NotTaken;
use crate::columns::columns_of;
use crate::names::SessionName;
use crate::opened::OpenSession;
use fm_eliminate::RowFault;
use indexmap::IndexMap;
use lha_model::{Automaton, Name, Run, Sample};
use live_session::{Session, Verdict};
use log_specs::Refusal;
use session_drive::Drive;
use std::alloc::Global;
use std::marker::Model;
use std::sync::Arc;

/// The most sessions that are open at once.
const MOST_OPEN: usize = 1000;

/// The most samples that are accepted.
const MOST_ACCEPTED: u32 = 200_000;

/// Whether no more samples are accepted, where so many were.
fn is_full(accepted: u32) -> bool
    ensures { result ≡ nat_le 200000 accepted }
{
    accepted >= MOST_ACCEPTED
}

/// The sessions of a log that are open, in the order of their openings.
///
/// A contract sees them as the log has them, the last reply to each, and how many samples were accepted.
#[derive(Drop)]
pub struct LogTable {
    jumps: u8,
    sessions: IndexMap<SessionName, OpenSession>,
    accepted: u32,
}

impl Model for LogTable {
    ghost use Rattle.log_table.specs.Tables.{Table};
    ghost use Rattle.log_table.specs.Parts.{table_of, IsKept};

    ghost Value = { Table };

    ghost view = { λ t. table_of t.jumps t.sessions.entries t.accepted };

    ghost invariant = { λ t. IsKept t.jumps t.sessions.entries t.accepted };
}

impl LogTable {
    /// A table without a session, whose sessions have at most 6 jumps in each gap. Takes no memory.
    pub fn new(alloc: Global, jumps: u8) -> LogTable
        requires { jumps ≤ 6 }
        ensures { result ≡ empty_table jumps }
    {
        LogTable {
            jumps,
            sessions: IndexMap::new(alloc),
            accepted: 0,
        }
    }

    /// Opens a session of this name, of at most 32 bytes, by this automaton with these observed variables.
    ///
    /// # Errors
    ///
    /// The first reason why it is refused, or want of memory. The table is then as before.
    pub fn open(
        &mut self,
        alloc: Global,
        name: &[u8],
        automaton: Option<&Arc<Automaton>>,
        columns: &[Name],
    ) -> Result<(), NotTaken>
        requires short { length name.now ≤ 32 }
        requires distinct { IfSome automaton (λ a. IsDistinct bytes_eq (arc_value a.now).variables) }
        ensures ok { OnOk result (IsOpening self.old self.new name.now columns.now (option_map (λ a. arc_value a.now) automaton.entry)) }
        ensures refusal { IfErr result (IsNotTaken (λ begun. judge_opening (state_with begun self.old) name.now columns.now (option_map (λ a. arc_value a.now) automaton.entry) (session_of (state_with begun self.old) name.now))) }
        ensures err { OnErr result (self.new ≡ self.old) }
    {
        let name = SessionName::of(alloc, name);
        if self.sessions.contains_key(&name) {
            return Err(NotTaken::Refused(Refusal::Again));
        }
        let Some(automaton) = automaton else {
            return Err(NotTaken::Refused(Refusal::Unknown));
        };
        let Some(columns) = columns_of(alloc, automaton.vars(), columns)? else {
            return Err(NotTaken::Refused(Refusal::Column));
        };
        if self.sessions.len() >= MOST_OPEN {
            return Err(NotTaken::Refused(Refusal::Limit));
        }
        let automaton = Arc::try_clone(automaton)?;
        let session = Session::new(alloc, automaton, self.jumps, columns)?;
        match self.sessions.insert(name, OpenSession::new(session)) {
            Ok(_) => Ok(()),
            Err(_) => Err(NotTaken::Memory),
        }
    }

    /// Closes the session of this name, of at most 32 bytes.
    ///
    /// # Errors
    ///
    /// It is not open. The table is then as before.
    pub fn close(&mut self, alloc: Global, name: &[u8]) -> Result<(), NotTaken>
        requires short { length name.now ≤ 32 }
        ensures ok { OnOk result (IsClosing self.old self.new name.now) }
        ensures refusal { IfErr result (IsNotTaken (λ begun. judge_closing name.now (session_of (state_with begun self.old) name.now))) }
        ensures err { OnErr result (self.new ≡ self.old) }
    {
        match self.sessions.shift_remove(&SessionName::of(alloc, name)) {
            Some(_) => Ok(()),
            None => Err(NotTaken::Refused(Refusal::Unknown)),
        }
    }

    /// The reply to a sample of the session of this name, of at most 32 bytes, with a cell for each of its columns. The sample is then
    /// accepted.
    ///
    /// # Errors
    ///
    /// The first reason why it is refused, or want of memory. The table is then as before.
    pub fn reply<D: Drive>(
        &mut self,
        alloc: Global,
        driver: &mut D,
        name: &[u8],
        sample: &Sample,
    ) -> Result<Verdict, NotTaken>
        requires short { length name.now ≤ 32 }
        requires time { IsLogNumber sample.now.time }
        requires cells { All (λ cell. IfSome cell IsLogNumber) sample.now.cells }
        ensures ok { IfOk result (IsAccepted self.old self.new name.now (cells_in sample.now)) }
        ensures refusal { IfErr result (IsNotTaken (λ begun. judge_sample (state_with begun self.old) (cells_in sample.now) (session_of (state_with begun self.old) name.now))) }
        ensures err { OnErr result (self.new ≡ self.old) }
    {
        let is_full = is_full(self.accepted);
        let Some(opened) = self.sessions.get_mut(&SessionName::of(alloc, name)) else {
            return Err(NotTaken::Refused(Refusal::Unknown));
        };
        match opened.reply(alloc, driver, sample, is_full) {
            Ok(verdict) => {
                self.accepted += 1;
                Ok(verdict)
            }
            Err(why) => Err(why),
        }
    }

    /// The last reply to the open session of this name, of at most 32 bytes; `None` before the first, and where none of this name is
    /// open.
    pub fn last_reply(&self, alloc: Global, name: &[u8]) -> Option<Verdict>
        requires { length name.now ≤ 32 }
        ensures { result ≡ last_of self.now.replied name.now }
    {
        self.sessions.get(&SessionName::of(alloc, name))?.last()
    }

    /// The first run that explains the last reply to the session of this name, of at most 32 bytes, which is an alarm: the first one of
    /// its samples that visits an unsafe location.
    ///
    /// # Errors
    ///
    /// `Passes` only where the session's samples pass 128 bits, or forming their first run does; or want of memory.
    pub fn first_run(&self, alloc: Global, name: &[u8]) -> Result<Run, RowFault>
        requires short { length name.now ≤ 32 }
        requires alarm { last_of self.now.replied name.now ≡ Some verdict.Alarm }
        ensures ok { IfOk result (IsFirstRunOf self.now name.now) }
        ensures passes { result ≡ Err RowFault.Passes → FirstRunOfPasses self.now name.now }
    {
        match self.sessions.get(&SessionName::of(alloc, name)) {
            Some(opened) => opened.first_run(alloc),
            None => Err(RowFault::Memory),
        }
    }
}
