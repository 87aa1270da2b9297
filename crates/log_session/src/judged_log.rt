//! A log that is judged line by line.

ghost use Rattle.std.specs.Prelude.{◌≡◌, ◌+◌, ◌≤◌, ◌<◌, ℕ, List, [], length, map, true, false, All, Ok, Some, IfSome, OnOk, OnErr, bytes_eq};
ghost use Rattle.std.specs.List.{IsDistinct};
ghost use Rattle.std.specs.Arc.{arc_value};
ghost use Rattle.std.specs.Vec.{vec_len, vec_capacity};
ghost use Rattle.number_specs.specs.LogNumbers.{IsLogNumber};
ghost use Rattle.report_specs.specs.Lines.{HasNoFeed};
ghost use Rattle.run_specs.specs.Automaton.{Automaton};
ghost use Rattle.log_specs.specs.Blocks.{Task};
ghost use Rattle.log_specs.specs.LogRows.{read_header, read_cells, read_row};
ghost use Rattle.std.specs.Option.{option_map};
ghost use Rattle.log_specs.specs.declared.LogForm.TheVariants as LogForm;
ghost use Rattle.log_specs.specs.LogSessions.{refused};
ghost use Rattle.log_reader.specs.Rows.{row_said};
ghost use Rattle.alarm_report.specs.ReportLines.{most_bytes};
ghost use Rattle.log_table.specs.Tables.{cells_in};
ghost use Rattle.log_session.specs.Progress.{at_start, IsTaskOf, AddsLine};
ghost use Rattle.log_session.specs.Told.{Tells, TellsHeader, TellsCells, TellsRow, TellsOpening, TellsClosing, TellsSample, IsToldBy, IsRowOfALine};

use crate::naming::{first_of, named};
use crate::refusals::row_refusal;
use crate::running::run_behind;
use crate::tally::Tally;
use crate::words::{subject, wants_run};
use alarm_report::{put_answer, put_refusal, reserve_line};
use lha_model::{Automaton, Name, Sample};
use log_reader::{LogRow, parse_cells, parse_header, parse_row};
use log_specs::{LogForm, Refusal, RunsMode};
use log_table::{LogTable, NotTaken};
use session_drive::Drive;
use std::alloc::{AllocError, Global};
use std::marker::Model;
use std::sync::Arc;

/// A log that is judged line by line: that of one session, whose first line with a byte is its header, or rows of many sessions.
///
/// A contract sees what is known of it after the lines so far, and how often each verdict was replied. How its samples are driven is
/// none of that.
#[derive(Drop)]
pub struct JudgedLog<'a, D> {
    form: LogForm,
    models: &'a [Arc<Automaton>],
    runs: RunsMode,
    table: LogTable,
    driver: D,
    has_begun: bool,
    tally: Tally,
}

impl<'a, D> Model for JudgedLog<'a, D> {
    ghost use Rattle.std.specs.Prelude.{map};
    ghost use Rattle.std.specs.Arc.{arc_value};
    ghost use Rattle.log_session.specs.Progress.{Progress};
    ghost use Rattle.log_session.specs.Parts.{progress_of, IsKept};

    ghost Value = { Progress };

    ghost view = { λ c. progress_of c.form (map (λ a. arc_value a) c.models.now) c.runs c.table c.has_begun c.tally };

    ghost invariant = { λ c. IsKept c.form (map (λ a. arc_value a) c.models.now) c.table c.has_begun };
}

impl<'a, D: Drive> JudgedLog<'a, D> {
    /// A log of which no line was judged yet, for automata each of whose variables have distinct names, with at most 6 jumps in each
    /// gap, the runs of these alarms behind their replies, and this way to drive samples. Takes no memory.
    pub fn new(
        alloc: Global,
        form: LogForm,
        models: &'a [Arc<Automaton>],
        jumps: u8,
        runs: RunsMode,
        driver: D,
    ) -> JudgedLog<'a, D>
        requires jumps { jumps ≤ 6 }
        requires distinct { All (λ (a : Automaton). IsDistinct bytes_eq a.variables) (map (λ a. arc_value a) models.now) }
        ensures { result ≡ at_start form (map (λ a. arc_value a) models.now) jumps runs }
    {
        JudgedLog {
            form,
            models,
            runs,
            table: LogTable::new(alloc, jumps),
            driver,
            has_begun: false,
            tally: Tally::default(),
        }
    }

    /// How often each verdict was replied.
    pub fn tally(&self) -> Tally
        ensures { result ≡ self.now.tally }
    {
        self.tally
    }

    /// Refuses a line, for whose block there is room.
    fn refuse(&mut self, number: u64, refusal: Refusal, blocks: &mut Vec<u8>)
        requires { vec_len blocks.old + most_bytes ≤ vec_capacity blocks.old }
        ensures { (task : Task) → Tells task self.old self.new number (refused refusal) blocks.old.items blocks.new.items }
    {
        self.has_begun = true;
        put_refusal(blocks, number, refusal);
    }

    /// Refuses a line that the table did not take.
    fn refuse_not_taken(
        &mut self,
        number: u64,
        why: NotTaken,
        blocks: &mut Vec<u8>,
    ) -> Result<(), AllocError>
        requires { vec_len blocks.old + most_bytes ≤ vec_capacity blocks.old }
        ensures ok { OnOk result (IsToldBy self.old self.new number why blocks.old.items blocks.new.items) }
        ensures err { OnErr result (blocks.new.items ≡ blocks.old.items) }
    {
        match why {
            NotTaken::Refused(refusal) => {
                self.refuse(number, refusal, blocks);
                Ok(())
            }
            NotTaken::Memory => Err(AllocError),
        }
    }

    /// Judges an opening of a session of this name, of at most 32 bytes, by this automaton with these columns.
    fn add_opening(
        &mut self,
        alloc: Global,
        number: u64,
        name: &[u8],
        automaton: Option<&Arc<Automaton>>,
        columns: &[Name],
        blocks: &mut Vec<u8>,
    ) -> Result<(), AllocError>
        requires short { length name.now ≤ 32 }
        requires distinct { IfSome automaton (λ a. IsDistinct bytes_eq (arc_value a.now).variables) }
        requires room { vec_len blocks.old + most_bytes ≤ vec_capacity blocks.old }
        ensures ok { OnOk result (TellsOpening self.old self.new number name.now columns.now (option_map (λ a. arc_value a.now) automaton.entry) blocks.old.items blocks.new.items) }
        ensures err { OnErr result (blocks.new.items ≡ blocks.old.items) }
    {
        match self.table.open(alloc, name, automaton, columns) {
            Ok(()) => {
                self.has_begun = true;
                Ok(())
            }
            Err(why) => self.refuse_not_taken(number, why, blocks),
        }
    }

    /// Judges a closing of the session of this name, of at most 32 bytes.
    fn add_closing(
        &mut self,
        alloc: Global,
        number: u64,
        name: &[u8],
        blocks: &mut Vec<u8>,
    ) -> Result<(), AllocError>
        requires short { length name.now ≤ 32 }
        requires room { vec_len blocks.old + most_bytes ≤ vec_capacity blocks.old }
        ensures ok { OnOk result (TellsClosing self.old self.new number name.now blocks.old.items blocks.new.items) }
        ensures err { OnErr result (blocks.new.items ≡ blocks.old.items) }
    {
        match self.table.close(alloc, name) {
            Ok(()) => {
                self.has_begun = true;
                Ok(())
            }
            Err(why) => self.refuse_not_taken(number, why, blocks),
        }
    }

    /// Judges a sample of the session of this name, of at most 32 bytes, with a cell for each of its columns.
    fn add_sample(
        &mut self,
        alloc: Global,
        number: u64,
        name: &[u8],
        sample: &Sample,
        blocks: &mut Vec<u8>,
    ) -> Result<(), AllocError>
        requires short { length name.now ≤ 32 }
        requires time { IsLogNumber sample.now.time }
        requires cells { All (λ cell. IfSome cell IsLogNumber) sample.now.cells }
        requires room { vec_len blocks.old + most_bytes ≤ vec_capacity blocks.old }
        ensures ok { OnOk result (TellsSample self.old self.new number name.now (cells_in sample.now) blocks.old.items blocks.new.items) }
        ensures err { OnErr result (blocks.new.items ≡ blocks.old.items) }
    {
        let last = self.table.last_reply(alloc, name);
        match self.table.reply(alloc, &mut self.driver, name, sample) {
            Ok(verdict) => {
                self.has_begun = true;
                let Some(tally) = self.tally.with(verdict) else {
                    return Err(AllocError);
                };
                self.tally = tally;
                let is_wanted = wants_run(self.runs, last, verdict);
                let run = run_behind(alloc, &self.table, name, is_wanted)?;
                put_answer(blocks, number, subject(self.form, name), verdict, &run)
            }
            Err(why) => self.refuse_not_taken(number, why, blocks),
        }
    }

    /// Judges the first line of `check` that has a byte.
    fn add_header(
        &mut self,
        alloc: Global,
        number: u64,
        line: &[u8],
        blocks: &mut Vec<u8>,
    ) -> Result<(), AllocError>
        requires check { self.old.form ≡ LogForm.Check }
        requires first { self.old.known.state.has_begun ≡ false }
        requires no_feed { HasNoFeed line.now }
        requires room { vec_len blocks.old + most_bytes ≤ vec_capacity blocks.old }
        ensures ok { OnOk result (TellsHeader self.old self.new number (read_header line.now) blocks.old.items blocks.new.items) }
        ensures err { OnErr result (blocks.new.items ≡ blocks.old.items) }
    {
        match parse_header(alloc, line) {
            Ok(names) => {
                let automaton = first_of(self.models);
                self.add_opening(alloc, number, &[], automaton, &names, blocks)
            }
            Err(refusal) => {
                self.refuse(number, row_refusal(refusal)?, blocks);
                Ok(())
            }
        }
    }

    /// Judges a line of `check` after the header.
    fn add_cells(
        &mut self,
        alloc: Global,
        number: u64,
        line: &[u8],
        blocks: &mut Vec<u8>,
    ) -> Result<(), AllocError>
        requires no_feed { HasNoFeed line.now }
        requires room { vec_len blocks.old + most_bytes ≤ vec_capacity blocks.old }
        ensures ok { OnOk result (TellsCells self.old self.new number (read_cells line.now) blocks.old.items blocks.new.items) }
        ensures err { OnErr result (blocks.new.items ≡ blocks.old.items) }
    {
        match parse_cells(alloc, line) {
            Ok((time, cells)) => {
                let sample = Sample::new(time, cells);
                self.add_sample(alloc, number, &[], &sample, blocks)
            }
            Err(refusal) => {
                self.refuse(number, row_refusal(refusal)?, blocks);
                Ok(())
            }
        }
    }

    /// Judges what a row of `watch` says.
    fn add_row_of(
        &mut self,
        alloc: Global,
        number: u64,
        row: LogRow,
        blocks: &mut Vec<u8>,
    ) -> Result<(), AllocError>
        requires row { IsRowOfALine (row_said row) }
        requires room { vec_len blocks.old + most_bytes ≤ vec_capacity blocks.old }
        ensures ok { OnOk result (TellsRow self.old self.new number (Ok (row_said row)) blocks.old.items blocks.new.items) }
        ensures err { OnErr result (blocks.new.items ≡ blocks.old.items) }
    {
        match row {
            LogRow::Opening {
                session,
                automaton,
                columns,
            } => {
                let automaton = named(self.models, &automaton);
                self.add_opening(alloc, number, &session, automaton, &columns, blocks)
            }
            LogRow::Sample {
                session,
                time,
                cells,
            } => {
                let sample = Sample::new(time, cells);
                self.add_sample(alloc, number, &session, &sample, blocks)
            }
            LogRow::Closing { session } => self.add_closing(alloc, number, &session, blocks),
            LogRow::Flush => {
                self.has_begun = true;
                Ok(())
            }
        }
    }

    /// Judges a line of `watch`.
    fn add_row(
        &mut self,
        alloc: Global,
        number: u64,
        line: &[u8],
        blocks: &mut Vec<u8>,
    ) -> Result<(), AllocError>
        requires no_feed { HasNoFeed line.now }
        requires room { vec_len blocks.old + most_bytes ≤ vec_capacity blocks.old }
        ensures ok { OnOk result (TellsRow self.old self.new number (read_row line.now) blocks.old.items blocks.new.items) }
        ensures err { OnErr result (blocks.new.items ≡ blocks.old.items) }
    {
        match parse_row(alloc, line) {
            Ok(row) => self.add_row_of(alloc, number, row, blocks),
            Err(refusal) => {
                self.refuse(number, row_refusal(refusal)?, blocks);
                Ok(())
            }
        }
    }

    /// Judges the line of this number, counted from 1, and adds its block.
    ///
    /// # Errors
    ///
    /// Want of memory. The blocks are then as before.
    pub fn add_line(
        &mut self,
        alloc: Global,
        number: u64,
        line: &[u8],
        blocks: &mut Vec<u8>,
    ) -> Result<(), AllocError>
        requires { HasNoFeed line.now }
        ensures ok { OnOk result ((task : Task) → IsTaskOf task self.old → AddsLine task self.old self.new number line.now blocks.old.items blocks.new.items) }
        ensures err { OnErr result (blocks.new.items ≡ blocks.old.items) }
    {
        if line.is_empty() {
            return Ok(());
        }
        reserve_line(blocks)?;
        match self.form {
            LogForm::Watch => self.add_row(alloc, number, line, blocks),
            LogForm::Check if self.has_begun => self.add_cells(alloc, number, line, blocks),
            LogForm::Check => self.add_header(alloc, number, line, blocks),
        }
    }

    /// Judges the line of this number, which has more than 4,096 bytes, and adds its block.
    ///
    /// # Errors
    ///
    /// Want of memory. The blocks are then as before.
    pub fn add_long(&mut self, number: u64, blocks: &mut Vec<u8>) -> Result<(), AllocError>
        ensures ok { OnOk result ((task : Task) (line : List ℕ) → IsTaskOf task self.old → 4096 < length line → AddsLine task self.old self.new number line blocks.old.items blocks.new.items) }
        ensures err { OnErr result (blocks.new.items ≡ blocks.old.items) }
    {
        reserve_line(blocks)?;
        self.refuse(number, Refusal::Long, blocks);
        Ok(())
    }
}
