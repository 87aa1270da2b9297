//! What the lines of a log gave so far.

ghost use Rattle.std.specs.Prelude.{◌≡◌, [], ◌∷◌, false, true, None, OnOk};
ghost use Rattle.report_specs.specs.Lines.{HasNoFeed};
ghost use Rattle.log_specs.specs.declared.LogForm.TheVariants.{Check};
ghost use Rattle.log_specs.specs.LogRows.{read_header, read_cells};
ghost use Rattle.log_specs.specs.LogSessions.{judge, judge_header, judge_cells};
ghost use Rattle.log_samples.specs.SoFar.{Takes, IsKept, state_of};

use crate::rows::{columns_of, sample_of};
use lha_model::{Automaton, Log, Name, Sample};
use std::alloc::{AllocError, Global};
use std::marker::Model;

/// What the lines of a log gave so far: the columns, if its session is open, and the samples.
#[derive(Drop)]
pub(crate) struct SoFar<'a> {
    automaton: &'a Automaton,
    has_begun: bool,
    columns: Option<Vec<Name>>,
    samples: Vec<Sample>,
}

impl<'a> Model for SoFar<'a> {
    ghost use Rattle.std.specs.Option.{option_map};
    ghost use Rattle.log_samples.specs.SoFar as so_far;
    ghost use Rattle.log_samples.specs.SoFar.{IsKept};

    ghost Value = { so_far.SoFar };

    ghost view = { λ s. record { automaton = s.automaton.now; has_begun = s.has_begun; columns = option_map (λ c. c.items) s.columns; samples = s.samples.items } };

    ghost invariant = { λ s. IsKept (record { automaton = s.automaton.now; has_begun = s.has_begun; columns = option_map (λ c. c.items) s.columns; samples = s.samples.items }) };
}

impl<'a> SoFar<'a> {
    /// Before the first line. Takes no memory.
    pub(crate) fn new(alloc: Global, automaton: &'a Automaton) -> SoFar<'a>
        ensures { result ≡ record { automaton = automaton.now; has_begun = false; columns = None; samples = [] } }
    {
        SoFar {
            automaton,
            has_begun: false,
            columns: None,
            samples: Vec::new(alloc),
        }
    }

    /// Takes the header.
    fn take_header(&mut self, alloc: Global, line: &[u8]) -> Result<(), AllocError>
        requires first { self.old.has_begun ≡ false }
        requires no_feed { HasNoFeed line.now }
        ensures { OnOk result (Takes self.old self.new (judge_header (self.old.automaton ∷ []) (state_of self.old) (read_header line.now))) }
    {
        let columns = columns_of(alloc, self.automaton, line)?;
        self.columns = columns;
        self.has_begun = true;
        Ok(())
    }

    /// Takes a line after the header.
    fn take_cells(&mut self, alloc: Global, line: &[u8]) -> Result<(), AllocError>
        requires begun { self.old.has_begun ≡ true }
        requires no_feed { HasNoFeed line.now }
        ensures { OnOk result (Takes self.old self.new (judge_cells (state_of self.old) (read_cells line.now))) }
    {
        let Some(columns) = &self.columns else {
            return Ok(());
        };
        let found = sample_of(alloc, self.automaton, columns, &self.samples, line)?;
        if let Some(sample) = found {
            self.samples.push(sample)?;
        }
        Ok(())
    }

    /// Takes the next line.
    pub(crate) fn take_line(&mut self, alloc: Global, line: &[u8]) -> Result<(), AllocError>
        requires { HasNoFeed line.now }
        ensures { OnOk result (Takes self.old self.new (judge Check (self.old.automaton ∷ []) (state_of self.old) line.now)) }
    {
        if line.is_empty() {
            return Ok(());
        }
        if self.has_begun {
            self.take_cells(alloc, line)
        } else {
            self.take_header(alloc, line)
        }
    }

    /// The samples.
    pub(crate) fn into_log(self) -> Log
        ensures samples { result ≡ self.entry.samples }
        ensures kept { IsKept self.entry }
    {
        Log::new(self.samples)
    }
}
