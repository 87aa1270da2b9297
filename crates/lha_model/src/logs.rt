//! Logs: samples in order, each with a time and what was observed.

ghost use Rattle.std.specs.Prelude.{◌≡◌};

use crate::sequences::Sequence;
use frac128::Frac;
use std::marker::Model;

/// A time, and a value or a blank for each variable.
#[derive(Debug, PartialEq, Eq, Hash, Drop)]
pub struct Sample {
    time: Frac,
    cells: Sequence<Option<Frac>>,
}

impl Model for Sample {
    ghost use Rattle.run_specs.specs.Logs as logs;

    ghost Value = { logs.Sample };

    ghost view = { λ s. record { time = s.time; cells = s.cells } };

    ghost inverse = { λ s. record { time = s.time; cells = s.cells } };
}

impl Sample {
    /// A sample of these fields. Takes no memory.
    pub fn new(time: Frac, cells: Vec<Option<Frac>>) -> Sample
        ensures { result ≡ record { time = time; cells = cells.items } }
    {
        Sample {
            time,
            cells: Sequence { items: cells },
        }
    }

    /// When it was taken.
    pub fn time(&self) -> &Frac
        ensures { result.now ≡ self.now.time }
    {
        &self.time
    }

    /// What was observed of each variable, in the order of the variables; `None` is a blank.
    pub fn cells(&self) -> &[Option<Frac>]
        ensures { result.now ≡ self.now.cells }
    {
        self.cells.as_slice()
    }
}

/// Samples in order.
#[derive(Debug, PartialEq, Eq, Hash, Drop)]
pub struct Log {
    samples: Sequence<Sample>,
}

impl Model for Log {
    ghost use Rattle.std.specs.Prelude.{List};
    ghost use Rattle.run_specs.specs.Logs as logs;

    ghost Value = { List logs.Sample };

    ghost view = { λ log. log.samples };

    ghost inverse = { λ samples. record { samples = samples } };
}

impl Log {
    /// A log of these samples. Takes no memory.
    pub fn new(samples: Vec<Sample>) -> Log
        ensures { result ≡ samples.items }
    {
        Log {
            samples: Sequence { items: samples },
        }
    }

    /// The samples, the first one first.
    pub fn samples(&self) -> &[Sample]
        ensures { result.now ≡ self.now }
    {
        self.samples.as_slice()
    }
}
