//! The events of a case.

ghost use Rattle.std.specs.Prelude.{All, IfOk, IfSome};
ghost use Rattle.number_specs.specs.LogNumbers.{IsLogNumber};
ghost use Rattle.report_specs.specs.Lines.{HasNoFeed};
ghost use Rattle.interleave_core.specs.Events.{HasLogNumbers};

use case_texts::Missing;
use case_texts::texts::parts;
use interleave_core::Event;
use lha_model::Sample;
use log_reader::{first_feed, parse_cells};
use std::alloc::{AllocError, Global};
use std::marker::Model;

/// Events whose samples have numbers of a log.
#[derive(Drop)]
pub(crate) struct Script {
    events: Vec<Event>,
}

impl Model for Script {
    ghost use Rattle.std.specs.Prelude.{List, All};
    ghost use Rattle.interleave_core.specs.declared.events.Event.{Event};
    ghost use Rattle.interleave_core.specs.Events.{HasLogNumbers};

    ghost Value = { List Event };

    ghost view = { λ s. s.events.items };

    ghost invariant = { λ s. All HasLogNumbers s.events.items };
}

impl Script {
    fn new(alloc: Global) -> Script {
        Script {
            events: Vec::new(alloc),
        }
    }

    fn add(&mut self, event: Event) -> Result<(), AllocError>
        requires { HasLogNumbers event }
    {
        self.events.push(event)?;
        Ok(())
    }

    /// The events.
    pub(crate) fn events(&self) -> &[Event]
        ensures { All HasLogNumbers result.now }
    {
        self.events.as_slice()
    }
}

fn session_of(text: &str) -> Result<u32, Missing> {
    match text.trim().parse::<u32>() {
        Ok(number) => Ok(number),
        Err(_) => Err(Missing::Form),
    }
}

/// The sample that a line of a log writes.
fn sample_of(alloc: Global, line: &[u8]) -> Result<Sample, Missing>
    requires { HasNoFeed line.now }
    ensures { IfOk result (λ s. IsLogNumber s.time × All (λ cell. IfSome cell IsLogNumber) s.cells) }
{
    match parse_cells(alloc, line) {
        Ok((time, cells)) => {
            let sample = Sample::new(time, cells);
            Ok(sample)
        }
        Err(_) => Err(Missing::Form),
    }
}

/// The beginning of a sample.
fn beginning(alloc: Global, text: &str) -> Result<Event, Missing>
    ensures { IfOk result HasLogNumbers }
{
    let (session, cells) = parts(text, ' ')?;
    let session = session_of(session)?;
    let line = cells.as_bytes();
    if first_feed(line).is_some() {
        return Err(Missing::Form);
    }
    let sample = sample_of(alloc, line)?;
    Ok(Event::Begin { session, sample })
}

/// The event that a text writes.
fn event_of(alloc: Global, text: &str) -> Result<Event, Missing>
    ensures { IfOk result HasLogNumbers }
{
    let (word, rest) = parts(text.trim(), ' ')?;
    match word {
        "begin" => beginning(alloc, rest),
        "hit" => Ok(Event::LookHit {
            session: session_of(rest)?,
        }),
        "miss" => Ok(Event::LookMiss {
            session: session_of(rest)?,
        }),
        "fill" => Ok(Event::Fill {
            session: session_of(rest)?,
        }),
        "put" => Ok(Event::Put {
            session: session_of(rest)?,
        }),
        "finish" => Ok(Event::Finish {
            session: session_of(rest)?,
        }),
        _ => Err(Missing::Form),
    }
}

/// The events that a line writes, with `;` between them.
pub(crate) fn script_of(alloc: Global, line: &str) -> Result<Script, Missing> {
    let mut script = Script::new(alloc);
    for text in line.split(';') {
        script.add(event_of(alloc, text)?)?;
    }
    Ok(script)
}
