//! Plays the events of a case, and writes what came of them.

ghost use Rattle.std.specs.Prelude.{◌≡◌, IfOk};
ghost use Rattle.run_specs.specs.Sessions.{Idle};

use crate::events::script_of;
use case_texts::Missing;
use interleave_core::{PlayFault, World};
use lha_model::Automaton;
use live_session::{Session, Verdict};
use std::alloc::{AllocError, Global};
use std::sync::Arc;
use succ_memo::Totals;

/// A session of an automaton with one variable, which it observes, with at most two jumps in each gap.
fn opened(alloc: Global, automaton: &Arc<Automaton>) -> Result<Session, Missing>
    ensures { IfOk result (λ s. s.phase ≡ Idle) }
{
    if automaton.vars().len() != 1 {
        return Err(Missing::Form);
    }
    let mut columns = Vec::new(alloc);
    columns.push(0u8)?;
    let automaton = Arc::try_clone(automaton)?;
    Ok(Session::new(alloc, automaton, 2, columns)?)
}

/// A world of two such sessions.
fn world_of(alloc: Global, models: &[Arc<Automaton>]) -> Result<World, Missing> {
    let Some(automaton) = models.first() else {
        return Err(Missing::Form);
    };
    let mut sessions = Vec::new(alloc);
    sessions.push(opened(alloc, automaton)?)?;
    sessions.push(opened(alloc, automaton)?)?;
    Ok(World::new(alloc, sessions)?)
}

fn word(verdict: Verdict) -> &'static str {
    match verdict {
        Verdict::Alarm => "alarm",
        Verdict::Safe => "safe",
        Verdict::Impossible => "impossible",
        Verdict::Overflow => "overflow",
    }
}

/// The replies that were told, each behind the number of its session.
fn told(text: &mut String, replies: &[(u32, Verdict)]) -> Result<(), AllocError> {
    for (session, verdict) in replies {
        text.push_str(if *session == 0 { "0 " } else { "1 " })?;
        text.push_str(word(*verdict))?;
        text.push_str(", ")?;
    }
    Ok(())
}

/// What came of the events: replies or a place, the counts of the memo, and the samples of each session.
fn written(
    alloc: Global,
    played: Result<Vec<(u32, Verdict)>, PlayFault>,
    totals: Totals,
    sessions: &[Session],
) -> Result<String, Missing> {
    let mut text = String::new(alloc);
    match played {
        Ok(replies) => told(&mut text, &replies)?,
        Err(PlayFault::NotEnabled { place }) => write!(text, "not allowed {place}, ")?,
        Err(PlayFault::Memory) => return Err(Missing::Memory),
    }
    let Totals {
        looks,
        hits,
        puts,
        given_up,
    } = totals;
    write!(
        text,
        "looks {looks} hits {hits} puts {puts} given up {given_up}, samples"
    )?;
    for session in sessions {
        let count = session.log().len();
        write!(text, " {count}")?;
    }
    Ok(text)
}

/// The answer to a line.
pub(crate) fn answer(
    alloc: Global,
    models: &[Arc<Automaton>],
    line: &str,
) -> Result<String, Missing> {
    let script = script_of(alloc, line)?;
    let events = script.events();
    if events.len() > 1000 {
        return Err(Missing::Form);
    }
    let mut world = world_of(alloc, models)?;
    let played = world.play(alloc, events);
    let totals = world.totals();
    let sessions = world.end();
    written(alloc, played, totals, &sessions)
}
