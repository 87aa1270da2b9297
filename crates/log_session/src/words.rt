//! What the blocks of lines speak of.

ghost use Rattle.std.specs.Prelude.{◌≡◌, IfSome};
ghost use Rattle.std.specs.Option.{option_map};
ghost use Rattle.log_specs.specs.Blocks as blocks;
ghost use Rattle.alarm_report.specs.ReportLines.{spoken_of};

use log_specs::{LogForm, RunsMode};
use run_specs::Verdict;

/// Whether a reply is an alarm.
fn is_alarm(verdict: Verdict) -> bool
    ensures { result ≡ blocks.is_alarm verdict }
{
    matches!(verdict, Verdict::Alarm)
}

/// Whether the reply before was an alarm.
fn was_alarm(last: Option<Verdict>) -> bool
    ensures { result ≡ blocks.was_alarm last }
{
    match last {
        Some(verdict) => is_alarm(verdict),
        None => false,
    }
}

/// Whether a run is printed, by the session's reply before and this one.
pub(crate) fn wants_run(runs: RunsMode, last: Option<Verdict>, verdict: Verdict) -> bool
    ensures { result ≡ blocks.wants_run runs last verdict }
{
    match runs {
        RunsMode::None => false,
        RunsMode::First => is_alarm(verdict) && !was_alarm(last),
        RunsMode::All => is_alarm(verdict),
    }
}

/// Who a reply speaks of: nobody in `check`, the session in `watch`.
pub(crate) fn subject<'a>(form: LogForm, name: &'a [u8]) -> Option<&'a [u8]>
    ensures told { spoken_of (option_map (λ n. n.now) result) ≡ blocks.subject form name.now }
    ensures within { IfSome result (λ n. n.now ≡ name.now) }
{
    match form {
        LogForm::Check => None,
        LogForm::Watch => Some(name),
    }
}
