//! The words of a report.

ghost use Rattle.std.specs.Prelude.{◌≡◌, ◌≤◌, length};
ghost use Rattle.log_specs.specs.Blocks.{refusal_word, verdict_word};

use log_specs::Refusal;
use run_specs::Verdict;

/// The word for a refusal.
pub(crate) fn word_of(refusal: Refusal) -> &'static [u8]
    ensures value { result.now ≡ refusal_word refusal }
    ensures short { length result.now ≤ 7 }
{
    match refusal {
        Refusal::Long => b"long",
        Refusal::Text => b"text",
        Refusal::Fields => b"fields",
        Refusal::Name => b"name",
        Refusal::Number => b"number",
        Refusal::Again => b"again",
        Refusal::Unknown => b"unknown",
        Refusal::Column => b"column",
        Refusal::Cells => b"cells",
        Refusal::Time => b"time",
        Refusal::Limit => b"limit",
    }
}

/// The word for a verdict.
pub(crate) fn verdict_text(verdict: Verdict) -> &'static [u8]
    ensures value { result.now ≡ verdict_word verdict }
    ensures short { length result.now ≤ 10 }
{
    match verdict {
        Verdict::Alarm => b"alarm",
        Verdict::Safe => b"safe",
        Verdict::Impossible => b"impossible",
        Verdict::Overflow => b"overflow",
    }
}
