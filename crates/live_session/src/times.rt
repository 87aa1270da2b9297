//! The times of samples, and the lengths of gaps.

ghost use Rattle.std.specs.Prelude.{◌≡◌, ◌↔◌, IsTrue};
ghost use Rattle.poly_specs.specs.Arithmetic.{lowest};
ghost use Rattle.poly_specs.specs.Fractions.{difference};
ghost use Rattle.number_specs.specs.LogNumbers.{IsLogNumber};
ghost use Rattle.run_specs.specs.Sessions.{last_time, IsInTime};

use frac128::Frac;
use lha_model::Sample;

/// The time of the last sample; 0 before the first.
pub(crate) fn time_of_last(log: &[Sample]) -> Frac
    ensures { result ≡ last_time log.now }
{
    match log.last() {
        Some(sample) => *sample.time(),
        None => Frac::make(0, 1),
    }
}

/// Whether a sample at this time may follow: the first at 0 or later, any other after the last.
pub(crate) fn is_in_time(log: &[Sample], time: &Frac) -> bool
    ensures { IsTrue result ↔ IsInTime log.now time.now }
{
    let order = time_of_last(log).cmp(time);
    if log.is_empty() {
        order.is_le()
    } else {
        order.is_lt()
    }
}

/// The time since another, where both are numbers of a log, which are too small for it to pass.
pub(crate) fn time_since(time: &Frac, before: &Frac) -> Frac
    requires time { IsLogNumber time.now }
    requires before { IsLogNumber before.now }
    ensures { result ≡ lowest (difference time.now before.now) }
{
    time.sub(before).unwrap()
}
