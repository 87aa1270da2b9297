//! Whether the lengths of a gap add up, and whether it ends near its sample.

ghost use Rattle.std.specs.Prelude.{◌≡◌, ◌↔◌, Some, pos, ◌<ℤ◌, IsTrue, IfSome, SomeIff, MatchOption};
ghost use Rattle.poly_specs.specs.Arithmetic.{lowest};
ghost use Rattle.poly_specs.specs.Bits.{FitsBits, NonePasses, SomePasses};
ghost use Rattle.poly_specs.specs.Fractions.{IsFraction, AtMost, difference, sum_of};
ghost use Rattle.number_specs.specs.LogNumbers.{IsLogNumber};
ghost use Rattle.run_specs.specs.Automaton.{width};
ghost use Rattle.run_specs.specs.Logs.{IsSample};
ghost use Rattle.run_specs.specs.Runs.{total, end_point};
ghost use Rattle.run_specs.specs.Stages.{near_sums};
ghost use Rattle.replay_specs.specs.RunChecks.{Answers, sums_from, length_steps, value_steps, near_steps, IsInRange, IsKeptGap};

use crate::numbers::{is_at_most, is_same};
use checked_integers::kept_sum;
use frac128::Frac;
use lha_model::{Automaton, GapRun, Sample};
use replay_specs::checks::Stop;

/// The sum of the lengths of the gap's legs; `None` where a partial sum passes.
fn total_length(gap: &GapRun) -> Option<i128>
    ensures { SomeIff result (NonePasses (sums_from (pos 0) gap.now.moves gap.now.last)) (total gap.now.moves gap.now.last) }
{
    let mut sum = 0;
    for m in gap.moves() {
        sum = kept_sum(sum, m.leg().stay())?;
    }
    kept_sum(sum, gap.last().stay())
}

/// The time between two samples, whose numbers are too small for it to pass.
pub fn time_between(time: &Frac, before: &Frac) -> Frac
    requires time_in_range { IsLogNumber time.now }
    requires before_in_range { IsLogNumber before.now }
    ensures { result ≡ lowest (difference time.now before.now) }
{
    time.sub(before).unwrap()
}

/// Asks that the lengths of the gap's legs add up to the time from `before` on.
pub fn lengths_add_up(gap: &GapRun, time: &Frac, before: &Frac) -> Result<(), Stop>
    requires time_in_range { IsLogNumber time.now }
    requires before_in_range { IsLogNumber before.now }
    requires positive { pos 0 <ℤ gap.now.den }
    ensures { Answers (length_steps (difference time.now before.now) gap.now) result }
{
    let duration = time_between(time, before);
    let Some(sum) = total_length(gap) else {
        return Err(Stop::Passes);
    };
    if !is_same(sum, gap.den(), duration.num(), duration.den()) {
        return Err(Stop::Fails);
    }
    Ok(())
}

/// The least and the greatest value that the tolerance allows; `None` where a number passes.
fn band(value: &Frac, tolerance: &Frac) -> Option<(Frac, Frac)>
    ensures { MatchOption result (SomePasses (near_sums tolerance.now (Some value.now)))
        (λ b. NonePasses (near_sums tolerance.now (Some value.now)) × (b.0 ≡ lowest (difference value.now tolerance.now))
        × (b.1 ≡ lowest (sum_of value.now tolerance.now))) }
{
    let most = value.add(tolerance)?;
    let least = value.sub(tolerance)?;
    Some((least, most))
}

/// Whether the fraction is at least one and at most another.
fn is_between(x: &Frac, least: &Frac, most: &Frac) -> bool
    ensures { IsTrue result ↔ AtMost least.now x.now × AtMost x.now most.now }
{
    is_at_most(least, x) && is_at_most(x, most)
}

/// Forms the sum and the difference of what is observed with the tolerance, and then asks that
/// the value is near.
fn value_is_near(tolerance: &Frac, cell: &Option<Frac>, num: i128, den: i128) -> Result<(), Stop>
    requires tolerance_fraction { IsFraction tolerance.now }
    requires cell_fraction { IfSome cell.now IsFraction }
    requires kept { FitsBits num }
    requires positive { pos 0 <ℤ den }
    ensures { Answers (value_steps tolerance.now cell.now (record { num = num; den = den })) result }
{
    let Some(value) = cell else {
        return Ok(());
    };
    let Some((least, most)) = band(value, tolerance) else {
        return Err(Stop::Passes);
    };
    if !is_between(&Frac::make(num, den), &least, &most) {
        return Err(Stop::Fails);
    }
    Ok(())
}

/// Asks that the gap ends near what its sample observes, variable by variable.
pub fn sample_holds(a: &Automaton, sample: &Sample, gap: &GapRun) -> Result<(), Stop>
    requires sized { IsSample (width a.now) sample.now }
    requires in_range { IsInRange a.now gap.now }
    requires kept { IsKeptGap gap.now }
    ensures { Answers (near_steps a.now sample.now.cells (end_point gap.now) (width a.now)) result }
{
    let end = gap.last().at_end();
    for j in 0..end.len() {
        value_is_near(&a.obs()[j], &sample.cells()[j], end[j], gap.den())?;
    }
    Ok(())
}
