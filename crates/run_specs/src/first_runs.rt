//! A log with a run that meets an aim has a first such run, and has at most one.

ghost use Rattle.std.specs.Prelude.{◌≡◌, ◌↔◌, ℕ, ◌<◌, IsSomeAnd, List, length, slice_get};
ghost use Rattle.poly_specs.specs.Fractions.{Fraction, SameFraction};
ghost use Rattle.poly_specs.specs.Rows.{SamePoint};
ghost use Rattle.poly_specs.specs.Sets.{IsInterval};
ghost use Rattle.run_specs.specs.Automaton.{Automaton, width};
ghost use Rattle.run_specs.specs.WellFormed.{IsWellFormed};
ghost use Rattle.run_specs.specs.Logs.{Sample, IsLog};
ghost use Rattle.run_specs.specs.Runs.{Run, IsRun, VisitsUnsafe};
ghost use Rattle.run_specs.specs.Aims.{Aim, Meets, IsAimedRun, to_alarm, to_value};
ghost use Rattle.run_specs.specs.FirstRun.{last_values, picked, IsLeft, IsFirstRun};

/// A run meets the aim of an alarm exactly where it visits an unsafe location.
pub fn alarm_is_a_visit()
    ensures { (a : Automaton) (run : Run) → Meets a to_alarm run ↔ VisitsUnsafe a run }
{}

/// A run meets the aim of a value exactly where its last value of the variable is that fraction.
pub fn aim_of_a_value()
    ensures { (a : Automaton) (k : ℕ) (log : List Sample) (run : Run) (j : ℕ) (v : Fraction) → IsRun a k log run → j < width a →
        Meets a (to_value (width a) j v) run ↔ IsSomeAnd (slice_get (last_values run.gaps) j) (λ x. SameFraction x v) }
{}

/// The values that are left for a number of a run are an interval: between two runs of one history there are all runs.
pub fn values_left_are_an_interval()
    ensures { (a : Automaton) (k : ℕ) (log : List Sample) (aim : Aim) (run : Run) (i : ℕ) → IsWellFormed a → IsAimedRun a k log aim run → i < length (picked run) →
        IsInterval (IsLeft a k log aim run i) }
{}

/// Two first runs of a log that meet an aim have the same gaps, written alike, and the same start.
pub fn one_first_run()
    ensures { (a : Automaton) (k : ℕ) (log : List Sample) (aim : Aim) (run other : Run) → IsWellFormed a →
        IsFirstRun a k log aim run → IsFirstRun a k log aim other →
        (run.gaps ≡ other.gaps) × (run.start.loc ≡ other.start.loc) × SamePoint run.start.point other.start.point }
{}

/// Where some run of a log meets an aim, there is a first one.
pub fn some_first_run()
    ensures { (a : Automaton) (k : ℕ) (log : List Sample) (aim : Aim) (other : Run) → IsWellFormed a → IsLog (width a) log →
        IsAimedRun a k log aim other → (run : Run) × IsFirstRun a k log aim run }
{}
