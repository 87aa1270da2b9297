//! From which rows the last values of a first run are picked.

ghost use Rattle.std.specs.Prelude.{◌≡◌, ◌↔◌, ℕ, ◌<◌, List, length, Some, pos, ◌<ℤ◌};
ghost use Rattle.poly_specs.specs.Fractions.{Fraction};
ghost use Rattle.poly_specs.specs.Rows.{Point, Row, AllHold};
ghost use Rattle.poly_specs.specs.Pickings.{IsOpen};
ghost use Rattle.run_specs.specs.Automaton.{Automaton, width, location_at};
ghost use Rattle.run_specs.specs.WellFormed.{IsWellFormed};
ghost use Rattle.run_specs.specs.Logs.{Sample, IsLog};
ghost use Rattle.run_specs.specs.Runs.{Run};
ghost use Rattle.run_specs.specs.Passes.{AllFit, history_rows};
ghost use Rattle.run_specs.specs.Histories.{History};
ghost use Rattle.run_specs.specs.Aims.{Aim, IsAimedRun};
ghost use Rattle.run_specs.specs.FirstRun.{IsLeft};
ghost use Rattle.run_specs.specs.RunPasses.{last_picking};
ghost use Rattle.run_specs.specs.StateHistories.{EndsRun};

/// The rows after the plain stages of a history hold exactly where runs with this history end.
pub fn history_rows_are_exact()
    ensures { (a : Automaton) (k : ℕ) (log : List Sample) (h : History) (init : List Row) (q : Point) → IsWellFormed a → IsLog (width a) log → 0 < length log →
        length h.paths ≡ length log → AllFit a k h.start h.paths → (location_at a h.start).init ≡ Some init → pos 0 <ℤ q.den → length q.num ≡ width a →
        AllHold (history_rows a log h.start h.paths init) q ↔ ((run : Run) × EndsRun a k log h q run) }
{}

/// What is left for a last value of a run that meets an aim is what its picking leaves open:
/// the rows of the last state and the aim's rows, with the last values before it.
pub fn last_values_left_are_open()
    ensures { (a : Automaton) (k : ℕ) (log : List Sample) (aim : Aim) (run : Run) (init : List Row) (i : ℕ) (v : Fraction) → IsWellFormed a → IsLog (width a) log →
        IsAimedRun a k log aim run → (location_at a run.start.loc).init ≡ Some init → i < width a →
        IsLeft a k log aim run i v ↔ IsOpen (last_picking a log run init aim.rows) i v }
{}
