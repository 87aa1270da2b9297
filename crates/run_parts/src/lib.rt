//! From which rows all numbers of a first run are picked.
#![tactic(auto)]

ghost use Rattle.std.specs.Prelude.{◌≡◌, ℕ, ◌<◌, List, ◌∷◌, ◌++◌, length, All, Some};
ghost use Rattle.std.specs.List.{AllZip};
ghost use Rattle.poly_specs.specs.Lists.{In};
ghost use Rattle.poly_specs.specs.Fractions.{Fraction, IsFraction, SameFraction};
ghost use Rattle.poly_specs.specs.Rows.{Row};
ghost use Rattle.poly_specs.specs.Bits.{SomePasses};
ghost use Rattle.poly_specs.specs.Denominators.{common_numbers};
ghost use Rattle.poly_specs.specs.Pickings.{Picking, ArePicked};
ghost use Rattle.run_specs.specs.Automaton.{Automaton, width, location_at};
ghost use Rattle.run_specs.specs.WellFormed.{IsWellFormed};
ghost use Rattle.run_specs.specs.Logs.{Sample, IsLog};
ghost use Rattle.run_specs.specs.Runs.{GapRun, Run, IsRun, path_of};
ghost use Rattle.run_specs.specs.Aims.{Aim, IsAimedRun};
ghost use Rattle.run_specs.specs.FirstRun.{backwards, IsFirstRun};
ghost use Rattle.run_specs.specs.RunPasses.{pickings, gap_numbers, RunPasses};
ghost use Rattle.run_parts.specs.Widths.{IsWide};

/// Each number of a first run is the pick of what its picking leaves open.
pub fn numbers_of_first_runs_are_picked()
    ensures { (a : Automaton) (k : ℕ) (log : List Sample) (aim : Aim) (run : Run) (init : List Row) (p : Picking) → IsWellFormed a → IsLog (width a) log →
        IsFirstRun a k log aim run → (location_at a run.start.loc).init ≡ Some init → In p (pickings a log run init aim.rows) → ArePicked p }
{}

/// A run that meets an aim has a gap for each sample of its log, and one at least.
pub fn aimed_runs_have_gaps()
    ensures { (a : Automaton) (k : ℕ) (log : List Sample) (aim : Aim) (run : Run) → IsAimedRun a k log aim run →
        (length run.gaps ≡ length log) × (0 < length run.gaps) }
{}

/// A gap of a first run is written over the least common denominator of its numbers.
pub fn gaps_are_over_common_denominators()
    ensures { (a : Automaton) (k : ℕ) (log : List Sample) (aim : Aim) (run : Run) (g : GapRun) → IsFirstRun a k log aim run → In g run.gaps →
        common_numbers (gap_numbers g) ≡ g.den ∷ (g.last.at_end ++ backwards g.start g.moves g.last) }
{}

/// Equal fractions have equal numbers over their least common denominators.
pub fn equal_fractions_have_equal_common_numbers()
    ensures { (xs ys : List Fraction) → All IsFraction xs → All IsFraction ys → AllZip SameFraction xs ys → common_numbers xs ≡ common_numbers ys }
{}

/// Each point of a run has a value for each variable.
pub fn gaps_of_runs_are_wide()
    ensures { (a : Automaton) (k : ℕ) (log : List Sample) (run : Run) (g : GapRun) → IsRun a k log run → In g run.gaps → IsWide (width a) g }
{}

/// Gap runs from one location along one path that have equal numbers are equal.
pub fn equal_numbers_make_equal_gaps()
    ensures { (n : ℕ) (g h : GapRun) → IsWide n g → IsWide n h → g.start_loc ≡ h.start_loc → path_of g ≡ path_of h → g.den ≡ h.den →
        g.last.at_end ++ backwards g.start g.moves g.last ≡ h.last.at_end ++ backwards h.start h.moves h.last → g ≡ h }
{}

/// A first run with a number that passes 128 bits passes.
pub fn long_first_runs_pass()
    ensures { (a : Automaton) (k : ℕ) (log : List Sample) (aim : Aim) (run : Run) (g : GapRun) → IsFirstRun a k log aim run → In g run.gaps →
        SomePasses (g.den ∷ (g.last.at_end ++ backwards g.start g.moves g.last)) → RunPasses a k log aim }
{}
