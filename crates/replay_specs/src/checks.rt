//! The check of a run that was read decides whether it is a run.

ghost use Rattle.std.specs.Prelude.{◌≡◌, ℕ, ◌<◌, List, length, Result, Ok, Err, ⊤};
ghost use Rattle.replay_specs.specs.declared.checks.Stop.{Stop as HowItStops};
ghost use Rattle.replay_specs.specs.declared.checks.Stop.TheVariants.{Fails};
ghost use Rattle.run_specs.specs.Automaton.{Automaton, width};
ghost use Rattle.run_specs.specs.Logs.{Sample, IsLog};
ghost use Rattle.run_specs.specs.Runs.{GapRun};
ghost use Rattle.replay_specs.specs.RunChecks.{GapAnswers, HasCount, IsRunOf};

/// Why the check of a run stops.
#[derive(Clone, Copy, Debug, PartialEq, Eq)]
pub enum Stop {
    /// It asks what is not so.
    Fails,
    /// A number passes 128 bits.
    Passes,
}

/// Gaps whose checks all hold are a run of the log's first samples.
pub fn gaps_that_hold_are_a_run()
    ensures { (a : Automaton) (k : ℕ) (samples : List Sample) (gaps : List GapRun) → IsLog (width a) samples → HasCount samples gaps →
        ((i : ℕ) → i < length gaps → GapAnswers a k samples gaps i (Ok tt)) → IsRunOf a k samples gaps }
{}

/// Gaps of which one's check fails are none.
pub fn a_gap_that_fails_is_of_no_run()
    ensures { (a : Automaton) (k : ℕ) (samples : List Sample) (gaps : List GapRun) (i : ℕ) → i < length gaps →
        GapAnswers a k samples gaps i (Err Fails) → IsRunOf a k samples gaps → ⊥ }
{}

/// The check of a gap has one answer.
pub fn one_answer()
    ensures { (a : Automaton) (k : ℕ) (samples : List Sample) (gaps : List GapRun) (i : ℕ) (x y : Result ⊤ Stop) →
        GapAnswers a k samples gaps i x → GapAnswers a k samples gaps i y → x ≡ y }
{}
