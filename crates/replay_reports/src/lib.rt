//! The definitions of a replay: the samples that the text of a log accepts, and what is found of the text of a run.
#![tactic(auto)]

ghost use Rattle.std.specs.Prelude.{◌≡◌, ◌≤◌, ℕ, List, All, Some, length};
ghost use Rattle.run_specs.specs.Automaton.{Automaton, width};
ghost use Rattle.run_specs.specs.Logs.{IsLog};
ghost use Rattle.run_specs.specs.declared.Verdict.{Verdict};
ghost use Rattle.report_specs.specs.Lines.{lines_of};
ghost use Rattle.report_specs.specs.Report.{AreBlocks};
ghost use Rattle.log_specs.specs.declared.LogForm.TheVariants as LogForm;
ghost use Rattle.log_specs.specs.LogSessions.{HasLogNumbers, first_automaton};
ghost use Rattle.log_specs.specs.Blocks.{Task};
ghost use Rattle.log_specs.specs.LogReports.{Known, nothing_known, rules_of};
ghost use Rattle.replay_reports.specs.LogSamples.{first_samples, accepted_samples};

/// What is found of a run's text, for the samples of a log.
#[derive(Clone, Copy, Debug, PartialEq, Eq)]
pub enum Finding {
    /// It is a run of the first samples, and visits an unsafe location.
    Alarm,
    /// It is a run of the first samples, and visits none.
    Safe,
    /// It is no run of them: the number of the first gap that fails, from 1; 0 of a wrong count of gaps.
    No { place: u32 },
    /// A number of the check of this gap, from 1, passes 128 bits.
    Passes { place: u32 },
    /// It is no text of a run, as this line shows first, counted from 1.
    Text { line: u32 },
    /// This line is the first to show that it is none, by an integer outside its limits.
    Range { line: u32 },
}

/// The accepted samples are a log: a cell for each variable, numbers in range, and times that rise.
pub fn accepted_samples_are_a_log()
    ensures { (a : Automaton) (text : List ℕ) → IsLog (width a) (accepted_samples a text) × All HasLogNumbers (accepted_samples a text) }
{}

/// They are the samples that each report of the log accepts.
pub fn each_report_accepts_them()
    ensures { (task : Task) (a : Automaton) (text x : List ℕ) (rs : List Verdict) (after : Known) →
        task.form ≡ LogForm.Check → first_automaton task.models ≡ Some a →
        AreBlocks (rules_of task) nothing_known 1 (lines_of text) x rs after →
        first_samples after.state.open_sessions ≡ accepted_samples a text }
{}
