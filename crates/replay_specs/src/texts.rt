//! Laws of the texts of runs.

ghost use Rattle.std.specs.Prelude.{◌≡◌, ℕ, List, [], ◌∷◌, ◌++◌, None};
ghost use Rattle.run_specs.specs.Runs.{GapRun};
ghost use Rattle.replay_specs.specs.RunTexts.{run_lines, run_text, IsWritable};
ghost use Rattle.replay_specs.specs.RunTextFaults.{Fault, Place, RunLine, NextLine, LeadFrom, IsFirstTextFault, first_fault};

/// A text has at most one first fault.
pub fn one_first_fault()
    ensures { (text : List ℕ) (f g : Fault) → IsFirstTextFault text f → IsFirstTextFault text g → f ≡ g }
{}

/// The texts of two runs differ where the runs do.
pub fn run_texts_tell_runs_apart()
    ensures { (gaps others : List GapRun) → IsWritable gaps → IsWritable others → run_text gaps ≡ run_text others → gaps ≡ others }
{}

/// The lines of a run's text lead to its end.
pub fn run_lines_lead_to_the_end()
    ensures { (gaps : List GapRun) → IsWritable gaps → LeadFrom RunLine (run_lines gaps) (NextLine 0) }
{}

/// There is no fault in the text of a run.
pub fn run_texts_have_no_fault()
    ensures { (gaps : List GapRun) → IsWritable gaps → first_fault (run_text gaps) ≡ None }
{}

/// Wherever the lines so far stand, others lead to the end: a fault is found at the first line with which no run's text begins.
pub fn each_place_goes_on()
    ensures { (place : Place) → (lines : List (List ℕ)) × LeadFrom place lines (NextLine 0) }
{}
