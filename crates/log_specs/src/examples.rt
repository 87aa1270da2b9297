//! Small logs and their reports, which pin the definitions.

ghost use Rattle.std.specs.Prelude.{◌≡◌, List, [], ◌∷◌, codes, true, false, replicate};
ghost use Rattle.run_specs.specs.declared.Verdict.{Verdict};
ghost use Rattle.report_specs.specs.Lines.{lines_of};
ghost use Rattle.report_specs.specs.Report.{IsReport};
ghost use Rattle.log_specs.specs.declared.LogForm.TheVariants.{Check, Watch};
ghost use Rattle.log_specs.specs.declared.RunsMode.TheVariants as mode;
ghost use Rattle.log_specs.specs.AlarmExamples.{lamp_task, lamp_log, two_alarms, no_runs, one_run, both_runs};
ghost use Rattle.log_specs.specs.Fields.{fields_of, is_long};
ghost use Rattle.replay_specs.specs.RunTexts.{run_text};
ghost use Rattle.log_specs.specs.Blocks.{printed_run};
ghost use Rattle.log_specs.specs.declared.Refusal.TheVariants as why;
ghost use Rattle.log_specs.specs.LogSessions.{judge, refused, opened};
ghost use Rattle.log_specs.specs.LogReports.{rules_of};
ghost use Rattle.log_specs.specs.Examples.{task_in, refused_log, refused_report, doubled_log, doubled_report, empty_tank, crowded, reopened_log, reopened_report, headless_log, headless_report, timed_log, timed_report, number_log, number_report, all_impossible, thirds, thirds_text, below_zero, below_zero_text};

/// Each refused row has its word, the number of its line counts the accepted ones too, and a refused row changes nothing.
pub fn refused_rows()
    ensures { IsReport (rules_of (task_in Watch)) refused_log refused_report [] }
{}

/// Of two causes the first in the order of the words is told.
pub fn doubly_refused_rows()
    ensures { IsReport (rules_of (task_in Watch)) doubled_log doubled_report (all_impossible 1) }
{}

/// A thousand sessions may be open, and 200,000 samples accepted; a wrong column and a time that does not rise are told before these limits.
pub fn refused_limits()
    ensures { (judge Watch (empty_tank ∷ []) (crowded 1000 0) (codes "open,r,T,y") ≡ refused why.Column)
        × (judge Watch (empty_tank ∷ []) (crowded 1000 0) (codes "open,r,T,x") ≡ refused why.Limit)
        × (judge Watch (empty_tank ∷ []) (crowded 999 0) (codes "open,r,T,x")
        ≡ opened (record { name = codes "r"; automaton = empty_tank; columns = codes "x" ∷ []; samples = [] }))
        × (judge Watch (empty_tank ∷ []) (crowded 1 200000) (codes "at,s,5,0") ≡ refused why.Time)
        × (judge Watch (empty_tank ∷ []) (crowded 1 200000) (codes "at,s,6,0") ≡ refused why.Limit) }
{}

/// A session that is closed and opened anew begins anew, and its replies name it.
pub fn reopened_session()
    ensures { IsReport (rules_of (task_in Watch)) reopened_log reopened_report (all_impossible 2) }
{}

/// After a refused header no session is open; a line of no text is refused before its fields are looked at.
pub fn refused_header()
    ensures { IsReport (rules_of (task_in Check)) headless_log headless_report [] }
{}

/// A line of 4,096 bytes is read, and a longer one is not.
pub fn long_lines()
    ensures { (is_long (replicate 4096 48) ≡ false) × (is_long (replicate 4097 48) ≡ true) }
{}

/// A refused time does not become the last one.
pub fn refused_times()
    ensures { IsReport (rules_of (task_in Check)) timed_log timed_report (all_impossible 3) }
{}

/// Numbers may have a sign, a point and an exponent, with blanks before them; 10^15 and words are none.
pub fn refused_numbers()
    ensures { IsReport (rules_of (task_in Check)) number_log number_report (all_impossible 3) }
{}

/// A field may be quoted, and blanks at its ends are dropped; a line without a byte has one empty field.
pub fn some_fields()
    ensures { (fields_of (codes "open, a b ,\"x,y\",") ≡ codes "open" ∷ codes "a b" ∷ codes "x,y" ∷ [] ∷ []) × (fields_of [] ≡ [] ∷ []) }
{}

/// The text of a run names its gaps, legs and jumps in order.
pub fn some_run_texts()
    ensures { (run_text thirds.gaps ≡ thirds_text) × (run_text below_zero.gaps ≡ below_zero_text) }
{}

/// Of two alarms in a row, neither has a run behind it with `none`, the former has one with `first`, and both have one with `all`.
pub fn printed_runs()
    ensures { IsReport (rules_of (lamp_task mode.None)) lamp_log no_runs two_alarms
        × IsReport (rules_of (lamp_task mode.First)) lamp_log one_run two_alarms
        × IsReport (rules_of (lamp_task mode.All)) lamp_log both_runs two_alarms }
{}

/// With `first` no report has a run behind the second alarm too, and with `all` none is without it, whatever was replied.
pub fn no_other_printed_runs()
    ensures { ((replies : List Verdict) → IsReport (rules_of (lamp_task mode.First)) lamp_log both_runs replies → ⊥)
        × ((replies : List Verdict) → IsReport (rules_of (lamp_task mode.All)) lamp_log one_run replies → ⊥) }
{}
