//! The definitions of what a log says: its numbers, rows, sessions and report.
#![tactic(auto)]

ghost use Rattle.std.specs.Prelude.{◌≡◌, ℕ, List, All, Some};
ghost use Rattle.run_specs.specs.declared.Verdict.{Verdict};
ghost use Rattle.run_specs.specs.WellFormed.{IsWellFormed};
ghost use Rattle.report_specs.specs.Report.{AreBlocks, IsReportOf};
ghost use Rattle.log_specs.specs.LogSessions.{LogSession, KeepsLog, session_of};
ghost use Rattle.log_specs.specs.Blocks.{Task, last_of};
ghost use Rattle.log_specs.specs.LogReports.{Known, nothing_known, rules_of, HasNoOverflowWord, WasReplied};

pub mod examples;

/// Why a line is refused, in the order in which the causes are looked at.
#[derive(Clone, Copy, Debug, PartialEq, Eq)]
pub enum Refusal {
    Long,
    Text,
    Fields,
    Name,
    Number,
    Again,
    Unknown,
    Column,
    Cells,
    Time,
    Limit,
}

/// At which alarms a run is printed.
#[derive(Clone, Copy, Debug, PartialEq, Eq)]
pub enum RunsMode {
    None,
    /// Where the session's sample before was no alarm.
    First,
    All,
}

/// How the lines of a log are read.
#[derive(Clone, Copy, Debug, PartialEq, Eq)]
pub enum LogForm {
    /// A header, and then the samples of one session.
    Check,
    /// Rows of many sessions.
    Watch,
}

/// Whatever was replied, two reports of the same lines leave the same sessions open, with the same samples, and as many accepted.
pub fn same_sessions()
    ensures { (task : Task) (lines : List (List ℕ)) (known other : Known) (n : ℕ) (x y : List ℕ) (rs qs : List Verdict) (a b : Known) →
        known.state ≡ other.state → AreBlocks (rules_of task) known n lines x rs a → AreBlocks (rules_of task) other n lines y qs b →
        a.state ≡ b.state }
{}

/// A report in which no line ends with the word `overflow` is unique, and so are its replies.
pub fn one_report()
    ensures { (task : Task) (lines : List (List ℕ)) (x y : List ℕ) (rs qs : List Verdict) → All IsWellFormed task.models →
        HasNoOverflowWord x → HasNoOverflowWord y → IsReportOf (rules_of task) lines x rs → IsReportOf (rules_of task) lines y qs →
        (x ≡ y) × (rs ≡ qs) }
{}

/// What a session accepts is a log: a cell for each variable, numbers in range, and times that rise.
pub fn accepted_samples_are_a_log()
    ensures { (task : Task) (lines : List (List ℕ)) (x : List ℕ) (rs : List Verdict) (after : Known) →
        AreBlocks (rules_of task) nothing_known 1 lines x rs after → All KeepsLog after.state.open_sessions }
{}

/// The last reply to an open session is the last of lawful replies, one for each of its samples: to know the last reply is enough.
pub fn replies_are_lawful()
    ensures { (task : Task) (lines : List (List ℕ)) (x : List ℕ) (rs : List Verdict) (after : Known) (name : List ℕ) (s : LogSession) →
        AreBlocks (rules_of task) nothing_known 1 lines x rs after → session_of after.state name ≡ Some s →
        (replies : List Verdict) × WasReplied task s (last_of after.replied name) replies }
{}
