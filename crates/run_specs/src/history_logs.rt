//! The log that a history alone tells. Each session with this history has it, and the verdicts that the history tells are lawful for it.

ghost use Rattle.std.specs.Prelude.{◌≡◌, ℕ, suc, ◌<◌, List, length, take, Some};
ghost use Rattle.poly_specs.specs.Fractions.{zero_fraction};
ghost use Rattle.run_specs.specs.Automaton.{width};
ghost use Rattle.run_specs.specs.declared.Verdict.{Verdict};
ghost use Rattle.run_specs.specs.Verdicts.{IsLawful};
ghost use Rattle.run_specs.specs.Logs.{Sample, IsLog};
ghost use Rattle.run_specs.specs.SessionHistories.{SessionHistory, IsHistory, verdict_at};
ghost use Rattle.run_specs.specs.Sessions.{MonitorSession, IsMonitorSession, AreEntriesOf};
ghost use Rattle.run_specs.specs.HistoryLogs.{log_of, DoAgree};

/// The log of a history is a log, with one sample for each entry, and its entries are those of the history.
pub fn histories_have_logs()
    ensures log { (h : SessionHistory) → IsHistory h → IsLog (width h.automaton) (log_of h) }
    ensures one_for_each { (h : SessionHistory) → length (log_of h) ≡ length h.gaps }
    ensures entries { (h : SessionHistory) → IsHistory h → AreEntriesOf zero_fraction (log_of h) h.gaps }
{}

/// The first gaps of a history are a history, whose log is the beginning of the log.
pub fn beginnings_are_histories()
    ensures history { (h : SessionHistory) (i : ℕ) → IsHistory h → IsHistory (record h { gaps = take i h.gaps }) }
    ensures log { (h : SessionHistory) (i : ℕ) → log_of (record h { gaps = take i h.gaps }) ≡ take i (log_of h) }
{}

/// There is one such log: each log whose first samples have these entries begins with it.
pub fn one_log_of_a_history()
    ensures { (h : SessionHistory) (log : List Sample) → IsLog (width h.automaton) log → AreEntriesOf zero_fraction log h.gaps →
        take (length h.gaps) log ≡ log_of h }
{}

/// So a session's log begins with the log of its history: what is said of one is said of the other.
pub fn sessions_begin_with_their_history_logs()
    ensures { (s : MonitorSession) → IsMonitorSession s → take (length s.history.gaps) s.log ≡ log_of s.history }
{}

/// What a history tells of one of its gaps is lawful: the verdict of its log up to there, or an overflow where the log passes 128 bits.
pub fn histories_tell_lawful_verdicts()
    ensures { (h : SessionHistory) (i : ℕ) (v : Verdict) → IsHistory h → i < length h.gaps → verdict_at h i ≡ Some v →
        IsLawful h.automaton h.jumps (take (suc i) (log_of h)) v }
{}

/// Two logs that agree in their gaps and observed values are equal, since times are in lowest terms: whatever holds of one holds of the other.
pub fn logs_that_agree_are_equal()
    ensures { (m : ℕ) (samples others : List Sample) → IsLog m samples → IsLog m others → DoAgree samples others → samples ≡ others }
{}
