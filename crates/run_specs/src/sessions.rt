//! What a session tells of its log.

ghost use Rattle.std.specs.Prelude.{◌≡◌, ℕ, suc, ◌<◌, List, length, take, Some, slice_get};
ghost use Rattle.run_specs.specs.declared.Verdict.{Verdict};
ghost use Rattle.run_specs.specs.Verdicts.{IsLawful, AreLawful};
ghost use Rattle.run_specs.specs.SessionHistories.{verdict_at};
ghost use Rattle.run_specs.specs.Sessions.{MonitorSession, IsMonitorSession};

/// What a session's history tells at a place of its log is lawful: the verdict of the log up to there, or an overflow where the log passes 128 bits.
pub fn sessions_tell_lawful_verdicts()
    ensures { (s : MonitorSession) (i : ℕ) (v : Verdict) → IsMonitorSession s → i < length s.log → verdict_at s.history i ≡ Some v →
        IsLawful s.history.automaton s.history.jumps (take (suc i) s.log) v }
{}

/// The verdicts that a session tells of its samples are lawful replies to its log.
pub fn session_replies_are_lawful()
    ensures { (s : MonitorSession) (replies : List Verdict) → IsMonitorSession s → length replies ≡ length s.log →
        ((i : ℕ) → i < length s.log → verdict_at s.history i ≡ slice_get replies i) → AreLawful s.history.automaton s.history.jumps s.log replies }
{}
