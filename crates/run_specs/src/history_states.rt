//! The laws of a session's states, over a history alone: its log is the one that it tells itself.

ghost use Rattle.std.specs.Prelude.{◌≡◌, ◌↔◌, ℕ, ◌<◌, ◌≤◌, length, take, pos, ◌<ℤ◌, false, IsTrue};
ghost use Rattle.poly_specs.specs.Rows.{Point, AllHold};
ghost use Rattle.run_specs.specs.Automaton.{width};
ghost use Rattle.run_specs.specs.Runs.{Run, IsRun};
ghost use Rattle.run_specs.specs.Aims.{Aim, to_alarm};
ghost use Rattle.run_specs.specs.FirstRun.{IsFirstRun};
ghost use Rattle.run_specs.specs.SessionHistories.{SessionHistory, IsHistory, has_passed};
ghost use Rattle.run_specs.specs.HistoryLogs.{log_of};
ghost use Rattle.run_specs.specs.StateHistories.{states_at, histories_at, state_at, history_at, HistoriesRise, EndsRun, HasMarksOf, EndsInState, CanMeet, IsOfFirstState};
ghost use Rattle.run_specs.specs.PlainHistories.{IsPlainState};

/// After a gap a state's rows hold exactly where runs with the state's history end.
pub fn states_are_ends_of_runs()
    ensures { (h : SessionHistory) (i j : ℕ) (q : Point) → IsHistory h → 0 < i → i ≤ length h.gaps → j < length (states_at h i) →
        pos 0 <ℤ q.den → length q.num ≡ width h.automaton →
        AllHold (state_at h i j).rows q ↔ ((run : Run) × EndsRun h.automaton h.jumps (take i (log_of h)) (history_at h i j) q run) }
{}

/// A state's location is where the last path of its history ends, and its mark says that a path has a leg in an unsafe location.
pub fn states_have_marks()
    ensures { (h : SessionHistory) (i j : ℕ) (q : Point) (run : Run) → IsHistory h → i ≤ length h.gaps → j < length (states_at h i) →
        EndsRun h.automaton h.jumps (take i (log_of h)) (history_at h i j) q run → HasMarksOf h.automaton (state_at h i j) run }
{}

/// The states stand in the order of their histories, of which there is one for each.
pub fn states_rise()
    ensures rise { (h : SessionHistory) (i : ℕ) → IsHistory h → i ≤ length h.gaps → HistoriesRise (histories_at h i) }
    ensures as_many { (h : SessionHistory) (i : ℕ) → IsHistory h → i ≤ length h.gaps → length (histories_at h i) ≡ length (states_at h i) }
{}

/// Each run ends in a state of its location and mark whose history is no later.
pub fn each_run_has_a_state()
    ensures { (h : SessionHistory) (i : ℕ) (run : Run) → IsHistory h → 0 < i → i ≤ length h.gaps → has_passed (take i h.gaps) ≡ false →
        IsRun h.automaton h.jumps (take i (log_of h)) run → (j : ℕ) × EndsInState h i run j }
{}

/// A state can meet the aim of an alarm exactly where it is marked.
pub fn marked_states_meet_alarms()
    ensures { (h : SessionHistory) (i j : ℕ) → IsHistory h → i ≤ length h.gaps → j < length (states_at h i) →
        CanMeet (width h.automaton) to_alarm (state_at h i j) ↔ IsTrue (state_at h i j).seen_unsafe }
{}

/// The first run that meets an aim, of a log that ends with a gap, is along the history of the first state that can meet it.
pub fn first_run_is_of_a_state()
    ensures { (h : SessionHistory) (i : ℕ) (aim : Aim) (run : Run) → IsHistory h → 0 < i → i ≤ length h.gaps → has_passed (take i h.gaps) ≡ false →
        IsFirstRun h.automaton h.jumps (take i (log_of h)) aim run → (j : ℕ) × IsOfFirstState h aim i run j }
{}

/// Each stage of a state's history has a point, and the state's rows are among those after the last, and hold at the same points.
pub fn states_have_plain_rows()
    ensures { (h : SessionHistory) (i j : ℕ) → IsHistory h → i ≤ length h.gaps → j < length (states_at h i) →
        IsPlainState h.automaton h.jumps (take i (log_of h)) (history_at h i j) (state_at h i j) }
{}
