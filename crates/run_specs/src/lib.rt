//! The definitions of automata, runs and verdicts.
#![tactic(auto)]

ghost use Rattle.std.specs.Prelude.{◌≡◌, ◌≢◌, ◌↔◌, ℕ, ◌+◌, ◌<◌, List, [], ◌∷◌, ◌++◌, map, length, take, Option, Some, ℤ, pos, ◌-ℤ◌, ◌<ℤ◌};
ghost use Rattle.poly_specs.specs.Lists.{IsAmong};
ghost use Rattle.poly_specs.specs.Fractions.{Fraction, IsFraction, SameFraction};
ghost use Rattle.poly_specs.specs.Rows.{over, Point, Row, AllHold, AllWide};
ghost use Rattle.run_specs.specs.declared.Verdict.TheVariants.{Overflow};
ghost use Rattle.run_specs.specs.Automaton.{Automaton, Location, tolerance_at, width, location_at, transition_at};
ghost use Rattle.run_specs.specs.WellFormed.{IsLocation, IsWellFormed};
ghost use Rattle.run_specs.specs.Logs.{Sample, IsPassing, cell_at};
ghost use Rattle.run_specs.specs.Runs.{Run, IsRun, IsLeg, IsJump};
ghost use Rattle.run_specs.specs.Stages.{leg_slope, leg_point, leg_rows, jump_point, jump_rows, sample_rows, rows_after, leg_stage, jump_stage, sample_stage, gap_rows};
ghost use Rattle.run_specs.specs.Keys.{Key, IsKey, parent_at};
ghost use Rattle.run_specs.specs.Outcomes.{MayTake, IsEnd};
ghost use Rattle.run_specs.specs.Ends.{SomeLegEnds, SomeJumpEnds, SomeSampleEnds};
ghost use Rattle.run_specs.specs.Passes.{LogPasses, OpeningPasses};
ghost use Rattle.run_specs.specs.Verdicts.{IsLawful, AreLawful, NoOverflow};

pub mod first_runs;
pub mod histories;
pub mod history_logs;
pub mod history_states;
pub mod outcomes;
pub mod pickings;
pub mod sessions;
pub mod states;
pub mod worlds;

/// The reply to a sample.
#[derive(Clone, Copy, Debug, PartialEq, Eq)]
pub enum Verdict {
    /// Some run visits an unsafe location.
    Alarm,
    /// There is a run, and none visits an unsafe location.
    Safe,
    /// There is no run.
    Impossible,
    /// A number passed 128 bits.
    Overflow,
}

/// Fewer rows before a gap are fewer rows of its plain stages after it.
pub fn fewer_rows_after_a_gap()
    ensures { (a : Automaton) (l : ℕ) (path : List ℕ) (duration : Fraction) (cells : List (Option Fraction)) (rows more : List Row) →
        IsAmong rows more → IsAmong (gap_rows a l path duration cells rows) (gap_rows a l path duration cells more) }
{}

/// A log that passes is the beginning of none that does not.
pub fn passes_on()
    ensures { (a : Automaton) (k : ℕ) (log later : List Sample) → LogPasses a k log → LogPasses a k (log ++ later) }
{}

/// Where the opening passes, so does every log.
pub fn opening_passes_on()
    ensures { (a : Automaton) (k : ℕ) (log : List Sample) → OpeningPasses a → LogPasses a k log }
{}

/// A run of a log gives a run of each log that this one begins with.
pub fn shorter_log()
    ensures { (a : Automaton) (k : ℕ) (log later : List Sample) (run : Run) → IsRun a k (log ++ later) run →
        IsRun a k log (record run { gaps = take (length log) run.gaps }) }
{}

/// Two lawful replies to a log, neither an overflow, are equal.
pub fn one_reply()
    ensures { (a : Automaton) (k : ℕ) (log : List Sample) (v w : Verdict) → v ≢ Overflow → w ≢ Overflow →
        IsLawful a k log v → IsLawful a k log w → v ≡ w }
{}

/// The same of the replies to a whole log.
pub fn same_replies()
    ensures { (a : Automaton) (k : ℕ) (log : List Sample) (vs ws : List Verdict) → NoOverflow vs → NoOverflow ws →
        AreLawful a k log vs → AreLawful a k log ws → vs ≡ ws }
{}

/// A log that does not pass has at most one lawful reply.
pub fn one_verdict()
    ensures { (a : Automaton) (k : ℕ) (log : List Sample) (v w : Verdict) → (LogPasses a k log → ⊥) →
        IsLawful a k log v → IsLawful a k log w → v ≡ w }
{}

/// And at most one list of lawful replies.
pub fn one_list_of_verdicts()
    ensures { (a : Automaton) (k : ℕ) (log : List Sample) (vs ws : List Verdict) → (LogPasses a k log → ⊥) →
        AreLawful a k log vs → AreLawful a k log ws → vs ≡ ws }
{}

/// A leg of length 0, read as a system, has equal ends: the boxes say so.
pub fn still_leg()
    ensures { (m : ℕ) (loc : Location) (d : ℤ) (q : List ℤ) (elapsed : ℤ) (p : List ℤ) → IsLocation m loc → length q ≡ m → length p ≡ m →
        AllHold (map (leg_slope m) loc.slopes) (leg_point d q elapsed (pos 0) p) → q ≡ p }
{}

/// The system of a leg holds exactly where the state holds before the leg and the leg leads from p to q in time t.
pub fn leg_system_is_exact()
    ensures { (a : Automaton) (l : ℕ) (state : List Row) (d : ℤ) (q : List ℤ) (elapsed t : ℤ) (p : List ℤ) →
        IsLocation (width a) (location_at a l) → AllWide (width a + 1) state → length q ≡ width a → length p ≡ width a →
        AllHold (leg_rows a l state) (leg_point d q elapsed t p)
        ↔ AllHold state (over d (p ++ (elapsed -ℤ t) ∷ [])) × IsLeg (location_at a l) d p t q }
{}

/// The system of a jump holds exactly where the state holds before it and the transition leads from p to q.
pub fn jump_system_is_exact()
    ensures { (a : Automaton) (e : ℕ) (state : List Row) (d : ℤ) (q : List ℤ) (elapsed : ℤ) (p : List ℤ) →
        AllWide (width a + width a) (transition_at a e).relation → AllWide (width a) (location_at a (transition_at a e).target).invariant →
        AllWide (width a + 1) state → length q ≡ width a → length p ≡ width a →
        AllHold (jump_rows a e state) (jump_point d q elapsed p) ↔ AllHold state (over d (p ++ elapsed ∷ [])) × IsJump a e d p q }
{}

/// The system of a sample holds exactly where the state holds, the time is up and the values pass the sample.
pub fn sample_system_is_exact()
    ensures { (a : Automaton) (duration : Fraction) (cells : List (Option Fraction)) (state : List Row) (d : ℤ) (v : List ℤ) (elapsed : ℤ) →
        ((j : ℕ) → IsFraction (tolerance_at a j)) → ((j : ℕ) (x : Fraction) → cell_at j cells ≡ Some x → IsFraction x) →
        length cells ≡ width a → length v ≡ width a →
        AllHold (sample_rows a duration cells state) (over d (v ++ elapsed ∷ []))
        ↔ AllHold state (over d (v ++ elapsed ∷ [])) × SameFraction (record { num = elapsed; den = d }) duration × IsPassing a cells (over d v) }
{}

/// The rows after a leg hold exactly at the ends, with elapsed time, of the legs from the state.
pub fn leg_stage_is_exact()
    ensures { (a : Automaton) (l : ℕ) (state : List Row) (d : ℤ) (end : List ℤ) →
        IsLocation (width a) (location_at a l) → AllWide (width a + 1) state → pos 0 <ℤ d → length end ≡ width a + 1 →
        AllHold (rows_after (leg_stage a l state)) (over d end) ↔ SomeLegEnds a l state (over d end) }
{}

/// The rows after a jump hold exactly at the ends, with elapsed time, of the jumps from the state.
pub fn jump_stage_is_exact()
    ensures { (a : Automaton) (e : ℕ) (state : List Row) (d : ℤ) (end : List ℤ) →
        AllWide (width a + width a) (transition_at a e).relation → AllWide (width a) (location_at a (transition_at a e).target).invariant →
        AllWide (width a + 1) state → pos 0 <ℤ d → length end ≡ width a + 1 →
        AllHold (rows_after (jump_stage a e state)) (over d end) ↔ SomeJumpEnds a e state (over d end) }
{}

/// The rows after a sample hold exactly at the points of the state that pass it when the gap's length has elapsed.
pub fn sample_stage_is_exact()
    ensures { (a : Automaton) (duration : Fraction) (cells : List (Option Fraction)) (state : List Row) (d : ℤ) (end : List ℤ) →
        ((j : ℕ) → IsFraction (tolerance_at a j)) → ((j : ℕ) (x : Fraction) → cell_at j cells ≡ Some x → IsFraction x) →
        length cells ≡ width a → AllWide (width a + 1) state → pos 0 <ℤ d → length end ≡ width a →
        AllHold (rows_after (sample_stage a duration cells state)) (over d end) ↔ SomeSampleEnds a duration cells state (over d end) }
{}

/// The rows after the plain stages of a gap hold exactly at the ends of its gap runs.
pub fn gap_stages_are_exact()
    ensures { (key : Key) (i : ℕ) (path : List ℕ) (q : Point) → IsWellFormed key.automaton → IsKey key → MayTake key i path →
        pos 0 <ℤ q.den → length q.num ≡ width key.automaton →
        AllHold (gap_rows key.automaton (parent_at key i).loc path key.gap key.seen (parent_at key i).rows) q ↔ IsEnd key i path q }
{}
