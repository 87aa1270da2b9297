//! Laws of worlds, whatever the events are.

ghost use Rattle.std.specs.Prelude.{◌≡◌, ◌≢◌, ℕ, suc, ◌+◌, false, All, List, length, take, Some, slice_get};
ghost use Rattle.run_specs.specs.Keys.{Key};
ghost use Rattle.run_specs.specs.Outcomes.{Outcome};
ghost use Rattle.run_specs.specs.declared.Verdict.{Verdict};
ghost use Rattle.run_specs.specs.declared.Verdict.TheVariants.{Overflow};
ghost use Rattle.run_specs.specs.Sessions.{MonitorSession};
ghost use Rattle.run_specs.specs.Worlds.{World, IsWorld, Event, IsEvent, IsAllowed, LeadTo, Told};
ghost use Rattle.interleave_core.specs.Courses.{LeadBy};
ghost use Rattle.interleave_core.specs.Replies.{TellsLawfully, IsTold, Agree};

/// The verdicts that events tell to a session are lawful replies to the samples that join its log.
pub fn told_verdicts_are_lawful()
    ensures { (w v : World) (events : List Event) (told : List Told) → IsWorld w → All IsEvent events → LeadTo w events told v → TellsLawfully w told v }
{}

/// Two sessions that agree, in any two worlds, are told the same reply to a sample up to which their logs agree, where neither reply is an
/// overflow.
pub fn agreeing_sessions_are_told_the_same()
    ensures { (i j : ℕ) (s t s' t' : MonitorSession) (vs ws : List Verdict) (n : ℕ) (v w : Verdict) → IsTold i s t vs → IsTold j s' t' ws → Agree s s' →
        take (length s.log + suc n) t.log ≡ take (length s.log + suc n) t'.log →
        slice_get vs n ≡ Some v → slice_get ws n ≡ Some w → v ≢ Overflow → w ≢ Overflow → v ≡ w }
{}

/// Each event that happened was allowed in the world that those before it led to.
pub fn events_that_happened_were_allowed()
    ensures { (w v : World) (events : List Event) (told : List Told) (n : ℕ) (event : Event) → IsWorld w → All IsEvent events → LeadTo w events told v →
        slice_get events n ≡ Some event → (u : World) × (now : List Told) × LeadTo w (take n events) now u × IsAllowed u event }
{}

/// Where the fills make the same outcomes, the first event that is not allowed is one, and so is its place. (Where they do not, one may
/// make an overflow and another not, and then different events are allowed.)
pub fn first_refused_event_is_one()
    ensures { (f : Key → Outcome) (w v v' : World) (events : List Event) (told told' : List Told) (n k : ℕ) (event event' : Event) → IsWorld w → w.is_bounded ≡ false → All IsEvent events →
        LeadBy f w (take n events) told v → slice_get events n ≡ Some event → (IsAllowed v event → ⊥) →
        LeadBy f w (take k events) told' v' → slice_get events k ≡ Some event' → (IsAllowed v' event' → ⊥) → (n ≡ k) × (event ≡ event') }
{}

/// And the verdicts that are told are the same.
pub fn told_verdicts_are_the_same()
    ensures { (f : Key → Outcome) (w v v' : World) (events : List Event) (told told' : List Told) → IsWorld w → w.is_bounded ≡ false → All IsEvent events →
        LeadBy f w events told v → LeadBy f w events told' v' → told ≡ told' }
{}
