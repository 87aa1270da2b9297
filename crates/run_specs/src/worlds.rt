//! The steps of a world of sessions.

ghost use Rattle.std.specs.Prelude.{◌⊎◌, ℕ, List, All};
ghost use Rattle.run_specs.specs.Keys.{Key};
ghost use Rattle.run_specs.specs.Worlds.{World, IsWorld, Event, Put, Told, HasKey, IsEvent, IsOfSession, IsAllowed, IsStep, LeadTo};

/// Only allowed events have a step.
pub fn steps_are_allowed()
    ensures { (w v : World) (event : Event) (told : List Told) → IsStep w event told v → IsAllowed w event }
{}

/// A step of a world leads to a world.
pub fn steps_keep_worlds()
    ensures { (w v : World) (event : Event) (told : List Told) → IsWorld w → IsEvent event → IsStep w event told v → IsWorld v }
{}

/// And so does each list of steps.
pub fn lists_of_steps_keep_worlds()
    ensures { (w v : World) (events : List Event) (told : List Told) → IsWorld w → All IsEvent events → LeadTo w events told v → IsWorld v }
{}

/// A begin, a look and a finish that are allowed have a step; so an allowed finish tells a verdict.
pub fn allowed_events_have_a_step()
    ensures { (w : World) (event : Event) → IsWorld w → IsAllowed w event → IsOfSession event → (told : List Told) × (v : World) × IsStep w event told v }
{}

/// And so does an allowed put, where it can be told whether the memo has a key.
pub fn allowed_puts_have_a_step()
    ensures { (w : World) (i : ℕ) → IsWorld w → IsAllowed w (Put i) → ((key : Key) → HasKey key w.memo ⊎ (HasKey key w.memo → ⊥)) →
        (told : List Told) × (v : World) × IsStep w (Put i) told v }
{}
