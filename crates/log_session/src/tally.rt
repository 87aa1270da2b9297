//! How often each verdict was replied.

use run_specs::Verdict;

/// How often each verdict was replied.
#[derive(Clone, Copy, Debug, Default, PartialEq, Eq)]
pub struct Tally {
    /// Replies that some run visits an unsafe location.
    pub alarm: u64,
    /// Replies that only other runs pass.
    pub safe: u64,
    /// Replies that no run passes.
    pub impossible: u64,
    /// Replies that a number passed 128 bits.
    pub overflow: u64,
}

impl Tally {
    ghost use Rattle.std.specs.Prelude.{◌≡◌, IfSome};
    ghost use Rattle.log_session.specs.Tallies.{with_reply};

    /// The tally with one reply more; `None` where a count is at the type's last value, which no log reaches.
    pub(crate) fn with(self, verdict: Verdict) -> Option<Tally>
        ensures { IfSome result (λ t. t ≡ with_reply self verdict) }
    {
        match verdict {
            Verdict::Alarm => Some(Tally {
                alarm: self.alarm.checked_add(1)?,
                ..self
            }),
            Verdict::Safe => Some(Tally {
                safe: self.safe.checked_add(1)?,
                ..self
            }),
            Verdict::Impossible => Some(Tally {
                impossible: self.impossible.checked_add(1)?,
                ..self
            }),
            Verdict::Overflow => Some(Tally {
                overflow: self.overflow.checked_add(1)?,
                ..self
            }),
        }
    }
}
