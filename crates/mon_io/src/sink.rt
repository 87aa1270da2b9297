// What bytes are written to.
ghost use Rattle.std.specs.Prelude.{◌<◌, ◌≤◌, ℕ, List, Option, length, IfOk, IsErrOf};
ghost use Rattle.std.specs.Io.{WritesAtMost};
ghost use Rattle.std.specs.Io.KnownBytes.{WriteAppends};
ghost use Rattle.mon_io.specs.Faults.{Rose};

/// Why a write took nothing.
#[derive(Clone, Copy, Debug, PartialEq, Eq)]
pub enum SinkFault {
    Failed,
    Memory,
}

pub trait Sink {
    /// The bytes taken, where they are told.
    ghost taken: { Self → Option (List ℕ) };

    /// How often a write has failed. The count stays at `u64::MAX`.
    ghost faults: { Self → ℕ };

    /// Takes the first bytes of `piece`, and says how many.
    fn write(&mut self, piece: &[u8]) -> Result<usize, SinkFault>
        ensures bound { WritesAtMost result piece.now }
        ensures some { IfOk result (λ n. 0 < length piece.now → 0 < n) }

        // A write that fails, for whatever cause, takes nothing.
        ensures bytes { WriteAppends (taken self.old) (taken self.new) result piece.now }

        ensures later { faults self.old ≤ faults self.new }
        ensures cause { IsErrOf result SinkFault.Failed → Rose (faults self.old) (faults self.new) };
}
