// What bytes are read from.
ghost use Rattle.std.specs.Prelude.{◌≤◌, ℕ, List, Option, OnErr};
ghost use Rattle.std.specs.Io.{ReadsAtMost};
ghost use Rattle.std.specs.Io.KnownBytes.{ReadConsumes};
ghost use Rattle.mon_io.specs.Faults.{Rose};

/// A read failed.
#[derive(Clone, Copy, Debug, PartialEq, Eq)]
pub struct Failed;

pub trait Source {
    /// The bytes left, where they are told.
    ghost told: { Self → Option (List ℕ) };

    /// How often a read has failed. The count stays at `u64::MAX`.
    ghost faults: { Self → ℕ };

    /// Puts the next bytes at the front of `buf`. Where it has room, 0 is the end.
    fn read(&mut self, buf: &mut [u8]) -> Result<usize, Failed>
        ensures bound { ReadsAtMost result buf.new }

        // What a read gives it takes, and one that fails takes nothing.
        ensures bytes { ReadConsumes (told self.old) (told self.new) result buf.new }

        ensures later { faults self.old ≤ faults self.new }
        ensures cause { OnErr result (Rose (faults self.old) (faults self.new)) };
}
