//! Why words are not read.

use clap::Error;
use clap::error::ErrorKind;
use std::alloc::AllocError;

/// Why words are not read.
#[derive(Clone, Copy, Debug, PartialEq, Eq)]
pub enum WordsFault {
    /// They are no command of `hamon`.
    Refused,
    /// There was no memory.
    Memory,
}

impl From<AllocError> for WordsFault {
    ghost use Rattle.std.specs.Prelude.{◌≡◌};
    ghost use Rattle.command_words.specs.declared.fault.WordsFault.{WordsFault};

    ghost from_gives = { λ _ e. e ≡ WordsFault.Memory };

    fn from(_e: AllocError) -> WordsFault {
        WordsFault::Memory
    }
}

impl From<Error> for WordsFault {
    ghost use Rattle.std.specs.Prelude.{◌≡◌};
    ghost use Rattle.clap.specs.Words.{kind_of};
    ghost use Rattle.command_words.specs.Faults.{fault_by};

    ghost from_gives = { λ error fault. fault ≡ fault_by (kind_of error) };

    fn from(error: Error) -> WordsFault {
        match error.kind() {
            ErrorKind::OutOfMemory => WordsFault::Memory,
            _ => WordsFault::Refused,
        }
    }
}
