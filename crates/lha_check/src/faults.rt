//! What a check of trees answers in place of automata.

ghost use Rattle.std.specs.Prelude.{◌≡◌};
ghost use Rattle.lha_check.specs.Elements.{row_fault};

use lha_model::Name;
use model_rows::RowFault;
use std::alloc::AllocError;

/// The first fault of trees: the one in the first line that has one, and there the leftmost; a number that passes stands
/// behind the other faults of its line. Lines are counted from 1.
#[derive(Debug, PartialEq, Eq, Drop)]
pub enum CheckFault {
    /// A name that is no variable, or no location, of the automaton.
    UnknownName { line: u32, name: Name },
    /// A name that stands for the second time where it may stand once.
    RepeatedName { line: u32, name: Name },
    /// A variable without a box in the location that begins in this line; the first such one.
    MissingSlope { line: u32, name: Name },
    /// A variable whose least slope is above its greatest.
    EmptyBox { line: u32, name: Name },
    /// A number passes 128 bits in forming the rows of this line; the name is the automaton's.
    Passes { line: u32, name: Name },
    /// There was no memory.
    Memory,
}

impl From<AllocError> for CheckFault {
    ghost use Rattle.std.specs.Prelude.{◌≡◌};
    ghost use Rattle.lha_check.specs.declared.faults.CheckFault.{CheckFault};

    ghost from_gives = { λ _ e. e ≡ CheckFault.Memory };

    fn from(_e: AllocError) -> CheckFault {
        CheckFault::Memory
    }
}

/// Why a statement in this line has no rows, in the automaton of this name.
pub(crate) fn row_fault(fault: RowFault, line: u32, name: &Name) -> CheckFault
    ensures { result ≡ row_fault fault line name.now }
{
    match fault {
        RowFault::Passes => CheckFault::Passes {
            line,
            name: name.copy(),
        },
        RowFault::Memory => CheckFault::Memory,
    }
}
