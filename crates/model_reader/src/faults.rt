//! What is wrong with the text of a model.

use lang_specs::Which;
use lang_texts::LangFault;
use lha_check::CheckFault;
use lha_model::Name;
use std::alloc::AllocError;

/// What is wrong with a model's text, or that memory ran out. Lines and columns are counted from 1, columns in bytes.
///
/// Of several faults the first is told: a text that is too long is not read further; then the first token that is no
/// model's; and of a text that is well written, the fault in the first line that has one, and there the leftmost.
#[derive(Debug, PartialEq, Eq, Drop)]
pub enum ModelFault {
    /// The text has more than 1,048,576 bytes.
    Long,
    /// No model's text goes on with the token that begins here; the end of a line and of the text are tokens too.
    Syntax { line: u32, column: u32 },
    /// A token of this line is one too many, or too long.
    Limit { line: u32, which: Which },
    /// A name in this line is no variable, or no location, of its automaton.
    UnknownName { line: u32, name: Name },
    /// A name stands in this line for the second time, where it may stand once.
    RepeatedName { line: u32, name: Name },
    /// The location that begins in this line gives the variable of this name no slopes.
    MissingSlope { line: u32, name: Name },
    /// The variable's least slope, in this line, is above its greatest.
    EmptyBox { line: u32, name: Name },
    /// The numbers of this line are too large to be added exactly; the name is the automaton's.
    Passes { line: u32, name: Name },
    /// There was no memory. This tells nothing of the text.
    Memory,
}

impl From<LangFault> for ModelFault {
    ghost use Rattle.std.specs.Prelude.{◌≡◌};
    ghost use Rattle.model_reader.specs.Told.{of_spelling};

    ghost from_gives = { λ f e. e ≡ of_spelling f };

    fn from(fault: LangFault) -> ModelFault {
        match fault {
            LangFault::Syntax { line, column } => ModelFault::Syntax { line, column },
            LangFault::Limit { line, which } => ModelFault::Limit { line, which },
            LangFault::Memory => ModelFault::Memory,
        }
    }
}

impl From<CheckFault> for ModelFault {
    ghost use Rattle.std.specs.Prelude.{◌≡◌};
    ghost use Rattle.model_reader.specs.Told.{of_trees};

    ghost from_gives = { λ f e. e ≡ of_trees f };

    fn from(fault: CheckFault) -> ModelFault {
        match fault {
            CheckFault::UnknownName { line, name } => ModelFault::UnknownName { line, name },
            CheckFault::RepeatedName { line, name } => ModelFault::RepeatedName { line, name },
            CheckFault::MissingSlope { line, name } => ModelFault::MissingSlope { line, name },
            CheckFault::EmptyBox { line, name } => ModelFault::EmptyBox { line, name },
            CheckFault::Passes { line, name } => ModelFault::Passes { line, name },
            CheckFault::Memory => ModelFault::Memory,
        }
    }
}

impl From<AllocError> for ModelFault {
    ghost use Rattle.std.specs.Prelude.{◌≡◌};
    ghost use Rattle.model_reader.specs.declared.faults.ModelFault.TheVariants.{Memory};

    ghost from_gives = { λ _ e. e ≡ Memory };

    fn from(_e: AllocError) -> ModelFault {
        ModelFault::Memory
    }
}
