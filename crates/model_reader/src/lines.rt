//! The lines that tell what is wrong with a text.

ghost use Rattle.std.specs.Prelude.{◌≡◌, ◌++◌, IfOk, option_map, string_bytes, codes, decimal};
ghost use Rattle.text_specs.specs.ModelTexts.{limit_word, fault_line};
ghost use Rattle.model_reader.specs.Told.{told_of};

use crate::ModelFault;
use lang_specs::Which;
use lha_model::Name;
use std::alloc::{AllocError, Global};

/// The word of a limit.
fn limit_word(which: Which) -> &'static str
    ensures { result.now ≡ limit_word which }
{
    match which {
        Which::Automata => "automata",
        Which::Variables => "variables",
        Which::Locations => "locations",
        Which::Transitions => "transitions",
        Which::Rows => "rows",
        Which::Terms => "terms",
        Which::NameBytes => "name",
        Which::Digits => "digits",
    }
}

/// The line that tells of a token that nothing allows.
fn syntax_line(alloc: Global, line: u32, column: u32) -> Result<Vec<u8>, AllocError>
    ensures { IfOk result (λ v. v.items ≡ codes "hamon: model: " ++ decimal line ++ codes ":" ++ decimal column ++ codes " syntax\n") }
{
    let told = format!(in alloc; "hamon: model: {line}:{column} syntax\n")?;
    Ok(told.into_bytes())
}

/// The line that tells of a passed limit.
fn limit_line(alloc: Global, line: u32, which: Which) -> Result<Vec<u8>, AllocError>
    ensures { IfOk result (λ v. v.items ≡ codes "hamon: model: " ++ decimal line ++ codes " limit " ++ limit_word which ++ codes "\n") }
{
    let word = limit_word(which);
    let told = format!(in alloc; "hamon: model: {line} limit {word}\n")?;
    Ok(told.into_bytes())
}

/// The line that tells of a name at fault by a word.
fn named_line(alloc: Global, line: u32, word: &str, name: &Name) -> Result<Vec<u8>, AllocError>
    ensures { IfOk result (λ v. v.items ≡ codes "hamon: model: " ++ decimal line ++ codes " " ++ word.now ++ codes " " ++ name.now ++ codes "\n") }
{
    let told = format!(in alloc; "hamon: model: {line} {word} ")?;
    let mut bytes = told.into_bytes();
    bytes.extend_from_slice(name.bytes())?;
    bytes.push(b'\n')?;
    Ok(bytes)
}

/// The line that tells of a text with too many bytes.
fn long_line(alloc: Global) -> Result<Vec<u8>, AllocError>
    ensures { IfOk result (λ v. v.items ≡ codes "hamon: model: long\n") }
{
    let told = format!(in alloc; "hamon: model: long\n")?;
    Ok(told.into_bytes())
}

impl ModelFault {
    /// The line that tells the fault, with its line feed, as `hamon: model: 11 unknown hot`; `None` for `Memory`, which
    /// tells nothing of the text.
    pub fn line(&self, alloc: Global) -> Result<Option<Vec<u8>>, AllocError>
        ensures { IfOk result (λ line. option_map (λ v. v.items) line ≡ option_map fault_line (told_of self.now)) }
    {
        let line = match self {
            ModelFault::Long => long_line(alloc)?,
            ModelFault::Syntax { line, column } => syntax_line(alloc, *line, *column)?,
            ModelFault::Limit { line, which } => limit_line(alloc, *line, *which)?,
            ModelFault::UnknownName { line, name } => named_line(alloc, *line, "unknown", name)?,
            ModelFault::RepeatedName { line, name } => named_line(alloc, *line, "repeated", name)?,
            ModelFault::MissingSlope { line, name } => named_line(alloc, *line, "slope", name)?,
            ModelFault::EmptyBox { line, name } => named_line(alloc, *line, "box", name)?,
            ModelFault::Passes { line, name } => named_line(alloc, *line, "passes", name)?,
            ModelFault::Memory => return Ok(None),
        };
        Ok(Some(line))
    }
}
