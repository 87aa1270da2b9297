//! Reads a whole text from a source.

ghost use Rattle.std.specs.Prelude.{◌≡◌, ◌<◌, ◌≤◌, length, IfOk, IsErrOf};
ghost use Rattle.std.specs.Io.KnownBytes.{IsAtEnd};
ghost use Rattle.mon_io.specs.Faults.{Rose};
ghost use Rattle.log_reader.specs.Gains.{Gains};
ghost use Rattle.replay_log.specs.Replays.{IsWholeText, IsLongText};

use crate::replay::TEXT_LIMIT;
use mon_io::Source;
use std::alloc::{AllocError, Global};

/// A read asks for so many bytes.
const CHUNK: usize = 65_536;

/// Why there is no text.
#[derive(Clone, Copy, Debug, PartialEq, Eq)]
pub(crate) enum NoText {
    /// A read failed.
    Failed,
    /// It has more bytes than are read at most.
    Long,
    /// There was no memory.
    Memory,
}

impl From<AllocError> for NoText {
    ghost use Rattle.std.specs.Prelude.{◌≡◌};
    ghost use Rattle.replay_log.specs.declared.reading.NoText.{NoText};

    ghost from_gives = { λ _ e. e ≡ NoText.Memory };

    fn from(_e: AllocError) -> NoText {
        NoText::Memory
    }
}

/// Adds the next bytes of a source, which fill a chunk, and says how many; 0 is the end.
fn gain_by<L: Source>(source: &mut L, chunk: &mut [u8], text: &mut Vec<u8>) -> Result<usize, NoText>
    requires { 0 < length chunk.old }
    ensures gains { IfOk result (λ n. Gains (L.told source.old) (L.told source.new) text.old.items text.new.items n) }
    ensures end { IfOk result (λ n. n ≡ 0 → IsAtEnd (L.told source.new)) }
    ensures no_limit { IsErrOf result NoText.Long → ⊥ }
    ensures later { L.faults source.old ≤ L.faults source.new }
    ensures cause { IsErrOf result NoText.Failed → Rose (L.faults source.old) (L.faults source.new) }
{
    match source.read(chunk) {
        Err(_) => Err(NoText::Failed),
        Ok(count) => {
            if text.extend_from_slice(&chunk[..count]).is_err() {
                return Err(NoText::Memory);
            }
            Ok(count)
        }
    }
}

/// Adds the next bytes of a source, and says how many; 0 is the end.
fn gain<L: Source>(alloc: Global, source: &mut L, text: &mut Vec<u8>) -> Result<usize, NoText>
    ensures gains { IfOk result (λ n. Gains (L.told source.old) (L.told source.new) text.old.items text.new.items n) }
    ensures end { IfOk result (λ n. n ≡ 0 → IsAtEnd (L.told source.new)) }
    ensures no_limit { IsErrOf result NoText.Long → ⊥ }
    ensures later { L.faults source.old ≤ L.faults source.new }
    ensures cause { IsErrOf result NoText.Failed → Rose (L.faults source.old) (L.faults source.new) }
{
    let mut chunk = vec![in alloc; 0u8; CHUNK]?;
    gain_by(source, &mut chunk, text)
}

/// The whole text that a source gives, of at most 16,777,216 bytes. It returns whenever the source does.
pub(crate) fn read_text<L: Source>(alloc: Global, source: &mut L) -> Result<Vec<u8>, NoText>
    ensures text { IfOk result (λ text. IsWholeText (L.told source.old) (L.told source.new) text.items) }
    ensures long { IsErrOf result NoText.Long → IsLongText (L.told source.old) (L.told source.new) }
    ensures later { L.faults source.old ≤ L.faults source.new }
    ensures cause { IsErrOf result NoText.Failed → Rose (L.faults source.old) (L.faults source.new) }
{
    let mut text = Vec::new(alloc);
    'reads: while text.len() <= TEXT_LIMIT {
        if gain(alloc, source, &mut text)? == 0 {
            return Ok(text);
        }
    }
    Err(NoText::Long)
}
