//! Fractions as text.

ghost use Rattle.std.specs.Prelude.{◌≡◌, ◌++◌, length, take, OnOk, OnErr};
ghost use Rattle.number_specs.specs.FractionTexts.{fraction_text};

use crate::Frac;
use itoa::Buffer;
use std::alloc::AllocError;

impl Frac {
    /// Appends the text `n` or `n/d`. After want of memory nothing is appended.
    pub fn write(&self, out: &mut Vec<u8>) -> Result<(), AllocError>
        ensures ok { OnOk result (out.new.items ≡ out.old.items ++ fraction_text self.now) }
        ensures err { OnErr result (out.new.items ≡ out.old.items) }
    {
        let start = out.len();
        let written = self.write_parts(out);
        if written.is_err() {
            out.truncate(start);
        }
        written
    }

    /// The same, but part of the text may be appended when memory is wanting.
    fn write_parts(&self, out: &mut Vec<u8>) -> Result<(), AllocError>
        ensures ok { OnOk result (out.new.items ≡ out.old.items ++ fraction_text self.now) }
        ensures begins { take (length out.old.items) out.new.items ≡ out.old.items }
    {
        let mut buffer = Buffer::new();
        out.extend_from_slice(buffer.format(self.num).as_bytes())?;
        if self.den != 1 {
            out.extend_from_slice(b"/")?;
            out.extend_from_slice(buffer.format(self.den.unsigned_abs()).as_bytes())?;
        }
        Ok(())
    }
}
