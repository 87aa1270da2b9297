//! The definitions of numbers that are written: in a log, in a model, and in what is printed.
#![tactic(auto)]

ghost use Rattle.std.specs.Prelude.{◌≡◌, ◌↔◌, ℕ, List, ℤ, ◌<◌, ◌^◌, pos, unsigned_abs, Ok, Err};
ghost use Rattle.poly_specs.specs.Fractions.{Fraction, SameFraction};
ghost use Rattle.poly_specs.specs.Arithmetic.{IsKept};
ghost use Rattle.number_specs.specs.LogNumbers.{read_number, IsLogNumber};
ghost use Rattle.number_specs.specs.NumberForms.{Writing, IsWriting, worth};
ghost use Rattle.number_specs.specs.declared.NumFault.TheVariants.{Form, Range};
ghost use Rattle.number_specs.specs.Literals.{read_literal, IsLiteralNumber};
ghost use Rattle.number_specs.specs.FractionTexts.{fraction_text};

pub mod examples;

/// Why a text is no number.
#[derive(Clone, Copy, Debug, PartialEq, Eq)]
pub enum NumFault {
    /// It is not written as a number.
    Form,
    /// It is too large, or has too many decimals or digits.
    Range,
}

/// A number of a log that is read is in lowest terms, below 10^15 on either side of 0, and a whole number of parts of 10^18.
pub fn numbers_are_in_range()
    ensures { (text : List ℕ) (v : Fraction) → read_number text ≡ Ok v → IsLogNumber v }
{}

/// A sign, digits with a point among them, and an exponent are read, in a log, as the number that a log may hold with the value of the sign times the
/// digits times 10 to the power of the exponent less the count of decimals.
pub fn written_numbers_are_read()
    ensures { (text : List ℕ) (w : Writing) → IsWriting text w → (v : Fraction) → (read_number text ≡ Ok v) ↔ (IsLogNumber v × SameFraction v (worth w)) }
{}

/// Such a text is out of range exactly where a log may hold no number of that value.
pub fn other_written_numbers_are_out_of_range()
    ensures { (text : List ℕ) (w : Writing) → IsWriting text w →
        (read_number text ≡ Err Range) ↔ ((v : Fraction) → IsLogNumber v → SameFraction v (worth w) → ⊥) }
{}

/// A text that is not written so is no number.
pub fn other_texts_are_no_numbers()
    ensures { (text : List ℕ) → (read_number text ≡ Err Form) ↔ ((w : Writing) → IsWriting text w → ⊥) }
{}

/// A literal that is read is in lowest terms and at least 0, and both of its numbers have at most nine digits.
pub fn literals_are_small()
    ensures { (text : List ℕ) (v : Fraction) → read_literal text ≡ Ok v → IsLiteralNumber v }
{}

/// The text of a whole number below 10^15 on either side of 0 is read, in a log, as that number.
pub fn whole_numbers_are_read_back()
    ensures { (n : ℤ) → unsigned_abs n < 10 ^ 15 → read_number (fraction_text (record { num = n; den = pos 1 })) ≡ Ok (record { num = n; den = pos 1 }) }
{}

/// The text of a number that a literal may write is read, in a model, as that number.
pub fn literals_are_read_back()
    ensures { (x : Fraction) → IsLiteralNumber x → read_literal (fraction_text x) ≡ Ok x }
{}

/// The texts of two fractions in lowest terms, of numbers that do not pass 128 bits, are equal only where the fractions are.
pub fn texts_tell_kept_fractions_apart()
    ensures { (x y : Fraction) → IsKept x → IsKept y → fraction_text x ≡ fraction_text y → x ≡ y }
{}
