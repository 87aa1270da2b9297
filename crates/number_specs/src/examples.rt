//! Numbers whose texts pin the definitions.

ghost use Rattle.std.specs.Prelude.{◌≡◌, [], codes, pos, negsuc, Ok, Err};
ghost use Rattle.number_specs.specs.declared.NumFault.TheVariants.{Form, Range};
ghost use Rattle.number_specs.specs.LogNumbers.{read_number};
ghost use Rattle.number_specs.specs.Literals.{read_literal};
ghost use Rattle.number_specs.specs.FractionTexts.{fraction_text};

/// Numbers are exact and in lowest terms.
pub fn some_numbers()
    ensures { (read_number (codes "-.50e0") ≡ Ok (record { num = negsuc 0; den = pos 2 }))
        × (read_number (codes "-0.0") ≡ Ok (record { num = pos 0; den = pos 1 }))
        × (read_number (codes "999999999999999") ≡ Ok (record { num = pos 999999999999999; den = pos 1 }))
        × (read_number (codes "+12.5E-1") ≡ Ok (record { num = pos 5; den = pos 4 })) }
{}

/// Texts that are no number: too large, too fine, and not of the form.
pub fn no_numbers()
    ensures { (read_number (codes "1e15") ≡ Err Range) × (read_number (codes "1e-19") ≡ Err Range) × (read_number (codes "nan") ≡ Err Form)
        × (read_number (codes "0e00001") ≡ Err Form) × (read_number (codes ".") ≡ Err Form) × (read_number [] ≡ Err Form) }
{}

/// Eighteen decimals are read, and a nineteenth only where it is 0.
pub fn eighteen_decimals()
    ensures { (read_number (codes "0.123456789012345679") ≡ Ok (record { num = pos 123456789012345679; den = pos 1000000000000000000 }))
        × (read_number (codes "0.1234567890123456785") ≡ Err Range) × (read_number (codes "0.0000000000000000001") ≡ Err Range)
        × (read_number (codes "0.1234567890123456790") ≡ Ok (record { num = pos 123456789012345679; den = pos 1000000000000000000 }))
        × (read_number (codes "-1234567890123456.79e-16") ≡ Ok (record { num = negsuc 123456789012345678; den = pos 1000000000000000000 })) }
{}

/// Literals of a model: whole, divided, with a point.
pub fn some_literals()
    ensures { (read_literal (codes "007") ≡ Ok (record { num = pos 7; den = pos 1 }))
        × (read_literal (codes "6/4") ≡ Ok (record { num = pos 3; den = pos 2 }))
        × (read_literal (codes "1.50") ≡ Ok (record { num = pos 3; den = pos 2 }))
        × (read_literal (codes "999999999/999999998") ≡ Ok (record { num = pos 999999999; den = pos 999999998 })) }
{}

/// Texts that are no literal: too many digits, a denominator of 0 (also behind too many digits), a sign, an exponent, a point at an end.
pub fn no_literals()
    ensures { (read_literal (codes "1234567890") ≡ Err Range) × (read_literal (codes "1/1234567890") ≡ Err Range)
        × (read_literal (codes "12345.67890") ≡ Err Range) × (read_literal (codes "1234567890/0") ≡ Err Form)
        × (read_literal (codes "-1") ≡ Err Form) × (read_literal (codes "1e5") ≡ Err Form)
        × (read_literal (codes ".5") ≡ Err Form) × (read_literal (codes "5.") ≡ Err Form) × (read_literal [] ≡ Err Form) }
{}

/// A fraction is written with its denominator, a whole number without.
pub fn some_texts()
    ensures { (fraction_text (record { num = negsuc 2; den = pos 2 }) ≡ codes "-3/2") × (fraction_text (record { num = pos 0; den = pos 1 }) ≡ codes "0") }
{}
