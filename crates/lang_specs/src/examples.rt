//! Lines, texts and trees that pin the definitions.

ghost use Rattle.std.specs.Prelude.{◌≡◌, [], ◌∷◌, map, codes};
ghost use Rattle.run_specs.specs.Names.{keywords};
ghost use Rattle.lang_specs.specs.declared.Kind.TheVariants.{Lha, Name, Number, Trans, As, When, End, Comma, Open, Close, AtMost, AtLeast, Less, Greater, Equal, Minus, Arrow, EndLine, EndText, Other};
ghost use Rattle.lang_specs.specs.declared.Which.TheVariants.{Variables, NameBytes};
ghost use Rattle.lang_specs.specs.Words.{spelled, keyword_kinds};
ghost use Rattle.lang_specs.specs.Limits.{row_count};
ghost use Rattle.lang_specs.specs.FirstFault.{IsSpelling, SyntaxAt, LimitAt, IsFirstFault};
ghost use Rattle.lang_specs.specs.Canonical.{canonical_text};
ghost use Rattle.lang_specs.specs.Examples.{at, seen, in_line, seen_in, tank, tank_text, tank_printed, narrow, narrow_printed, two_rows, starts, long_name_text, seven_variables};

/// The keywords are the words that no name may be.
pub fn keywords_are_spelled()
    ensures { map spelled keyword_kinds ≡ keywords }
{}

/// Blanks are needed only between words and literals; the longest token is taken; a comment is passed over.
pub fn some_lines()
    ensures { (seen (codes "lha 1") ≡ at 1 Lha ∷ at 5 Number ∷ at 6 EndLine ∷ [])
        × (seen (codes "trans a->b as p when x>=8 # far") ≡ at 1 Trans ∷ at 7 Name ∷ at 8 Arrow ∷ at 10 Name ∷ at 12 As ∷ at 15 Name ∷ at 17 When
        ∷ at 22 Name ∷ at 23 AtLeast ∷ at 25 Number ∷ at 26 EndLine ∷ [])
        × (seen (codes "x-->in_3<=>=<>") ≡ at 1 Name ∷ at 2 Minus ∷ at 3 Arrow ∷ at 5 Name ∷ at 9 AtMost ∷ at 11 AtLeast ∷ at 13 Less ∷ at 14 Greater
        ∷ at 15 EndLine ∷ [])
        × (seen (codes "[1.50,1/2] \t") ≡ at 1 Open ∷ at 2 Number ∷ at 6 Comma ∷ at 7 Number ∷ at 10 Close ∷ at 11 EndLine ∷ []) }
{}

/// What nothing allows: a second `/` or point, a word directly behind a literal, a denominator of 0, a carriage return, any other byte.
pub fn lines_that_nothing_allows()
    ensures { (seen (codes "1.5/2") ≡ at 1 Number ∷ at 4 Other ∷ at 5 Number ∷ at 6 EndLine ∷ [])
        × (seen (codes "8set 8 end") ≡ at 1 Number ∷ at 2 Other ∷ at 6 Number ∷ at 8 End ∷ at 11 EndLine ∷ [])
        × (seen (codes "1234567890/00 1.") ≡ at 1 Other ∷ at 15 Number ∷ at 16 Other ∷ at 17 EndLine ∷ [])
        × (seen (codes "x \r ?") ≡ at 1 Name ∷ at 3 Other ∷ at 5 Other ∷ at 6 EndLine ∷ [])
        × (seen (codes "x \r") ≡ at 1 Name ∷ at 3 Other ∷ at 2 EndLine ∷ []) }
{}

/// The last line may lack its line feed; one carriage return before a line feed is dropped, and no other; lines of blanks and comment are counted.
pub fn some_texts()
    ensures { (seen_in (codes "lha 1") ≡ seen_in (codes "lha 1\r\n"))
        × (seen_in (codes "lha 1\n") ≡ in_line 1 1 Lha ∷ in_line 1 5 Number ∷ in_line 1 6 EndLine ∷ in_line 2 1 EndText ∷ [])
        × (seen_in (codes "\n # x\r\nend\r") ≡ in_line 3 1 End ∷ in_line 3 4 Other ∷ in_line 3 4 EndLine ∷ in_line 4 1 EndText ∷ [])
        × (seen_in (codes "=\r\r\n  ") ≡ in_line 1 1 Equal ∷ in_line 1 2 Other ∷ in_line 1 2 EndLine ∷ in_line 3 1 EndText ∷ [])
        × (seen_in [] ≡ in_line 1 1 EndText ∷ []) }
{}

/// An equation counts as two rows.
pub fn rows_are_counted()
    ensures { (row_count starts ≡ 3) × (row_count two_rows ≡ 2) }
{}

/// Numbers are printed in lowest terms, a variable alone where its number is 1, a leading `-` close to its term; an empty list of rows is `true`, and an empty guard and no acts are left out.
pub fn some_canonical_texts()
    ensures { (canonical_text (tank ∷ []) ≡ tank_printed) × (canonical_text (narrow ∷ []) ≡ narrow_printed) }
{}

/// A text with a comment, an empty line, free spacing and numbers in any terms spells its tree.
pub fn a_spelling()
    ensures { IsSpelling tank_text (tank ∷ []) }
{}

/// An empty text is at fault in line 1, column 1.
pub fn an_empty_text()
    ensures { IsFirstFault [] (SyntaxAt 1 1) }
{}

/// The version is spelled `1` or `2`, and not otherwise.
pub fn an_odd_version()
    ensures { IsFirstFault (codes "lha 01") (SyntaxAt 1 5) }
{}

/// A name of 33 bytes passes a limit.
pub fn a_long_name()
    ensures { IsFirstFault long_name_text (LimitAt 2 NameBytes) }
{}

/// A seventh variable passes a limit, and the comma before it does not.
pub fn a_seventh_variable()
    ensures { IsFirstFault seven_variables (LimitAt 3 Variables) }
{}
