//! A text that is printed token by token, with spaces where they belong.

ghost use Rattle.std.specs.Prelude.{◌≡◌, [], ◌∷◌, OnOk, IfOk, IsTrue, unsigned_abs};
ghost use Rattle.lang_specs.specs.Words.{spelled};
ghost use Rattle.lang_specs.specs.Marks as marks;
ghost use Rattle.lang_specs.specs.Canonical as canonical;
ghost use Rattle.lang_print.specs.Pages.{with_begin, with_bytes, with_token, with_tokens, with_end, at_line_start};

use frac128::Frac;
use lang_specs::Kind;
use lha_model::Name;
use std::alloc::{AllocError, Global};
use std::marker::Model;

/// What is printed, and what decides on the space before the next token.
#[derive(Debug, Drop)]
pub(crate) struct Page {
    bytes: Vec<u8>,
    before: Kind,
    leading: bool,
}

impl Model for Page {
    ghost use Rattle.lang_print.specs.Pages as pages;

    ghost Value = { pages.Page };

    ghost view = { λ p. record { bytes = p.bytes.items; before = p.before; leading = p.leading } };
}

/// How a keyword or a sign is written.
fn spelled(kind: Kind) -> &'static [u8]
    ensures { result.now ≡ spelled kind }
{
    match kind {
        Kind::Lha => b"lha",
        Kind::Automaton => b"automaton",
        Kind::Var => b"var",
        Kind::Loc => b"loc",
        Kind::Unsafe => b"unsafe",
        Kind::Init => b"init",
        Kind::Inv => b"inv",
        Kind::Flow => b"flow",
        Kind::In => b"in",
        Kind::Also => b"also",
        Kind::Trans => b"trans",
        Kind::As => b"as",
        Kind::When => b"when",
        Kind::Set => b"set",
        Kind::Free => b"free",
        Kind::End => b"end",
        Kind::True => b"true",
        Kind::Obs => b"obs",
        Kind::Within => b"within",
        Kind::Comma => b",",
        Kind::Open => b"[",
        Kind::Close => b"]",
        Kind::AtMost => b"<=",
        Kind::AtLeast => b">=",
        Kind::Equal => b"=",
        Kind::Less => b"<",
        Kind::Greater => b">",
        Kind::Plus => b"+",
        Kind::Minus => b"-",
        Kind::Times => b"*",
        Kind::Arrow => b"->",
        Kind::Name | Kind::Number | Kind::EndLine | Kind::EndText | Kind::Other => b"",
    }
}

/// Whether no space stands before a token of this kind.
fn is_close_before(kind: Kind) -> bool
    ensures { result ≡ canonical.is_close_before kind }
{
    matches!(kind, Kind::Comma | Kind::Close | Kind::Times)
}

/// Whether no space stands behind a token of this kind.
fn is_close_behind(kind: Kind) -> bool
    ensures { result ≡ canonical.is_close_behind kind }
{
    matches!(kind, Kind::Open | Kind::Times)
}

/// Whether a token of this kind leads a term, behind one of that kind.
fn leads(before: Kind, kind: Kind) -> bool
    ensures { result ≡ canonical.leads before kind }
{
    matches!(kind, Kind::Minus) && !matches!(before, Kind::Name | Kind::Number)
}

impl Page {
    /// A page with nothing on it.
    pub(crate) fn new(alloc: Global) -> Page
        ensures { result ≡ at_line_start [] }
    {
        Page {
            bytes: Vec::new(alloc),
            before: Kind::Name,
            leading: true,
        }
    }

    /// What is written.
    pub(crate) fn into_bytes(self) -> Vec<u8>
        ensures { result.items ≡ self.bytes }
    {
        self.bytes
    }

    /// Begins a token of this kind.
    fn begin(&mut self, kind: Kind) -> Result<(), AllocError>
        ensures { OnOk result (self.new ≡ with_begin self.old kind) }
    {
        if !(self.leading || is_close_behind(self.before) || is_close_before(kind)) {
            self.bytes.push(b' ')?;
        }
        self.leading = leads(self.before, kind);
        self.before = kind;
        Ok(())
    }

    /// A keyword or a sign.
    pub(crate) fn key(&mut self, kind: Kind) -> Result<(), AllocError>
        ensures { OnOk result (self.new ≡ with_token self.old (marks.the kind)) }
    {
        self.begin(kind)?;
        self.bytes.extend_from_slice(spelled(kind))
    }

    /// A name.
    pub(crate) fn name(&mut self, name: &Name) -> Result<(), AllocError>
        ensures { OnOk result (self.new ≡ with_token self.old (marks.a_name name.now)) }
    {
        self.begin(Kind::Name)?;
        self.bytes.extend_from_slice(name.bytes())
    }

    /// Digits.
    pub(crate) fn digits(&mut self, digits: &[u8]) -> Result<(), AllocError>
        ensures { OnOk result (self.new ≡ with_token self.old (marks.a_number digits.now)) }
    {
        self.begin(Kind::Number)?;
        self.bytes.extend_from_slice(digits)
    }

    /// A number that is at least 0.
    pub(crate) fn number(&mut self, number: &Frac) -> Result<(), AllocError>
        ensures { OnOk result (self.new ≡ with_tokens self.old (canonical.number_tokens number.now)) }
    {
        self.begin(Kind::Number)?;
        number.write(&mut self.bytes)
    }

    /// Ends the line.
    pub(crate) fn end_line(&mut self) -> Result<(), AllocError>
        ensures { OnOk result (self.new ≡ with_end self.old) }
    {
        self.bytes.push(b'\n')?;
        self.before = Kind::Name;
        self.leading = true;
        Ok(())
    }
}
