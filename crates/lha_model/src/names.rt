//! Names, and which texts are names.

ghost use Rattle.std.specs.Prelude.{◌≡◌, ◌≤◌, length, IsTrue, SomeIff, bytes_eq};
ghost use Rattle.std.specs.List.{list_any, list_all};
ghost use Rattle.run_specs.specs.Names as names;
ghost use Rattle.run_specs.specs.Names.{is_name};

use smallvec::SmallVec;
use std::alloc::Global;
use std::marker::Model;

/// A name of an automaton, a variable, a location or a transition: 1 to 32 bytes.
///
/// The first byte is a letter or `_`, the others are letters, digits or `_`, and it is no word
/// of the model language. It lies in the value itself, and takes no memory.
#[derive(Debug, PartialEq, Eq, Hash, Drop)]
pub struct Name {
    bytes: SmallVec<u8, 32>,
}

impl Model for Name {
    ghost use Rattle.std.specs.Prelude.{◌≡◌, ℕ, List, IsTrue};
    ghost use Rattle.std.proofs.Common.{sym};
    ghost use Rattle.run_specs.specs.Names.{is_name};

    ghost Value = { List ℕ };

    ghost view = { λ n. n.bytes.items };

    ghost invariant = { λ n. IsTrue (is_name n.bytes.items) × (n.bytes.capacity ≡ 32) };

    ghost inverse = { λ bytes. record { bytes = record { items = bytes; capacity = 32 } } };

    ghost inverse_ok = { λ n h i. record { bytes = record { items = n.bytes.items; capacity = sym h.1 i } } };
}

/// The most bytes of a name.
const LONGEST: usize = 32;

/// A to Z, or a to z.
fn is_letter(byte: u8) -> bool
    ensures { result ≡ names.is_letter byte }
{
    byte.is_ascii_alphabetic()
}

/// A letter, a digit or `_`.
fn is_word_byte(byte: u8) -> bool
    ensures { result ≡ names.is_word_byte byte }
{
    is_letter(byte) || byte.is_ascii_digit() || byte == b'_'
}

/// Whether a letter or `_` stands first.
fn begins_as_name(bytes: &[u8]) -> bool
    ensures { result ≡ names.begins_as_name bytes.now }
{
    match bytes {
        [] => false,
        [first, ..] => is_letter(*first) || *first == b'_',
    }
}

/// Whether it is a word of the model language.
fn is_keyword(text: &str) -> bool
    ensures { result ≡ list_any (bytes_eq text.now) names.keywords }
{
    matches!(
        text,
        "lha"
            | "automaton"
            | "var"
            | "loc"
            | "unsafe"
            | "init"
            | "inv"
            | "flow"
            | "in"
            | "also"
            | "trans"
            | "as"
            | "when"
            | "set"
            | "free"
            | "end"
            | "true"
            | "obs"
            | "within"
    )
}

/// Whether there are 1 to 32 bytes.
fn has_name_length(bytes: &[u8]) -> bool
    ensures { result ≡ names.has_name_length bytes.now }
{
    !bytes.is_empty() && bytes.len() <= LONGEST
}

/// Whether each byte is a letter, a digit or `_`.
fn has_word_bytes(bytes: &[u8]) -> bool
    ensures { result ≡ list_all names.is_word_byte bytes.now }
{
    bytes.iter().all(|byte| is_word_byte(*byte))
}

/// Whether the text is a name.
fn is_name_text(text: &str) -> bool
    ensures { result ≡ is_name text.now }
{
    let bytes = text.as_bytes();
    has_name_length(bytes) && begins_as_name(bytes) && has_word_bytes(bytes) && !is_keyword(text)
}

/// The bytes, in the value itself.
fn held(alloc: Global, bytes: &[u8]) -> SmallVec<u8, 32>
    requires { length bytes.now ≤ 32 }
    ensures { result ≡ record { items = bytes.now; capacity = 32 } }
{
    SmallVec::from_slice(alloc, bytes).unwrap()
}

impl Name {
    /// The name that a text is; `None` exactly where it is none. Takes no memory.
    pub fn make(alloc: Global, text: &str) -> Option<Name>
        ensures { SomeIff result (IsTrue (is_name text.now)) text.now }
    {
        if !is_name_text(text) {
            return None;
        }
        Some(Name {
            bytes: held(alloc, text.as_bytes()),
        })
    }

    /// The bytes of the name, which are ASCII.
    pub fn bytes(&self) -> &[u8]
        ensures value { result.now ≡ self.now }
        ensures kept { IsTrue (is_name self.now) }
    {
        self.bytes.as_slice()
    }

    /// The same name. Takes no memory.
    pub fn copy(&self) -> Name
        ensures { result ≡ self.now }
    {
        Name {
            bytes: held(*self.bytes.allocator(), self.bytes.as_slice()),
        }
    }
}
