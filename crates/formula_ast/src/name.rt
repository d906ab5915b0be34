ghost use Rattle.std.specs.Prelude.{◌≡◌, ◌≤◌, length, Some, None, if◌then◌else◌};
ghost use Rattle.std.specs.List.{list_all};
ghost use Rattle.formula_ast.specs.Names.{begins_name, goes_on_name, name_limit, is_plain_name, is_name};
ghost use Rattle.std.specs.Hash as fed;
ghost use Rattle.std.specs.Cmp.Rules.{hashing};
ghost use Rattle.std.proofs.Common.{rules};

use crate::parting::cut;
use std::hash::{Hash, Hasher};
use std::marker::Model;

/// The most bytes of a plain name.
const PLAIN_LIMIT: usize = 24;

/// The most bytes of a name: those of two plain ones and of the point between them.
const NAME_LIMIT: usize = 49;

/// The name of a quantity: a plain name, which is a letter or `_` and then letters, digits and `_`, at
/// most 24 bytes, or that of a table and that of its column, parted by a point. It is held inline.
#[derive(Clone, Copy, Debug)]
pub struct Name {
    text: [u8; NAME_LIMIT],
    len: u8,
}

impl Model for Name {
    ghost use Rattle.std.specs.Prelude.{ℕ, List, take};

    ghost Value = { List ℕ };

    ghost use Rattle.formula_ast.specs.Padded.{IsPadded, padded, padded_ok};

    ghost view = { λ name. take name.len name.text };

    ghost invariant = { IsPadded };

    ghost inverse = { padded };

    ghost inverse_ok = { padded_ok };
}

impl Name {
    /// The name that `text` is, and `None` exactly where it is none.
    pub fn new(text: &[u8]) -> Option<Name>
        ensures { result ≡ (if is_name text.now then Some text.now else None) }
    {
        if !is_name(text) {
            return None;
        }
        Some(Name::from_bytes(text))
    }

    /// The text of the name.
    pub fn as_bytes(&self) -> &[u8]
        ensures text { result.now ≡ self.now }
        ensures short { length result.now ≤ name_limit }
    {
        &self.text[..self.len as usize]
    }

    /// Whether the name is a plain one, and so may be that of a row.
    pub fn is_plain(&self) -> bool
        ensures { result ≡ is_plain_name self.now }
    {
        is_plain_name(self.as_bytes())
    }

    /// The plain name that `text` is, and `None` exactly where it is none.
    pub fn plain(text: &[u8]) -> Option<Name>
        ensures { result ≡ (if is_plain_name text.now then Some text.now else None) }
    {
        if !is_plain_name(text) {
            return None;
        }
        Some(Name::from_bytes(text))
    }

    // These bytes, held inline.
    fn from_bytes(bytes: &[u8]) -> Name
        requires { length bytes.now ≤ name_limit }
        ensures { result ≡ bytes.now }
    {
        let mut text = [0u8; NAME_LIMIT];
        text[..bytes.len()].copy_from_slice(bytes);
        Name {
            text,
            len: bytes.len() as u8,
        }
    }
}

impl PartialEq for Name {
    ghost use Rattle.std.specs.Prelude.{bytes_eq};
    ghost use Rattle.std.specs.Cmp.{partial_equiv_from_equiv};
    ghost use Rattle.std.specs.Cmp.Lexicographic.{nat_list_eq_equiv};

    ghost eq = { bytes_eq };

    ghost laws = { partial_equiv_from_equiv nat_list_eq_equiv };

    fn eq(&self, other: &Name) -> bool {
        self.as_bytes() == other.as_bytes()
    }
}

impl Eq for Name {
    ghost use Rattle.std.specs.Cmp.Lexicographic.{nat_list_eq_equiv};

    ghost laws = { nat_list_eq_equiv };
}

impl Hash for Name {
    ghost hash_input = { fed.slice fed.u8 };

    ghost respects_eq = { Prim.search (hashing, rules) };

    fn hash<H: Hasher>(&self, state: &mut H) {
        self.as_bytes().hash(state);
    }
}

/// Whether a name may begin with this byte: a letter or `_`.
pub(crate) fn begins_name(byte: u8) -> bool
    ensures { result ≡ begins_name byte }
{
    byte.is_ascii_alphabetic() || byte == b'_'
}

/// Whether a name may go on with this byte: a letter, a digit or `_`.
pub(crate) fn goes_on_name(byte: u8) -> bool
    ensures { result ≡ goes_on_name byte }
{
    byte.is_ascii_alphanumeric() || byte == b'_'
}

/// Whether a name may go on with these bytes.
fn all_go_on_name(bytes: &[u8]) -> bool
    ensures { result ≡ list_all goes_on_name bytes.now }
{
    bytes.iter().all(|byte| goes_on_name(*byte))
}

/// Whether the word is a plain name.
pub fn is_plain_name(word: &[u8]) -> bool
    ensures { result ≡ is_plain_name word.now }
{
    let Some((first, others)) = word.split_first() else {
        return false;
    };
    begins_name(*first) && all_go_on_name(others) && others.len() < PLAIN_LIMIT
}

/// Whether the text is a name.
fn is_name(text: &[u8]) -> bool
    ensures { result ≡ is_name text.now }
{
    let (table, rest) = cut(text, b'.');
    let Some(rest) = rest else {
        return is_plain_name(table);
    };
    let (column, others) = cut(rest, b'.');
    match others {
        Some(_) => false,
        None => is_plain_name(table) && is_plain_name(column),
    }
}
