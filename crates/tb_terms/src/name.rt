//! Names of terms, tools, types, and atoms.
ghost use Rattle.std.specs.Prelude.{◌≡◌, ◌↔◌, IsTrue, IfOk, Some, None, length, if◌then◌else◌};
ghost use Rattle.std.specs.List.{list_all};
ghost use Rattle.tb_terms.specs.Names.{is_name, is_name_byte};

use crate::{Items, NoMemory};
use std::alloc::Global;
use std::marker::Model;
use std::sync::Arc;

/// The name of a term, a tool, a type, or an atom: a lower-case ASCII letter, followed by ASCII letters, digits, `-`, and `_`.
/// Contracts see it as its bytes. The copies of a name share its bytes.
#[derive(Drop)]
pub struct Name {
    bytes: Arc<Vec<u8>>,
}

/// A list of names.
pub type Names = Items<Name>;

impl Model for Name {
    ghost use Rattle.std.specs.Arc.{arc_value};
    ghost use Rattle.std.specs.Prelude.{List, ℕ, IsTrue};
    ghost use Rattle.tb_terms.specs.Names.{is_name};

    ghost Value = { List ℕ };

    ghost view = { λ name. (arc_value name.bytes).items };

    ghost invariant = { λ name. IsTrue (is_name (arc_value name.bytes).items) };
}

impl Name {
    /// Returns the name with these bytes. `is_name_bytes` tests whether bytes form a name.
    pub fn new(alloc: Global, bytes: &[u8]) -> Result<Name, NoMemory>
        requires { IsTrue (is_name bytes.now) }
        ensures { IfOk result (λ name. name ≡ bytes.now) }
    {
        let bytes = Arc::new(alloc, Vec::from_slice(alloc, bytes)?)?;
        Ok(Name { bytes })
    }

    /// Returns the name with these bytes, or `None` if they don't form a name.
    pub fn from_bytes(alloc: Global, bytes: &[u8]) -> Result<Option<Name>, NoMemory>
        ensures { IfOk result
            (λ name. name ≡ (if is_name bytes.now then Some bytes.now else None)) }
    {
        if !is_name_bytes(bytes) {
            return Ok(None);
        }
        Ok(Some(Name::new(alloc, bytes)?))
    }

    /// Returns the bytes of the name.
    pub fn as_bytes(&self) -> &[u8]
        ensures value { result.now ≡ self.now }
        ensures form { IsTrue (is_name self.now) }
    {
        self.bytes.as_slice()
    }

    /// Returns whether both names have the same bytes.
    pub fn is_same(&self, other: &Name) -> bool
        ensures { IsTrue result ↔ (self.now ≡ other.now) }
    {
        self.as_bytes() == other.as_bytes()
    }

    /// Returns the same name, which shares the bytes. Takes no memory. Returns an error only if 2^63 names share the bytes.
    pub fn share(&self) -> Result<Name, NoMemory>
        ensures { IfOk result (λ copy. copy ≡ self.now) }
    {
        let bytes = Arc::try_clone(&self.bytes)?;
        Ok(Name { bytes })
    }
}

/// Returns whether these bytes form a name.
pub fn is_name_bytes(bytes: &[u8]) -> bool
    ensures { result ≡ is_name bytes.now }
{
    match bytes.split_first() {
        None => false,
        Some((first, rest)) => first.is_ascii_lowercase() && are_name_bytes(rest),
    }
}

pub(crate) fn are_name_bytes(bytes: &[u8]) -> bool
    ensures { result ≡ list_all is_name_byte bytes.now }
{
    for byte in bytes {
        if !is_one_name_byte(*byte) {
            return false;
        }
    }
    true
}

fn is_one_name_byte(byte: u8) -> bool
    ensures { result ≡ is_name_byte byte }
{
    matches!(byte, b'a'..=b'z' | b'A'..=b'Z' | b'0'..=b'9' | b'-' | b'_')
}
